//! What a drawing is made of: whole numbers, attributes, and the ends of elements.
ghost use Rattle.std.specs.Prelude.{◌≡◌, ◌++◌};
ghost use Rattle.explain_views.specs.Marks as model;

use crate::shapes::Look;
use growing_text::Text;

/// Writes a number of the drawing.
#[tactic(auto, unfolding(crate::specs::Marks::number_text))]
pub fn put_number(text: &mut Text, number: i64)
    ensures { text.new ≡ text.old ++ model.number_text number }
{
    if number < 0 {
        text.say("-");
    }
    text.number(number.unsigned_abs());
}

/// Writes an attribute with a number.
#[tactic(auto, unfolding(crate::specs::Marks::attribute_text))]
pub fn put_attribute(text: &mut Text, name: &str, number: i64)
    ensures { text.new ≡ text.old ++ model.attribute_text name.now number }
{
    text.say(" ");
    text.say(name);
    text.say("=\"");
    put_number(text, number);
    text.say("\"");
}

/// Writes where an element stands.
#[tactic(auto, unfolding(crate::specs::Marks::corner_text))]
fn put_corner(text: &mut Text, corner: (i64, i64))
    ensures { text.new ≡ text.old ++ model.corner_text corner }
{
    put_attribute(text, "x", corner.0);
    put_attribute(text, "y", corner.1);
}

/// Writes where a text stands, and ends its tag.
#[tactic(auto, unfolding(crate::specs::Marks::place_text))]
pub fn put_place(text: &mut Text, corner: (i64, i64))
    ensures { text.new ≡ text.old ++ model.place_text corner }
{
    put_corner(text, corner);
    text.say(">");
}

/// Writes how large an element is.
#[tactic(auto, unfolding(crate::specs::Marks::size_text))]
pub fn put_size(text: &mut Text, size: (i64, i64))
    ensures { text.new ≡ text.old ++ model.size_text size }
{
    put_attribute(text, "width", size.0);
    put_attribute(text, "height", size.1);
}

/// Writes where a box stands and how large it is, and ends its element.
#[tactic(auto, unfolding(crate::specs::Marks::box_text))]
pub fn put_box(text: &mut Text, corner: (i64, i64), size: (i64, i64))
    ensures { text.new ≡ text.old ++ model.box_text corner size }
{
    put_corner(text, corner);
    put_size(text, size);
    text.say("/>\n");
}

/// Writes where a line begins.
#[tactic(auto, unfolding(crate::specs::Marks::from_text))]
fn put_from(text: &mut Text, from: (i64, i64))
    ensures { text.new ≡ text.old ++ model.from_text from }
{
    put_attribute(text, "x1", from.0);
    put_attribute(text, "y1", from.1);
}

/// Writes where a line ends.
#[tactic(auto, unfolding(crate::specs::Marks::to_text))]
fn put_to(text: &mut Text, to: (i64, i64))
    ensures { text.new ≡ text.old ++ model.to_text to }
{
    put_attribute(text, "x2", to.0);
    put_attribute(text, "y2", to.1);
}

/// Writes where a line begins and ends, and ends its element.
#[tactic(auto, unfolding(crate::specs::Marks::ends_text))]
pub fn put_ends(text: &mut Text, from: (i64, i64), to: (i64, i64))
    ensures { text.new ≡ text.old ++ model.ends_text from to }
{
    put_from(text, from);
    put_to(text, to);
    text.say("/>\n");
}

/// Writes where a point stands and how large it is, and ends its element.
#[tactic(auto, unfolding(crate::specs::Marks::round_text))]
pub fn put_round(text: &mut Text, centre: (i64, i64), radius: i64)
    ensures { text.new ≡ text.old ++ model.round_text centre radius }
{
    put_attribute(text, "cx", centre.0);
    put_attribute(text, "cy", centre.1);
    put_attribute(text, "r", radius);
    text.say("/>\n");
}

/// How far it is from one number up to another.
#[tactic(auto, unfolding(crate::specs::Marks::length_of))]
pub(crate) fn length_of(low: i64, high: i64) -> i64
    ensures { result ≡ model.length_of low high }
{
    let length = high.saturating_sub(low);
    if length < 0 { 0 } else { length }
}

/// The class of what is pale, before others.
pub(crate) fn pale_class(pale: bool) -> &'static str
    ensures { result.now ≡ model.pale_class pale }
{
    if pale { "p " } else { "" }
}

/// Writes the class of a box.
#[tactic(auto, unfolding(crate::specs::Marks::look_text))]
pub(crate) fn put_look(text: &mut Text, look: Look)
    ensures { text.new ≡ text.old ++ model.look_text look }
{
    match look {
        Look::Held(channel) => {
            text.say("b c");
            text.number(u64::from(channel));
        }
        Look::Free => text.say("free"),
        Look::First | Look::Second => text.say("red"),
    }
}

/// Begins a point in the colour of a channel.
#[tactic(auto, unfolding(crate::specs::Marks::class_text))]
pub(crate) fn put_point_class(text: &mut Text, channel: u8)
    ensures { text.new ≡ text.old ++ model.class_text channel }
{
    text.say("<circle class=\"s d");
    text.number(u64::from(channel));
    text.say("\"");
}
