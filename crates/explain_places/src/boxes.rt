//! How boxes are said.
ghost use Rattle.std.specs.Prelude.{◌≡◌, ◌<◌, ◌++◌};
ghost use Rattle.explain_places.specs.Boxes as model;

use growing_text::Text;
use swept_boxes::Box3;

/// The name of a direction of space.
#[tactic(auto, unfolding(crate::specs::Boxes::direction_text))]
fn direction_name(direction: usize) -> &'static str
    ensures { result.now ≡ model.direction_text direction }
{
    match direction {
        0 => "X",
        1 => "Y",
        _ => "Z",
    }
}

/// Says a direction: X, Y or Z for 0, 1 and 2.
pub fn say_direction(text: &mut Text, direction: usize)
    ensures { text.new ≡ text.old ++ model.direction_text direction }
{
    text.say(direction_name(direction));
}

/// Says the bounds of a box along a direction.
#[tactic(auto, unfolding(crate::specs::Boxes::bounds_text))]
fn say_bounds(text: &mut Text, space: &Box3, direction: usize)
    requires { direction < 3 }
    ensures { text.new ≡ text.old ++ model.bounds_text space.now direction }
{
    say_direction(text, direction);
    text.say(" ");
    text.millimetres(i64::from(space.lo[direction]));
    text.say(" to ");
    text.millimetres(i64::from(space.hi[direction]));
}

/// Says a box by its bounds in millimetres, as `X -1.500 to 2.000, Y 0.000 to 0.010, Z 0.007 to 0.008`.
#[tactic(auto, unfolding(crate::specs::Boxes::box_text))]
pub fn say_box(text: &mut Text, space: &Box3)
    ensures { text.new ≡ text.old ++ model.box_text space.now }
{
    say_bounds(text, space, 0);
    text.say(", ");
    say_bounds(text, space, 1);
    text.say(", ");
    say_bounds(text, space, 2);
}
