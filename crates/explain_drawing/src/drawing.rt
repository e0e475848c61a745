//! A picture as a drawing in SVG. All numbers are whole micrometres.
ghost use Rattle.std.specs.Prelude.{◌≡◌, ◌++◌, IfOk};
ghost use Rattle.explain_drawing.specs.Drawing as model;

use crate::space::put_view;
use crate::styles::{LEGEND, STYLES};
use crate::times::Lanes;
use crate::titles::put_title;
use explain_places::Told;
use explain_views::{Picture, View, extent_of, has_motion, put_attribute, put_number, put_size};
use growing_text::Text;
use out_of_memory::NoMemory;
use std::alloc::Global;
use sync_types::Verdict;

/// How wide the views of a picture are, or how tall the first of them is: the greater of both, and 10 millimetres at least.
#[tactic(auto, unfolding(crate::specs::Drawing::span_of))]
fn span_of(picture: &Picture) -> i64
    ensures { result ≡ model.span_of picture.now }
{
    let wide = extent_of(picture, 2).length();
    let tall = extent_of(picture, 0).length();
    wide.max(tall).max(10_000)
}

/// The size of a letter.
#[tactic(auto, unfolding(crate::specs::Drawing::letter_of))]
fn letter_of(picture: &Picture) -> i64
    ensures { result ≡ model.letter_of picture.now }
{
    span_of(picture) / 50
}

/// X over Z, below the title.
#[tactic(auto, unfolding(crate::specs::Drawing::first_view))]
fn first_view(picture: &Picture) -> View
    ensures { result ≡ model.first_view picture.now }
{
    let letter = letter_of(picture);
    View::of(picture, 0, letter.saturating_mul(7), letter)
}

/// Y over Z, below it.
#[tactic(auto, unfolding(crate::specs::Drawing::second_view))]
fn second_view(picture: &Picture) -> View
    ensures { result ≡ model.second_view picture.now }
{
    let letter = letter_of(picture);
    let first = first_view(picture);
    let top = first.bottom().saturating_add(letter.saturating_mul(4));
    View::of(picture, 1, top, letter)
}

/// Where the views end: the second is there where anything moves along Y.
#[tactic(auto, unfolding(crate::specs::Drawing::views_end))]
fn views_end(picture: &Picture) -> i64
    ensures { result ≡ model.views_end picture.now }
{
    if has_motion(picture, 1) {
        second_view(picture).bottom()
    } else {
        first_view(picture).bottom()
    }
}

/// So many letters below the views.
#[tactic(auto, unfolding(crate::specs::Drawing::below))]
fn below(picture: &Picture, letters: i64) -> i64
    ensures { result ≡ model.below picture.now letters }
{
    views_end(picture).saturating_add(letter_of(picture).saturating_mul(letters))
}

/// The lanes, below the legend.
#[tactic(auto, unfolding(crate::specs::Drawing::lanes_in))]
fn lanes_in(picture: &Picture) -> Lanes
    ensures { result ≡ model.lanes_in picture.now }
{
    Lanes::of(picture, below(picture, 8), letter_of(picture))
}

/// How wide and how tall the drawing is.
#[tactic(auto, unfolding(crate::specs::Drawing::page_of))]
fn page_of(picture: &Picture) -> (i64, i64)
    ensures { result ≡ model.page_of picture.now }
{
    let letter = letter_of(picture);
    (
        span_of(picture).saturating_add(letter.saturating_mul(8)),
        lanes_in(picture).bottom().saturating_add(letter),
    )
}

/// Writes how far the drawing reaches, and the size of its letters.
#[tactic(auto, unfolding(crate::specs::Drawing::frame_text))]
fn put_frame(text: &mut Text, page: (i64, i64), letter: i64)
    ensures { text.new ≡ text.old ++ model.frame_text page letter }
{
    put_number(text, page.0);
    text.say(" ");
    put_number(text, page.1);
    text.say("\"");
    put_attribute(text, "font-size", letter);
}

/// Writes the white ground.
#[tactic(auto, unfolding(crate::specs::Drawing::paper_text))]
fn put_paper(text: &mut Text, page: (i64, i64))
    ensures { text.new ≡ text.old ++ model.paper_text page }
{
    text.say(">\n<rect fill=\"#fff\"");
    put_size(text, page);
    text.say("/>\n");
}

/// The classes.
fn styles() -> &'static str
    ensures { result.now ≡ STYLES.now }
{
    STYLES
}

/// What the signs of the drawing are.
fn legend() -> &'static str
    ensures { result.now ≡ LEGEND.now }
{
    LEGEND
}

/// Writes all classes.
fn put_styles(text: &mut Text)
    ensures { text.new ≡ text.old ++ STYLES.now }
{
    text.say(styles());
}

/// Writes how far the drawing of a picture reaches.
#[tactic(auto, unfolding(crate::specs::Drawing::frame_part))]
fn put_frame_part(text: &mut Text, picture: &Picture)
    ensures { text.new ≡ text.old ++ model.frame_part picture.now }
{
    put_frame(text, page_of(picture), letter_of(picture));
}

/// Writes the white ground of a picture.
#[tactic(auto, unfolding(crate::specs::Drawing::paper_part))]
fn put_paper_part(text: &mut Text, picture: &Picture)
    ensures { text.new ≡ text.old ++ model.paper_part picture.now }
{
    put_paper(text, page_of(picture));
}

/// Writes the head of the drawing.
#[tactic(auto, unfolding(crate::specs::Drawing::head_text))]
fn put_head(text: &mut Text, picture: &Picture)
    ensures { text.new ≡ text.old ++ model.head_text picture.now }
{
    text.say("<svg xmlns=\"http://www.w3.org/2000/svg\" viewBox=\"0 0 ");
    put_frame_part(text, picture);
    put_paper_part(text, picture);
    put_styles(text);
}

/// Writes the views.
#[tactic(auto, unfolding(crate::specs::Drawing::views_text))]
fn put_views(text: &mut Text, told: &Told, picture: &Picture)
    ensures { text.new ≡ text.old ++ model.views_text told.now.lines.now told.now.job.now picture.now }
{
    put_view(text, told, &first_view(picture), picture);
    if has_motion(picture, 1) {
        put_view(text, told, &second_view(picture), picture);
    }
}

/// Writes both numbers of a place.
#[tactic(auto, unfolding(crate::specs::Drawing::pair_text))]
fn put_pair(text: &mut Text, at: (i64, i64))
    ensures { text.new ≡ text.old ++ model.pair_text at }
{
    put_number(text, at.0);
    text.say(" ");
    put_number(text, at.1);
}

/// Writes what each sign is.
fn put_signs(text: &mut Text)
    ensures { text.new ≡ text.old ++ LEGEND.now }
{
    text.say(legend());
}

/// Writes what the signs are, from a place on.
#[tactic(auto, unfolding(crate::specs::Drawing::legend_text))]
fn put_legend(text: &mut Text, at: (i64, i64))
    ensures { text.new ≡ text.old ++ model.legend_text at }
{
    text.say("<g transform=\"translate(");
    put_pair(text, at);
    text.say(")\">\n");
    put_signs(text);
}

/// The place so many letters below the views, two letters from the left edge.
#[tactic(auto, unfolding(crate::specs::Drawing::place_below))]
fn place_below(picture: &Picture, letters: i64) -> (i64, i64)
    ensures { result ≡ model.place_below picture.now letters }
{
    (
        letter_of(picture).saturating_mul(2),
        below(picture, letters),
    )
}

/// Writes what the signs of a picture are.
#[tactic(auto, unfolding(crate::specs::Drawing::legend_part))]
fn put_legend_part(text: &mut Text, picture: &Picture)
    ensures { text.new ≡ text.old ++ model.legend_part picture.now }
{
    put_legend(text, place_below(picture, 3));
}

/// Writes the lanes of a picture.
#[tactic(auto, unfolding(crate::specs::Drawing::lanes_part))]
fn put_lanes_part(text: &mut Text, told: &Told, verdict: &Verdict, picture: &Picture)
    ensures { text.new ≡ text.old
        ++ model.lanes_part told.now.lines.now told.now.job.now verdict.now picture.now }
{
    lanes_in(picture).put(text, told, verdict, picture);
}

/// Writes what stands below the views: what its signs are, and the lanes.
#[tactic(auto, unfolding(crate::specs::Drawing::foot_text))]
fn put_foot(text: &mut Text, told: &Told, verdict: &Verdict, picture: &Picture)
    ensures { text.new ≡ text.old
        ++ model.foot_text told.now.lines.now told.now.job.now verdict.now picture.now }
{
    put_legend_part(text, picture);
    put_lanes_part(text, told, verdict, picture);
}

/// Writes that something was left out, where it was, and ends the drawing.
#[tactic(auto, unfolding(crate::specs::Drawing::end_text))]
fn put_end(text: &mut Text, picture: &Picture)
    ensures { text.new ≡ text.old ++ model.end_text picture.now }
{
    if picture.is_cut {
        text.say(
            "<text class=\"named\" x=\"1em\" y=\"5.6em\">only a part is drawn: there is too much of it</text>\n",
        );
    }
    text.say("</svg>\n");
}

/// Writes the title of a picture: the verdict in these words, and what it names.
#[tactic(auto, unfolding(crate::specs::Drawing::title_part))]
fn put_title_part(text: &mut Text, told: &Told, title: &[u8], verdict: &Verdict, picture: &Picture)
    ensures { text.new ≡ text.old
        ++ model.title_part told.now.lines.now told.now.job.now title.now verdict.now picture.now }
{
    put_title(text, told, title, verdict, letter_of(picture));
}

/// Writes the title and the views.
#[tactic(auto, unfolding(crate::specs::Drawing::top_text))]
fn put_top(text: &mut Text, told: &Told, title: &[u8], verdict: &Verdict, picture: &Picture)
    ensures { text.new ≡ text.old
        ++ model.top_text told.now.lines.now told.now.job.now title.now verdict.now picture.now }
{
    put_title_part(text, told, title, verdict, picture);
    put_views(text, told, picture);
}

/// The picture of a run as a drawing in SVG: the verdict in these words with what it names, X over Z, below it Y over Z where
/// anything moves along Y, and the time of the channels. `NoMemory` where too little memory is found.
#[tactic(auto, unfolding(crate::specs::Drawing::drawing_text))]
pub fn draw(
    alloc: Global,
    told: &Told,
    title: &[u8],
    verdict: &Verdict,
    picture: &Picture,
) -> Result<Vec<u8>, NoMemory>
    ensures { IfOk result (λ text. text.items
        ≡ model.drawing_text told.now.lines.now told.now.job.now title.now verdict.now picture.now) }
{
    let mut text = Text::new(alloc);
    put_head(&mut text, picture);
    put_top(&mut text, told, title, verdict, picture);
    put_foot(&mut text, told, verdict, picture);
    put_end(&mut text, picture);
    text.finish()
}
