//! A refused input, said.
ghost use Rattle.std.specs.Prelude.{◌≡◌, ◌++◌, IfOk, replicate};
ghost use Rattle.explain_refused.specs.Refusals as model;

use crate::rows::{RefusedLine, refused_line};
use crate::slip_words::slip_advice;
use crate::slips::Slip;
use explain_advice::{refusal_advice, refusal_cause, refusal_name};
use explain_lines::{Lines, say_origin};
use fault_codes::Refusal;
use growing_text::Text;
use out_of_memory::NoMemory;
use std::alloc::Global;

/// Says so many blanks.
fn say_blanks(text: &mut Text, count: usize)
    ensures { text.new ≡ text.old ++ replicate count 32 }
{
    for _blank in 0..count {
        text.say(" ");
    }
}

/// Says where a refusal stands, under its line.
fn say_caret(text: &mut Text, place: Option<usize>)
    ensures { text.new ≡ text.old ++ model.caret place }
{
    if let Some(place) = place {
        text.say("    ");
        say_blanks(text, place);
        text.say("^\n");
    }
}

/// Says which slip a line has, where it has one.
fn say_slip(text: &mut Text, slip: Option<Slip>)
    ensures { text.new ≡ text.old ++ model.slip_text slip }
{
    if let Some(slip) = slip {
        text.say("    The slip: ");
        text.say(slip_advice(slip));
        text.say("\n");
    }
}

/// Says which line is refused.
#[tactic(auto, unfolding(crate::specs::Refusals::place_text))]
fn say_place(text: &mut Text, lines: &Lines, line: u32)
    ensures { text.new ≡ text.old ++ model.place_text lines.now line }
{
    text.say("REFUSED: line ");
    text.number(u64::from(line));
    say_origin(text, lines, line);
    text.say(" is refused with ");
}

/// Says what a refusal is called.
#[tactic(auto, unfolding(crate::specs::Refusals::name_text))]
fn say_name(text: &mut Text, code: u16, name: &str)
    ensures { text.new ≡ text.old ++ model.name_text code name.now }
{
    text.number(u64::from(code));
    text.say(", ");
    text.say(name);
    text.say(".\n    ");
}

/// Says with which code a line is refused, and how the line reads.
#[tactic(auto, unfolding(crate::specs::Refusals::shown_line))]
fn say_shown(text: &mut Text, lines: &Lines, row: &RefusedLine)
    ensures { text.new ≡ text.old ++ model.shown_line lines.now row.now }
{
    say_name(text, row.code, refusal_name(row.code));
    text.bytes(lines.text(row.line));
    text.say("\n");
}

/// Says with which code a line is refused, how the line reads, and at which place and by which slip it is refused.
#[tactic(auto, unfolding(crate::specs::Refusals::line_body))]
pub(crate) fn say_line(text: &mut Text, lines: &Lines, row: &RefusedLine)
    ensures { text.new ≡ text.old ++ model.line_body lines.now row.now }
{
    say_shown(text, lines, row);
    say_caret(text, row.place);
    say_slip(text, row.slip);
}

/// Says when a refusal comes, and what to do.
#[tactic(auto, unfolding(crate::specs::Refusals::advice_text))]
fn say_advice(text: &mut Text, cause: &str, advice: &str)
    ensures { text.new ≡ text.old ++ model.advice_text cause.now advice.now }
{
    text.say(cause);
    text.say("\nWhat to do: ");
    text.say(advice);
    text.say("\n");
}

/// Says a refused input: the line, the place of the refusal and the slip where they are known, what it means and what to do.
#[tactic(auto, unfolding(crate::specs::Refusals::row_text))]
fn say_refusal(text: &mut Text, lines: &Lines, row: &RefusedLine)
    ensures { text.new ≡ text.old ++ model.row_text lines.now row.now }
{
    say_place(text, lines, row.line);
    say_line(text, lines, row);
    say_advice(text, refusal_cause(row.code), refusal_advice(row.code));
}

/// A refused input in plain text: the line, the place of the refusal and the slip where they are known, what it means and what to
/// do. `NoMemory` where too little memory is found.
#[tactic(auto, unfolding(crate::specs::Refusals::refusal_text))]
pub(crate) fn explain_refusal(
    alloc: Global,
    lines: &Lines,
    refusal: &Refusal,
) -> Result<Vec<u8>, NoMemory>
    ensures { IfOk result (λ text. text.items ≡ model.refusal_text lines.now refusal.now) }
{
    let row = refused_line(alloc, lines, refusal)?;
    let mut text = Text::new(alloc);
    say_refusal(&mut text, lines, &row);
    text.finish()
}
