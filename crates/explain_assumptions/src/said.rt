//! What a run takes for granted, said.
ghost use Rattle.std.specs.Prelude.{◌≡◌, ◌++◌};
ghost use Rattle.std.specs.List.{flat_map};
ghost use Rattle.explain_assumptions.specs.Texts as model;
ghost use Rattle.explain_places.specs.Lines.{block_text};

use crate::rows::{Assumed, Assumption};
use axis_sets::AxisId;
use explain_places::{Told, say_axis, say_block, say_channel_first};
use growing_text::Text;

/// Says a parameter.
#[tactic(auto, unfolding(crate::specs::Texts::parameter_text))]
fn say_parameter(text: &mut Text, number: u16)
    ensures { text.new ≡ text.old ++ model.parameter_text number }
{
    text.say("R");
    text.number(u64::from(number));
}

/// Says in how many executed blocks words of this letter stand, which move nothing.
#[tactic(auto, unfolding(crate::specs::Texts::count_text))]
fn say_count(text: &mut Text, count: usize, letter: &'static str)
    ensures { text.new ≡ text.old ++ model.count_text count letter.now }
{
    text.say(" has words ");
    text.say(letter);
    text.say(", which move nothing here, in ");
    text.number(count as u64);
    text.say(" of the blocks that it executed");
}

/// Says which parameter is 0.
#[tactic(auto, unfolding(crate::specs::Texts::zero_text))]
fn say_zero(text: &mut Text, told: &Told, number: u16, line: u32)
    ensures { text.new ≡ text.old ++ model.zero_text told.now.lines.now told.now.job.now number line }
{
    text.say(" begins with ");
    say_parameter(text, number);
    text.say(" = 0, which no block sets before this one reads it: ");
    say_block(text, told, line);
}

/// Says up to which block an axis stands.
#[tactic(auto, unfolding(crate::specs::Texts::standing_text))]
fn say_standing(text: &mut Text, told: &Told, axis: AxisId, line: u32)
    ensures { text.new ≡ text.old ++ model.standing_text told.now.lines.now told.now.job.now axis line }
{
    text.say(" has ");
    say_axis(text, told.job, axis);
    text.say(" at its AXIS position up to this block, the first that moves it: ");
    say_block(text, told, line);
}

/// Says a block after some words.
fn say_with(text: &mut Text, told: &Told, words: &'static str, line: u32)
    ensures { text.new ≡ text.old ++ (words.now ++ block_text told.now.lines.now told.now.job.now line) }
{
    text.say(words);
    say_block(text, told, line);
}

/// Says what is taken for granted of a channel that has been said.
#[tactic(auto, unfolding(crate::specs::Texts::assumption_text))]
fn say_assumption(text: &mut Text, told: &Told, what: Assumption)
    ensures { text.new ≡ text.old ++ model.assumption_text told.now.lines.now told.now.job.now what }
{
    match what {
        Assumption::Radius(line) => say_with(
            text,
            told,
            " takes X for a radius, since no block says DIAMON, DIAM90 or DIAMOF before this one programs X: ",
            line,
        ),
        Assumption::NoOffset(line) => say_with(
            text,
            told,
            " has OFFSET lines, and moves without them (G500) first in this block: ",
            line,
        ),
        Assumption::UnusedOffset(line) => say_with(
            text,
            told,
            " moves nowhere under the word of this OFFSET line: ",
            line,
        ),
        Assumption::Zero(number, line) => say_zero(text, told, number, line),
        Assumption::Standing(axis, line) => say_standing(text, told, axis, line),
        Assumption::Tools(count) => say_count(text, count, "T"),
        Assumption::ToolOffsets(count) => say_count(text, count, "D"),
    }
}

/// Says what is taken for granted of a channel, in a line of its own.
#[tactic(auto, unfolding(crate::specs::Texts::assumed_text))]
fn say_assumed(text: &mut Text, told: &Told, assumed: &Assumed)
    ensures { text.new ≡ text.old ++ model.assumed_text told.now.lines.now told.now.job.now assumed.now }
{
    text.say("  ");
    say_channel_first(text, assumed.channel);
    say_assumption(text, told, assumed.what);
    text.say("\n");
}

/// Says these, one after another.
fn say_rows(text: &mut Text, told: &Told, rows: &[Assumed])
    ensures { text.new ≡ text.old ++ flat_map (model.assumed_text told.now.lines.now told.now.job.now) rows.now }
{
    for assumed in rows {
        say_assumed(text, told, assumed);
    }
}

/// Says what a run takes for granted, each in a line of its own under `Taken for granted:`; where there is nothing, a line that
/// says so.
#[tactic(auto, unfolding(crate::specs::Texts::assumptions_text))]
pub fn say_assumptions(text: &mut Text, told: &Told, rows: &[Assumed])
    ensures { text.new ≡ text.old ++ model.assumptions_text told.now.lines.now told.now.job.now rows.now }
{
    if rows.is_empty() {
        text.say("Nothing is taken for granted but what the job list says.\n");
    } else {
        text.say("Taken for granted:\n");
        say_rows(text, told, rows);
    }
}
