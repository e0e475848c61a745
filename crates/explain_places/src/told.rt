//! A job that was run, and where its blocks stand.
ghost use Rattle.std.specs.Prelude.{◌≡◌, ◌++◌, [], slice_get, unwrap_or};
ghost use Rattle.std.specs.Option.{option_and_then};
ghost use Rattle.explain_lines.specs.Lines.{line_text};
ghost use Rattle.explain_places.specs.Lines as model;

use axis_sets::ChannelId;
use explain_lines::{Lines, block_number, say_origin};
use growing_text::Text;
use job_types::Job;
use sync_types::Run;

/// A job that was run, with the input that it was read from.
#[derive(Clone, Copy)]
pub struct Told<'a> {
    /// The lines of the input.
    pub lines: &'a Lines<'a>,
    /// The job.
    pub job: &'a Job,
    /// Its run in order.
    pub run: &'a Run,
}

/// The name of the program of a place, where its header is not after a line; else another name.
fn later_name<'a>(job: &'a Job, place: usize, line: u32, other: &'a [u8]) -> &'a [u8]
    ensures { result.now ≡ unwrap_or (option_and_then (model.name_before line) (slice_get job.now.programs place))
        other.now }
{
    match job.programs.get_index(place) {
        Some((name, program)) => {
            if program.line <= line {
                name.as_bytes()
            } else {
                other
            }
        }
        None => other,
    }
}

/// The name of the program that a line is of: the last whose header is not after it. Nothing where it is a line of the job list.
#[tactic(auto, unfolding(crate::specs::Lines::program_name))]
pub fn program_name(job: &Job, line: u32) -> &[u8]
    ensures { result.now ≡ model.program_name job.now line }
{
    let mut name: &[u8] = &[];
    for place in 0..job.programs.len() {
        name = later_name(job, place, line, name);
    }
    name
}

/// The text of a line, counted from 1, without the white space around it.
pub fn line_text<'a>(told: &Told<'a>, line: u32) -> &'a [u8]
    ensures { result.now ≡ line_text told.now.lines.now line }
{
    told.lines.text(line)
}

/// Says the number of a block, if it has one.
#[tactic(auto, unfolding(crate::specs::Lines::number_text))]
fn say_number(text: &mut Text, number: &[u8])
    ensures { text.new ≡ text.old ++ model.number_text number.now }
{
    if !number.is_empty() {
        text.say(" (");
        text.bytes(number);
        text.say(")");
    }
}

/// Says the name of a program, if there is one.
#[tactic(auto, unfolding(crate::specs::Lines::of_text))]
fn say_program(text: &mut Text, name: &[u8])
    ensures { text.new ≡ text.old ++ model.of_text name.now }
{
    if !name.is_empty() {
        text.say(" of ");
        text.bytes(name);
    }
}

/// Says which line is meant: its number, its block number and its program, and in a joined input its file and the line of the file.
#[tactic(auto, unfolding(crate::specs::Lines::line_place_text))]
pub fn say_line(text: &mut Text, told: &Told, line: u32)
    ensures { text.new ≡ text.old ++ model.line_place_text told.now.lines.now told.now.job.now line }
{
    text.say("line ");
    text.number(u64::from(line));
    say_number(text, block_number(line_text(told, line)));
    say_program(text, program_name(told.job, line));
    say_origin(text, told.lines, line);
}

/// Says which line is meant, and how it reads.
#[tactic(auto, unfolding(crate::specs::Lines::block_text))]
pub fn say_block(text: &mut Text, told: &Told, line: u32)
    ensures { text.new ≡ text.old ++ model.block_text told.now.lines.now told.now.job.now line }
{
    say_line(text, told, line);
    text.say(": ");
    text.bytes(line_text(told, line));
}

/// Says a channel.
#[tactic(auto, unfolding(crate::specs::Lines::channel_text))]
pub fn say_channel(text: &mut Text, channel: ChannelId)
    ensures { text.new ≡ text.old ++ model.channel_text channel }
{
    text.say("channel ");
    text.number(u64::from(channel.number));
}

/// Says a channel at the beginning of a sentence.
#[tactic(auto, unfolding(crate::specs::Lines::channel_first_text))]
pub fn say_channel_first(text: &mut Text, channel: ChannelId)
    ensures { text.new ≡ text.old ++ model.channel_first_text channel }
{
    text.say("Channel ");
    text.number(u64::from(channel.number));
}
