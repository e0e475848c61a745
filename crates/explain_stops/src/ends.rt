//! How channels have stopped.
ghost use Rattle.std.specs.Prelude.{◌≡◌, ◌++◌, ◌==◌, count_by, nat_lt, slice_get};
ghost use Rattle.std.specs.List.{list_any};
ghost use Rattle.explain_stops.specs.Ends as model;

use axis_sets::ChannelId;
use explain_places::{Told, say_block};
use growing_text::Text;
use job_types::ChannelLine;
use sync_types::{ChannelEnd, Run};

/// Whether one of these lines has a channel.
pub(crate) fn has_channel(lines: &[ChannelLine], channel: ChannelId) -> bool
    ensures { result ≡ list_any (λ line. line.channel == channel) lines.now }
{
    lines.iter().any(|line| line.channel == channel)
}

/// How many of these lines have a channel below this one.
fn lower_channels(lines: &[ChannelLine], channel: ChannelId) -> usize
    ensures { result ≡ count_by (λ line. nat_lt line.channel channel) lines.now }
{
    lines
        .iter()
        .filter(|line| line.channel.number < channel.number)
        .count()
}

/// The end of this place in a run.
fn end_at(run: &Run, place: usize) -> Option<ChannelEnd>
    ensures { result ≡ slice_get run.now.ends place }
{
    run.ends.as_slice().get(place).copied()
}

/// How a channel has stopped; none where the job has it not.
#[tactic(auto, unfolding(crate::specs::Ends::end_of))]
pub fn end_of(told: &Told, channel: ChannelId) -> Option<ChannelEnd>
    ensures { result ≡ model.end_of told.now.job.now told.now.run.now channel }
{
    let job = told.job;
    let lines = job.channels.as_slice();
    if has_channel(lines, channel) {
        end_at(told.run, lower_channels(lines, channel))
    } else {
        None
    }
}

/// Says a line after a verb, and ends the line of the text.
#[tactic(auto, unfolding(crate::specs::Ends::at_text))]
fn say_at(text: &mut Text, told: &Told, verb: &str, line: u32)
    ensures { text.new ≡ text.old ++ model.at_text told.now.lines.now told.now.job.now verb.now line }
{
    text.say(verb);
    say_block(text, told, line);
    text.say("\n");
}

/// Says how a channel has stopped, after its name.
#[tactic(auto, unfolding(crate::specs::Ends::stop_text))]
pub(crate) fn say_stop(text: &mut Text, told: &Told, end: &Option<ChannelEnd>)
    ensures { text.new ≡ text.old ++ model.stop_text told.now.lines.now told.now.job.now end.now }
{
    match end {
        None => text.say("is no channel of the job\n"),
        Some(ChannelEnd::Idle) => text.say("has not started\n"),
        Some(ChannelEnd::Ended(line)) => say_at(text, told, "has ended in ", *line),
        Some(ChannelEnd::Holding(line)) => say_at(text, told, "waits in ", *line),
        Some(ChannelEnd::Alarmed(alarm)) => {
            say_at(text, told, "is stopped by an alarm in ", alarm.line)
        }
    }
}
