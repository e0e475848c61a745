//! Between which events a box of a zone lies.
ghost use Rattle.std.specs.Prelude.{◌≡◌, ◌++◌, option_copied, slice_get};
ghost use Rattle.explain_places.specs.Spans as model;

use crate::executions::last_entry;
use crate::place::Place;
use crate::told::{Told, say_block, say_channel};
use axis_sets::ChannelId;
use growing_text::Text;
use sync_types::{Entry, EventId, Run};

/// The entry of a place, if there is one.
fn entry_in(entries: &[Entry], place: usize) -> Option<&Entry>
    ensures { option_copied result ≡ slice_get entries.now place }
{
    entries.get(place)
}

/// The entry of a step, if there is one.
fn entry_at(run: &Run, step: usize) -> Option<&Entry>
    ensures { option_copied result ≡ slice_get run.now.entries step }
{
    run.entries.get(step)
}

/// The last entry of a channel among those up to and with a step.
fn last_own(entries: &[Entry], channel: ChannelId, step: usize) -> Option<&Entry>
    ensures { option_copied result ≡ model.last_own entries.now channel step }
{
    match last_entry(entries, channel, step) {
        Some(place) => entry_in(entries, place),
        None => None,
    }
}

/// Whether this is the channel.
fn is_channel(own: Option<ChannelId>, channel: ChannelId) -> bool
    ensures { result ≡ model.is_channel own channel }
{
    match own {
        Some(own) => own == channel,
        None => false,
    }
}

/// Says whose block follows, where it is not that of the channel of which is told.
#[tactic(auto, unfolding(crate::specs::Spans::other_text))]
fn say_other(text: &mut Text, own: Option<ChannelId>, channel: ChannelId)
    ensures { text.new ≡ text.old ++ model.other_text own channel }
{
    if !is_channel(own, channel) {
        say_channel(text, channel);
        text.say(", ");
    }
}

/// The line of the last entry of a channel among those up to and with a step.
#[tactic(auto, unfolding(crate::specs::Spans::last_line))]
fn last_line(entries: &[Entry], channel: ChannelId, step: usize) -> Option<u32>
    ensures { result ≡ model.last_line entries.now channel step }
{
    match last_own(entries, channel, step) {
        Some(entry) => Some(entry.step().line),
        None => None,
    }
}

/// Says that a channel goes on after a block.
fn say_on(text: &mut Text, told: &Told, channel: ChannelId, line: u32)
    ensures { text.new ≡ text.old ++ model.on_text told.now.lines.now told.now.job.now channel line }
{
    text.say("when ");
    say_channel(text, channel);
    text.say(" goes on after ");
    say_block(text, told, line);
}

/// Says that a channel starts.
fn say_start(text: &mut Text, channel: ChannelId)
    ensures { text.new ≡ text.old ++ model.start_text channel }
{
    text.say("the start of ");
    say_channel(text, channel);
}

/// Says that a channel goes on after its last block of coordination, or starts where it has none.
#[tactic(auto, unfolding(crate::specs::Spans::after_text))]
fn say_after(text: &mut Text, told: &Told, channel: ChannelId, line: Option<u32>)
    ensures { text.new ≡ text.old ++ model.after_text told.now.lines.now told.now.job.now channel line }
{
    match line {
        Some(line) => say_on(text, told, channel, line),
        None => say_start(text, channel),
    }
}

/// Says that the channel of which is told goes on, or else that of the event.
#[tactic(auto, unfolding(crate::specs::Spans::going_text))]
fn say_going(text: &mut Text, told: &Told, own: Option<ChannelId>, event: EventId)
    ensures { text.new ≡ text.old ++ model.going_text told.now.lines.now told.now.job.now told.now.run.now own event }
{
    let channel = own.unwrap_or(event.channel);
    let run = told.run;
    let line = last_line(run.entries.as_slice(), channel, event.step as usize);
    say_after(text, told, channel, line);
}

/// Says that a channel acts.
#[tactic(auto, unfolding(crate::specs::Spans::acting_text))]
fn say_acting(text: &mut Text, told: &Told, own: Option<ChannelId>, entry: &Entry)
    ensures { text.new ≡ text.old ++ model.acting_text told.now.lines.now told.now.job.now own entry.now }
{
    say_other(text, own, entry.channel);
    say_block(text, told, entry.step.line);
}

/// Says an event.
#[tactic(auto, unfolding(crate::specs::Spans::event_text))]
fn say_event(text: &mut Text, told: &Told, own: Option<ChannelId>, event: EventId)
    ensures { text.new ≡ text.old ++ model.event_text told.now.lines.now told.now.job.now told.now.run.now own event }
{
    if event.go {
        say_going(text, told, own, event);
    } else if let Some(entry) = entry_at(told.run, event.step as usize) {
        say_acting(text, told, own, entry);
    }
}

/// Says from when a box is.
#[tactic(auto, unfolding(crate::specs::Spans::first_text, crate::specs::Spans::event_or_text))]
fn say_first(text: &mut Text, told: &Told, place: &Place)
    ensures { text.new ≡ text.old ++ model.first_text told.now.lines.now told.now.job.now told.now.run.now place.now }
{
    match place.first {
        Some(event) => say_event(text, told, place.name.channel, event),
        None => text.say("the start of the job"),
    }
}

/// Says until when a box is.
#[tactic(auto, unfolding(crate::specs::Spans::last_text, crate::specs::Spans::event_or_text))]
fn say_last(text: &mut Text, told: &Told, place: &Place)
    ensures { text.new ≡ text.old ++ model.last_text told.now.lines.now told.now.job.now told.now.run.now place.now }
{
    match place.last {
        Some(event) => say_event(text, told, place.name.channel, event),
        None => text.say("the end of the job"),
    }
}

/// Says of which zone it is told from when it is where.
#[tactic(auto, unfolding(crate::specs::Spans::zone_from_text))]
fn say_zone_from(text: &mut Text, place: &Place)
    ensures { text.new ≡ text.old ++ model.zone_from_text place.now }
{
    text.say("  Zone ");
    text.number(u64::from(place.name.zone.number));
    text.say(": from ");
}

/// Says between which events a box lies, in two lines.
pub fn say_span(text: &mut Text, told: &Told, place: &Place)
    ensures { text.new ≡ text.old ++ model.span_text told.now.lines.now told.now.job.now told.now.run.now place.now }
{
    say_zone_from(text, place);
    say_first(text, told, place);
    text.say("\n    up to ");
    say_last(text, told, place);
    text.say("\n");
}
