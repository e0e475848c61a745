//! What a channel that waits for good lacks, who could give it, and what to do.
ghost use Rattle.std.specs.Prelude.{◌≡◌, ◌++◌};
ghost use Rattle.explain_stops.specs.Waits as model;

use crate::ends::{end_of, say_stop};
use crate::lacks::Lack;
use crate::remedies::{remedy_of, say_advice};
use axis_sets::{AxisId, ChannelId};
use explain_places::{Told, say_axis, say_channel};
use growing_text::Text;
use sync_types::ChannelEnd;

/// Says for which mark of which channel is waited.
#[tactic(auto, unfolding(crate::specs::Waits::mark_name))]
fn say_mark_name(text: &mut Text, channel: ChannelId, mark: u8)
    ensures { text.new ≡ text.old ++ model.mark_name mark channel }
{
    text.say("  for mark ");
    text.number(u64::from(mark));
    text.say(" of ");
    say_channel(text, channel);
}

/// Says which blocks would raise a mark.
#[tactic(auto, unfolding(crate::specs::Waits::raising_text))]
fn say_raising(text: &mut Text, mark: u8)
    ensures { text.new ≡ text.old ++ model.raising_text mark }
{
    text.say(" can raise it, by WAITM(");
    text.number(u64::from(mark));
    text.say(", ..) or SETM(");
    text.number(u64::from(mark));
    text.say("), and it ");
}

/// Says that one channel alone can give what is waited for.
#[tactic(auto, unfolding(crate::specs::Waits::only_text))]
fn say_only(text: &mut Text, channel: ChannelId)
    ensures { text.new ≡ text.old ++ model.only_text channel }
{
    text.say(". Only ");
    say_channel(text, channel);
}

/// Says of a mark that is missing who would raise it, and what that channel does.
#[tactic(auto, unfolding(crate::specs::Waits::missing_mark))]
fn say_missing_mark(
    text: &mut Text,
    told: &Told,
    channel: ChannelId,
    mark: u8,
    end: &Option<ChannelEnd>,
)
    ensures { text.new ≡ text.old ++ model.missing_mark told.now.lines.now told.now.job.now mark channel end.now }
{
    say_only(text, channel);
    say_raising(text, mark);
    say_stop(text, told, end);
}

/// Says a mark that does not stand.
#[tactic(auto, unfolding(crate::specs::Waits::mark_text))]
fn say_mark(text: &mut Text, told: &Told, channel: ChannelId, mark: u8, end: &Option<ChannelEnd>)
    ensures { text.new ≡ text.old ++ model.mark_text told.now.lines.now told.now.job.now mark channel end.now }
{
    say_mark_name(text, channel, mark);
    say_missing_mark(text, told, channel, mark, end);
}

/// Says the end of another channel's program, and what that channel does.
#[tactic(auto, unfolding(crate::specs::Waits::end_text))]
fn say_program_end(text: &mut Text, told: &Told, channel: ChannelId, end: &Option<ChannelEnd>)
    ensures { text.new ≡ text.old ++ model.end_text told.now.lines.now told.now.job.now channel end.now }
{
    text.say("  for the end of the program of ");
    say_channel(text, channel);
    text.say(", which ");
    say_stop(text, told, end);
}

/// Says that one channel alone can let an axis go.
#[tactic(auto, unfolding(crate::specs::Waits::letting_go_text))]
fn say_letting_go(text: &mut Text, owner: ChannelId)
    ensures { text.new ≡ text.old ++ model.letting_go_text owner }
{
    text.say(" owns");
    say_only(text, owner);
    text.say(" can let it go, by RELEASE, and it ");
}

/// Says of an axis that another channel owns that this one could let it go, and what it does.
#[tactic(auto, unfolding(crate::specs::Waits::owned_axis))]
fn say_owned_axis(text: &mut Text, told: &Told, owner: ChannelId, end: &Option<ChannelEnd>)
    ensures { text.new ≡ text.old ++ model.owned_axis told.now.lines.now told.now.job.now owner end.now }
{
    text.say(", which ");
    say_channel(text, owner);
    say_letting_go(text, owner);
    say_stop(text, told, end);
}

/// Says an axis that another channel owns.
#[tactic(auto, unfolding(crate::specs::Waits::axis_wait_text))]
fn say_asked_axis(
    text: &mut Text,
    told: &Told,
    axis: AxisId,
    owner: ChannelId,
    end: &Option<ChannelEnd>,
)
    ensures { text.new ≡ text.old ++ model.axis_wait_text told.now.lines.now told.now.job.now axis owner end.now }
{
    text.say("  for the axis ");
    say_axis(text, told.job, axis);
    say_owned_axis(text, told, owner, end);
}

/// Says something that a channel lacks, and who could give it.
#[tactic(auto, unfolding(crate::specs::Waits::lacking_text))]
fn say_lacking(text: &mut Text, told: &Told, lack: &Lack)
    ensures { text.new ≡ text.old ++ model.lacking_text told.now.lines.now told.now.job.now told.now.run.now lack.now }
{
    match lack {
        Lack::Mark(mark, channel) => {
            say_mark(text, told, *channel, *mark, &end_of(told, *channel));
        }
        Lack::End(channel) => say_program_end(text, told, *channel, &end_of(told, *channel)),
        Lack::OwnEnd => text.say("  for the end of its own program: so it waits for itself\n"),
        Lack::Axis(axis, owner) => {
            say_asked_axis(text, told, *axis, *owner, &end_of(told, *owner));
        }
    }
}

/// Says something that a channel lacks, who could give it, and what to do.
#[tactic(auto, unfolding(crate::specs::Waits::lack_text))]
fn say_lack(text: &mut Text, told: &Told, lack: &Lack)
    ensures { text.new ≡ text.old ++ model.lack_text told.now.lines.now told.now.job.now told.now.run.now lack.now }
{
    say_lacking(text, told, lack);
    say_advice(text, remedy_of(told, lack).advice());
}

/// Says it where something is lacking.
#[tactic(auto, unfolding(crate::specs::Waits::some_lack_text))]
pub(crate) fn say_some_lack(text: &mut Text, told: &Told, lack: &Option<Lack>)
    ensures { text.new ≡ text.old ++ model.some_lack_text told.now.lines.now
        told.now.job.now told.now.run.now lack.now }
{
    if let Some(lack) = lack {
        say_lack(text, told, lack);
    }
}
