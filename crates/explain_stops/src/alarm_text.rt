//! The verdict ALARM, said.
ghost use Rattle.std.specs.Prelude.{◌≡◌, ◌++◌, ◌<◌, ◌^◌, length};
ghost use Rattle.std.specs.List.{flat_map};
ghost use Rattle.explain_stops.specs.Alarms as model;
ghost use Rattle.explain_stops.specs.Stuck.{last_board};
ghost use Rattle.sync_types.specs.Boards.{channel_numbers};
ghost use Rattle.sync_types.specs.Runs.{ComesFrom};

use crate::ends::end_of;
use crate::numbers::all_channels;
use crate::remedies::say_advice;
use crate::stuck_text::say_waits;
use axis_sets::ChannelId;
use explain_advice::{alarm_advice, alarm_cause, alarm_name};
use explain_places::{Told, say_block, say_channel, say_channel_first};
use fault_codes::Alarm;
use growing_text::Text;
use sync_types::{ChannelEnd, StartState};

/// Says which alarm stops a channel.
#[tactic(auto, unfolding(crate::specs::Alarms::name_text))]
fn say_name(text: &mut Text, channel: ChannelId, code: u16)
    ensures { text.new ≡ text.old ++ model.name_text channel code }
{
    say_channel_first(text, channel);
    text.say(" is stopped by alarm ");
    text.number(u64::from(code));
    text.say(", ");
    text.say(alarm_name(code));
}

/// Says in which block it comes.
#[tactic(auto, unfolding(crate::specs::Alarms::place_text))]
fn say_place(text: &mut Text, told: &Told, line: u32)
    ensures { text.new ≡ text.old ++ model.place_text told.now.lines.now told.now.job.now line }
{
    text.say(", in ");
    say_block(text, told, line);
    text.say("\n");
}

/// Says when it comes.
#[tactic(auto, unfolding(crate::specs::Alarms::cause_text))]
fn say_cause(text: &mut Text, code: u16)
    ensures { text.new ≡ text.old ++ model.cause_text code }
{
    text.say("  ");
    text.say(alarm_cause(code));
    text.say("\n");
}

/// Says what to do, where that is not in its cause.
#[tactic(auto, unfolding(crate::specs::Alarms::to_do_text))]
fn say_to_do(text: &mut Text, advice: &str)
    ensures { text.new ≡ text.old ++ model.to_do_text advice.now }
{
    if !advice.is_empty() {
        say_advice(text, advice);
    }
}

/// Says an alarm: its block, what it means and what to do.
#[tactic(auto, unfolding(crate::specs::Alarms::one_text))]
fn say_one(text: &mut Text, told: &Told, channel: ChannelId, alarm: &Alarm)
    ensures { text.new ≡ text.old ++ model.one_text told.now.lines.now told.now.job.now channel alarm.now }
{
    say_name(text, channel, alarm.code);
    say_place(text, told, alarm.line);
    say_cause(text, alarm.code);
    say_to_do(text, alarm_advice(alarm.code));
}

/// Says how a channel has stopped, where an alarm stops it.
#[tactic(auto, unfolding(crate::specs::Alarms::end_text))]
fn say_end(text: &mut Text, told: &Told, channel: ChannelId, end: &Option<ChannelEnd>)
    ensures { text.new ≡ text.old ++ model.end_text told.now.lines.now told.now.job.now channel end.now }
{
    if let Some(ChannelEnd::Alarmed(alarm)) = end {
        say_one(text, told, channel, alarm);
    }
}

/// Says the alarm of a channel; nothing where it has none.
#[tactic(auto, unfolding(crate::specs::Alarms::channel_text))]
fn say_channel_alarm(text: &mut Text, told: &Told, channel: ChannelId)
    ensures { text.new ≡ text.old ++ model.channel_text told.now.lines.now told.now.job.now told.now.run.now channel }
{
    say_end(text, told, channel, &end_of(told, channel));
}

/// Says all alarms.
fn say_alarms(text: &mut Text, told: &Told)
    ensures { text.new ≡ text.old ++ flat_map
        (model.channel_text told.now.lines.now told.now.job.now told.now.run.now) channel_numbers }
{
    let all = all_channels();
    for channel in &all {
        say_channel_alarm(text, told, *channel);
    }
}

/// Says the verdict ALARM, which names this channel: each channel that an alarm stops, where, what it means and what to do; and
/// who waits for good. The start and the run are those of the job.
#[tactic(auto, unfolding(crate::specs::Alarms::alarm_text))]
pub fn say_alarm(text: &mut Text, told: &Told, start: &StartState, channel: ChannelId)
    requires few { length told.now.run.now.entries < 2 ^ 32 }
    requires whole { ComesFrom start.now told.now.run.now }
    ensures { text.new ≡ text.old ++ model.alarm_text told.now.lines.now told.now.job.now told.now.run.now
        (last_board start.now told.now.run.now) channel }
{
    text.say("ALARM: the control would stop ");
    say_channel(text, channel);
    text.say(", and so no boxes are compared.\n");
    say_alarms(text, told);
    say_waits(text, told, start);
}
