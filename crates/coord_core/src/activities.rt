//! What is kept of each channel.
ghost use Rattle.std.specs.Prelude.{◌≡◌, ℕ, ◌==◌, if◌then◌else◌};
ghost use Rattle.sync_types.specs.Boards.{is_idle, is_running, has_ended, stands, grant_in};
ghost use Rattle.coord_core.specs.Boards.{channel_state};
ghost use Rattle.coord_core.specs.Tables.{activity_at, state_in};
ghost use Rattle.coord_core.specs.declared.activities.Activity.TheVariants.{Running};

use crate::ChannelState;
use axis_sets::{AxisSet, CHANNEL_PLACES, ChannelId, ChannelSet};
use fault_codes::Alarm;
use sync_types::Grant;

/// What a channel does, with what it goes on with or for what it waits, and its line.
#[derive(Clone, Copy, PartialEq, Eq)]
pub(crate) enum Activity {
    /// It has not started.
    Idle,
    /// It goes on with this grant.
    Running(Grant),
    /// It waits for the mark of this number of these channels.
    AtMark(u8, ChannelSet, u32),
    /// It waits for the ends of these channels.
    AtEnds(ChannelSet, u32),
    /// It waits for these axes, where this is true also for those of channels that stand.
    AtAxes(bool, AxisSet, u32),
    /// Its program has ended.
    Ended(u32),
    /// An alarm has stopped it.
    Alarmed(Alarm),
}

/// What each channel does; the place 0 is of none.
pub(crate) type Activities = [Activity; CHANNEL_PLACES];

// What a channel does.
pub(crate) fn activity_of(channels: &Activities, channel: ChannelId) -> &Activity
    ensures { result.now ≡ activity_at channels.now channel }
{
    &channels[usize::from(channel.number)]
}

// From now on a channel does this.
pub(crate) fn set_activity(channels: &mut Activities, channel: ChannelId, activity: Activity)
    ensures { (c : ℕ) → activity_at channels.new c ≡ (if c == channel then activity else activity_at channels.old c) }
{
    channels[usize::from(channel.number)] = activity;
}

// A channel runs with this grant.
pub(crate) fn running(grant: &Grant) -> Activity
    ensures { result ≡ Running grant.now }
{
    Activity::Running(*grant)
}

// Whether a channel has not started.
pub(crate) fn is_idle(channel: ChannelId, activity: &Activity) -> bool
    ensures { result ≡ is_idle (state_in channel activity.now) }
{
    match activity {
        Activity::Idle => true,
        _ => false,
    }
}

// Whether a channel runs.
pub(crate) fn is_running(channel: ChannelId, activity: &Activity) -> bool
    ensures { result ≡ is_running (state_in channel activity.now) }
{
    match activity {
        Activity::Running(_) => true,
        _ => false,
    }
}

// Whether a channel is at the end of its program.
pub(crate) fn has_ended(channel: ChannelId, activity: &Activity) -> bool
    ensures { result ≡ has_ended (state_in channel activity.now) }
{
    match activity {
        Activity::Ended(_) => true,
        _ => false,
    }
}

// Whether a channel stands.
pub(crate) fn stands(channel: ChannelId, activity: &Activity) -> bool
    ensures { result ≡ stands (state_in channel activity.now) }
{
    match activity {
        Activity::Running(_) | Activity::Alarmed(_) => false,
        Activity::Idle => true,
        Activity::AtMark(_, _, _) => true,
        Activity::AtEnds(_, _) => true,
        Activity::AtAxes(_, _, _) => true,
        Activity::Ended(_) => true,
    }
}

// With what a channel goes on.
pub(crate) fn grant_in(channel: ChannelId, activity: &Activity) -> Option<Grant>
    ensures { result ≡ grant_in (state_in channel activity.now) }
{
    match activity {
        Activity::Running(grant) => Some(*grant),
        _ => None,
    }
}

// What is told of a channel.
pub(crate) fn channel_state(channel: ChannelId, activity: &Activity) -> ChannelState
    ensures { result ≡ channel_state (state_in channel activity.now) }
{
    match activity {
        Activity::Idle => ChannelState::Idle,
        Activity::Running(_) => ChannelState::Running,
        Activity::AtMark(_, _, line) | Activity::AtEnds(_, line) | Activity::AtAxes(_, _, line) =>
            ChannelState::Holding(*line),
        Activity::Ended(line) => ChannelState::Ended(*line),
        Activity::Alarmed(alarm) => ChannelState::Alarmed(*alarm),
    }
}
