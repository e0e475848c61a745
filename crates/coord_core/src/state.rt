//! The state of a board, and a step on it.
ghost use Rattle.std.specs.Prelude.{◌≡◌, ℕ, ◌≤◌, ◌<◌, ◌==◌, ◌++◌, [], None, true, false, map, if◌then◌else◌, length, slice_index_or};
ghost use Rattle.axis_sets.specs.Sets.{has, members_of};
ghost use Rattle.sync_types.specs.BoardActions.{after_action, after_effects, after_own_part, channels_started, channels_to_start, state_of_actor};
ghost use Rattle.sync_types.specs.BoardAlarms.{alarm_of};
ghost use Rattle.sync_types.specs.Boards.{IsRunning, start_grant};
ghost use Rattle.sync_types.specs.GoingOn.{go_of, going_of_start};
ghost use Rattle.sync_types.specs.RunLaws.{StartsChannels};
ghost use Rattle.sync_types.specs.Runs.{is_over, lowest_running};
ghost use Rattle.sync_types.specs.Turns.{after_step, goings_in_step};
ghost use Rattle.coord_core.specs.Tables.{activity_at, board_in, state_in, IsTable};
ghost use Rattle.coord_core.specs.declared.activities.Activity.TheVariants.{Running};

use crate::activities::{Activities, Activity, activity_of, is_running, running, set_activity};
use crate::sets::known;
use crate::table::{Table, note_positions};
use crate::zones::note_on;
use arrayvec::ArrayVec;
use axis_sets::{CHANNEL_LIMIT, CHANNEL_PLACES, ChannelId, ChannelSet, Positions};
use fault_codes::Alarm;
use sync_types::{Action, Go, Step};

/// Who goes on in a step.
pub(crate) type Goes = ArrayVec<Go, CHANNEL_LIMIT>;

/// Marks, axes, programs and zones, and what each channel does.
#[derive(Drop)]
pub(crate) struct State {
    pub(crate) table: Table,
    pub(crate) channels: Activities,
}

// The channels that the action lets run.
fn channels_to_start(action: &Action) -> ChannelSet
    ensures members { members_of result ≡ channels_to_start action.now }
    ensures named { StartsChannels action.now }
    ensures none { has result 0 ≡ false }
    ensures size { length result ≡ CHANNEL_PLACES }
{
    match action {
        Action::Start(named) => known(*named),
        _ => ChannelSet::empty(),
    }
}

// These channels run, each from its start.
fn start_channels(table: &Table, channels: &mut Activities, named: ChannelSet, goes: &mut Goes)
    requires kept { IsTable table.now }
    requires empty { goes.old.items ≡ [] }
    requires none { has named 0 ≡ false }
    requires size { length named ≡ CHANNEL_PLACES }
    ensures channels { (c : ℕ) → activity_at channels.new c
        ≡ (if has named c then Running (start_grant (board_in table.now channels.old) c)
        else activity_at channels.old c) }
    ensures goes { goes.new.items ≡ map go_of
        (map (going_of_start (board_in table.now channels.old)) (members_of named)) }
{
    for number in 1..CHANNEL_PLACES {
        let channel = ChannelId {
            number: number as u8,
        };
        if named.contains(channel) {
            let grant = table.start_grant(channel);
            set_activity(channels, channel, running(&grant));
            goes.push(Go { channel, grant });
        }
    }
}

impl State {
    // What the acting channel does after its action.
    fn actor_after(&self, channel: ChannelId, step: &Step) -> Activity
        requires kept { IsTable self.now.table }
        ensures { state_in channel result ≡ state_of_actor (board_in self.now.table self.now.channels) channel
            step.now.line step.now.action }
    {
        match step.action {
            Action::WaitM(mark, named) => Activity::AtMark(mark, named, step.line),
            Action::WaitE(named) => Activity::AtEnds(named, step.line),
            Action::Get(axes) => Activity::AtAxes(false, axes, step.line),
            Action::End => Activity::Ended(step.line),
            _ => Activity::Running(self.table.grant_with(channel, Positions::empty())),
        }
    }

    // The action of a step that does not alarm.
    fn act(&mut self, channel: ChannelId, step: &Step, goes: &mut Goes)
        requires kept { IsTable self.old.table }
        requires no_alarm { alarm_of (board_in self.old.table self.old.channels) channel step.now.action ≡ None }
        requires empty { goes.old.items ≡ [] }
        ensures kept { IsTable self.new.table }
        ensures board { board_in self.new.table self.new.channels
            ≡ after_action (board_in self.old.table self.old.channels) channel step.now }
        ensures goes { goes.new.items ≡ map go_of
            (map (going_of_start (board_in self.new.table self.new.channels)) (channels_to_start step.now.action)) }
        ensures named { StartsChannels step.now.action }
    {
        self.apply(channel, step);
        let actor = self.actor_after(channel, step);
        let named = channels_to_start(&step.action);
        start_channels(&self.table, &mut self.channels, named, goes);
        set_activity(&mut self.channels, channel, actor);
    }

    // The channel's own part of its step: its alarm, or what its action changes.
    fn act_or_alarm(&mut self, channel: ChannelId, step: &Step, goes: &mut Goes)
        requires kept { IsTable self.old.table }
        requires empty { goes.old.items ≡ [] }
        ensures kept { IsTable self.new.table }
        ensures board { board_in self.new.table self.new.channels
            ≡ after_own_part (board_in self.old.table self.old.channels) channel step.now }
        ensures goes { goes.new.items ≡ map go_of
            (map (going_of_start (board_in self.new.table self.new.channels))
            (channels_started (alarm_of (board_in self.old.table self.old.channels) channel
            step.now.action) step.now.action)) }
        ensures named { StartsChannels step.now.action }
    {
        let alarm = self.alarm_of(channel, &step.action);
        match alarm {
            Some(code) => {
                let _named = channels_to_start(&step.action);
                note_on(&mut self.table.zones, channel, &step.on);
                note_positions(&mut self.table.last_positions, channel, &step.at);
                let alarm = Alarm {
                    code,
                    line: step.line,
                };
                set_activity(&mut self.channels, channel, Activity::Alarmed(alarm));
            }
            None => self.act(channel, step, goes),
        }
    }

    // The lowest channel that runs.
    pub(crate) fn lowest_running(&self) -> Option<ChannelId>
        ensures { result ≡ lowest_running (board_in self.now.table self.now.channels) }
    {
        for number in 1..CHANNEL_PLACES {
            let channel = ChannelId {
                number: number as u8,
            };
            if is_running(channel, activity_of(&self.channels, channel)) {
                return Some(channel);
            }
        }
        None
    }

    // Whether no channel runs.
    pub(crate) fn is_over(&self) -> bool
        ensures { result ≡ is_over (board_in self.now.table self.now.channels) }
    {
        self.lowest_running().is_none()
    }

    // One step of a channel, with all that goes on in it.
    pub(crate) fn step_on(&mut self, channel: ChannelId, step: &Step, goes: &mut Goes)
        requires kept { IsTable self.old.table }
        requires empty { goes.old.items ≡ [] }
        ensures kept { IsTable self.new.table }
        ensures board { board_in self.new.table self.new.channels
            ≡ after_step (board_in self.old.table self.old.channels) channel step.now }
        ensures goes { goes.new.items ≡ map go_of
            (goings_in_step (board_in self.old.table self.old.channels) channel step.now) }
    {
        self.act_or_alarm(channel, step, goes);
        self.let_go(goes);
        self.hand_out_axes(goes);
    }
}
