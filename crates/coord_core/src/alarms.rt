//! The alarm of an action on the board, the first that fits.
ghost use Rattle.std.specs.Prelude.{◌≡◌, ℕ, List, Bool, ◌==◌, false, length};
ghost use Rattle.std.specs.List.{list_all, list_any};
ghost use Rattle.axis_sets.specs.Sets.{has, members_of};
ghost use Rattle.sync_types.specs.BoardAlarms.{alarm_of, names_no_mark, names_no_channel, names_no_axis, lets_go_of_others, is_whole, splits_a_zone, finds_own_mark, finds_one_awake, starts_without_program, own_alarm};
ghost use Rattle.sync_types.specs.Boards.{is_idle};
ghost use Rattle.std.specs.Prelude.{is_some, None, slice_index_or};
ghost use Rattle.coord_core.specs.Tables.{activity_at, board_in, state_in, HasPassing};
ghost use Rattle.coord_core.specs.declared.activities.Activity.{Activity};

use crate::activities::{Activities, activity_of, is_idle};
use crate::sets::{are_within, has_none, is_within};
use crate::state::State;
use crate::table::{AxisLine, Table};
use axis_sets::{AXIS_LIMIT, AxisSet, CHANNEL_PLACES, ChannelId, ChannelSet, MARK_LIMIT, ZoneId};
use fault_codes::alarms::*;
use sync_types::Action;

/// A line of a start state that has a channel, its program, and whether it runs.
pub(crate) type ChannelLine = (ChannelId, Option<u16>, bool);

/// A line of a start state that has a zone, the axes that carry it, its holder, and whether it is on.
pub(crate) type ZoneLine = (ZoneId, AxisSet, Option<ChannelId>, bool);

// The channels of the job.
pub(crate) fn channels_of(lines: &[ChannelLine]) -> ChannelSet
    ensures members { (c : ℕ) → has result c ≡ list_any (λ line. line.0 == c) lines.now }
    ensures none { has result 0 ≡ false }
    ensures size { length result ≡ CHANNEL_PLACES }
{
    let mut channels = ChannelSet::empty();
    for (channel, _, _) in lines {
        channels = channels.with(*channel);
    }
    channels
}

// Whether all these channels are of the job.
fn are_of_job(named: ChannelSet, lines: &[ChannelLine]) -> bool
    ensures { result ≡ list_all (λ c. list_any (λ line. line.0 == c) lines.now) (members_of named) }
{
    is_within(named, channels_of(lines))
}

// The axes of the job.
pub(crate) fn axes_of(lines: &[AxisLine]) -> AxisSet
    ensures members { (x : ℕ) → has result x ≡ list_any (λ line. line.0 == x) lines.now }
    ensures size { length result ≡ AXIS_LIMIT }
{
    let mut axes = AxisSet::empty();
    for (axis, _, _) in lines {
        axes = axes.with(*axis);
    }
    axes
}

// The channels that have not started.
fn channels_idle(channels: &Activities) -> ChannelSet
    ensures { HasPassing result (λ c. is_idle (state_in c (activity_at channels.now c))) }
{
    let mut idle = ChannelSet::empty();
    for number in 1..CHANNEL_PLACES {
        let channel = ChannelId {
            number: number as u8,
        };
        if is_idle(channel, activity_of(channels, channel)) {
            idle = idle.with(channel);
        }
    }
    idle
}

// The channels that have a program.
fn channels_with_program(programs: &[Option<u16>; CHANNEL_PLACES]) -> ChannelSet
    ensures { HasPassing result (λ c. is_some (slice_index_or programs.now c None)) }
{
    let mut found = ChannelSet::empty();
    for number in 1..CHANNEL_PLACES {
        let channel = ChannelId {
            number: number as u8,
        };
        if programs[number].is_some() {
            found = found.with(channel);
        }
    }
    found
}

// Whether the action has the number of a mark that there is not.
fn names_no_mark(action: &Action) -> bool
    ensures { result ≡ names_no_mark action.now }
{
    match action {
        Action::WaitM(mark, _) => usize::from(*mark) >= MARK_LIMIT,
        _ => false,
    }
}

// Whether all axes of a zone are named, or none.
fn is_whole(axes: AxisSet, zone: AxisSet) -> bool
    ensures { result ≡ is_whole axes zone }
{
    are_within(zone, axes) || has_none(axes, zone)
}

// Whether of each zone all axes are named, or none.
fn are_whole(axes: AxisSet, lines: &[ZoneLine]) -> bool
    ensures { result ≡ list_all (λ line. is_whole axes line.1) lines.now }
{
    for (_, zone, _, _) in lines {
        if !is_whole(axes, *zone) {
            return false;
        }
    }
    true
}

// An alarm that the channel has found itself.
fn own_alarm(action: &Action) -> Option<u16>
    ensures { result ≡ own_alarm action.now }
{
    match action {
        Action::Alarm(code) => Some(*code),
        _ => None,
    }
}

impl Table {
    // Whether the action names a channel that the job has not.
    fn names_no_channel(&self, action: &Action) -> bool
        ensures { (channels : List Activity) → result ≡ names_no_channel (board_in self.now channels) action.now }
    {
        let lines = self.start.channels.as_slice();
        match action {
            Action::WaitM(_, named) => !are_of_job(*named, lines),
            Action::Start(named) => !are_of_job(*named, lines),
            Action::WaitE(named) => !are_of_job(*named, lines),
            Action::Init(channel, _) => !channels_of(lines).contains(*channel),
            _ => false,
        }
    }

    // Whether the action names an axis that the job has not.
    fn names_no_axis(&self, action: &Action) -> bool
        ensures { (channels : List Activity) → result ≡ names_no_axis (board_in self.now channels) action.now }
    {
        match action {
            Action::Release(axes) | Action::Get(axes) => {
                !are_within(*axes, axes_of(self.start.axes.as_slice()))
            }
            _ => false,
        }
    }

    // Whether the channel lets an axis go that it does not own.
    fn lets_go_of_others(&self, channel: ChannelId, action: &Action) -> bool
        ensures { (channels : List Activity) → result
            ≡ lets_go_of_others (board_in self.now channels) channel action.now }
    {
        match action {
            Action::Release(axes) => !are_within(*axes, self.owners.owned_by(channel)),
            _ => false,
        }
    }

    // Whether the action names some axes of a zone and not all.
    fn splits_a_zone(&self, action: &Action) -> bool
        ensures { (channels : List Activity) → result ≡ splits_a_zone (board_in self.now channels) action.now }
    {
        match action {
            Action::Release(axes) | Action::Get(axes) => {
                !are_whole(*axes, self.start.zones.as_slice())
            }
            _ => false,
        }
    }

    // Whether the own mark of a WAITM stands already.
    fn finds_own_mark(&self, channel: ChannelId, action: &Action) -> bool
        ensures { (channels : List Activity) → result ≡ finds_own_mark (board_in self.now channels) channel action.now }
    {
        match action {
            Action::WaitM(mark, _) => self.marks.stands(channel, *mark),
            _ => false,
        }
    }

    // Whether START names a channel that has no program.
    fn starts_without_program(&self, action: &Action) -> bool
        ensures { (channels : List Activity) → result ≡ starts_without_program (board_in self.now channels) action.now }
    {
        match action {
            Action::Start(named) => !is_within(*named, channels_with_program(&self.programs)),
            _ => false,
        }
    }
}

impl State {
    // Whether INIT or START names a channel that is not idle.
    fn finds_one_awake(&self, action: &Action) -> bool
        ensures { result ≡ finds_one_awake (board_in self.now.table self.now.channels) action.now }
    {
        match action {
            Action::Init(target, _) => { !is_idle(*target, activity_of(&self.channels, *target)) }
            Action::Start(named) => !is_within(*named, channels_idle(&self.channels)),
            _ => false,
        }
    }

    // The first alarm of an action of the channel.
    pub(crate) fn alarm_of(&self, channel: ChannelId, action: &Action) -> Option<u16>
        ensures { result ≡ alarm_of (board_in self.now.table self.now.channels) channel action.now }
    {
        if names_no_mark(action) {
            Some(NO_SUCH_MARK)
        } else if self.table.names_no_channel(action) {
            Some(NO_SUCH_CHANNEL)
        } else if self.table.names_no_axis(action) {
            Some(NO_SUCH_AXIS)
        } else if self.table.lets_go_of_others(channel, action) {
            Some(AXIS_NOT_OWNED)
        } else if self.table.splits_a_zone(action) {
            Some(ZONE_SPLIT)
        } else if self.table.finds_own_mark(channel, action) {
            Some(OWN_MARK_STANDS)
        } else if self.finds_one_awake(action) {
            Some(CHANNEL_NOT_IDLE)
        } else if self.table.starts_without_program(action) {
            Some(NO_PROGRAM_SELECTED)
        } else {
            own_alarm(action)
        }
    }
}
