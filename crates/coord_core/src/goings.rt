//! Who goes on after the action of a step: three rules, one after another.
ghost use Rattle.std.specs.Prelude.{◌≡◌, ℕ, ◌+◌, ◌≤◌, ◌<◌, ◌==◌, ◌&&◌, ◌++◌, [], ◌∷◌, false, true, not, map, if◌then◌else◌, length, Some};
ghost use Rattle.axis_sets.specs.Sets.{has};
ghost use Rattle.axis_exchange.specs.Owners.{may_take_all_from};
ghost use Rattle.mark_board.specs.Marks.{has_mark};
ghost use Rattle.sync_types.specs.Boards.{among, has_ended, no_positions, grant_with, stands};
ghost use Rattle.sync_types.specs.GoingOn.{go_of, goes_at_once, goers_at_once, going_at_once, lowers, after_goes, can_take, next_taker, going_of_taker, after_taking, all_takings};
ghost use Rattle.coord_core.specs.Tables.{activity_at, board_in, state_in, HasPassing, IsTable};
ghost use Rattle.coord_core.specs.declared.activities.Activity.TheVariants.{Running};

use crate::activities::{
    Activities, Activity, activity_of, has_ended, running, set_activity, stands,
};
use crate::sets::{all_axes, is_within, place_of};
use crate::state::{Goes, State};
use crate::table::Table;
use crate::zones::hand_over;
use axis_exchange::Owners;
use axis_sets::{
    AXIS_LIMIT, AxisSet, CHANNEL_LIMIT, CHANNEL_PLACES, ChannelId, ChannelSet, MarkSet, Positions,
};
use mark_board::Marks;
use sync_types::Go;

// The channels that are at the ends of their programs.
fn channels_ended(channels: &Activities) -> ChannelSet
    ensures { HasPassing result (λ c. has_ended (state_in c (activity_at channels.now c))) }
{
    let mut ended = ChannelSet::empty();
    for number in 1..CHANNEL_PLACES {
        let channel = ChannelId {
            number: number as u8,
        };
        if has_ended(channel, activity_of(channels, channel)) {
            ended = ended.with(channel);
        }
    }
    ended
}

// Whether a channel goes on that waits for marks which all stand, or for channels which all have ended.
fn goes_at_once(table: &Table, channels: &Activities, channel: ChannelId, ended: ChannelSet) -> bool
    requires ended { HasPassing ended (λ c. has_ended (state_in c (activity_at channels.now c))) }
    ensures { result ≡ goes_at_once (board_in table.now channels.now)
        (state_in channel (activity_at channels.now channel)) }
{
    match activity_of(channels, channel) {
        Activity::AtMark(mark, named, _) => table
            .marks
            .goers(&[(channel, *mark, *named)])
            .contains(channel),
        Activity::AtEnds(named, _) => is_within(*named, ended),
        _ => false,
    }
}

// The channels that go on at once.
fn channels_that_go(table: &Table, channels: &Activities) -> ChannelSet
    ensures { HasPassing result (λ c. goes_at_once (board_in table.now channels.now)
        (state_in c (activity_at channels.now c))) }
{
    let ended = channels_ended(channels);
    let mut goers = ChannelSet::empty();
    for number in 1..CHANNEL_PLACES {
        let channel = ChannelId {
            number: number as u8,
        };
        if goes_at_once(table, channels, channel, ended) {
            goers = goers.with(channel);
        }
    }
    goers
}

// The own mark of a channel that goes on at WAITM is lowered.
fn lower_own_mark(marks: &mut Marks, channel: ChannelId, activity: &Activity)
    ensures { (c m : ℕ) → has_mark marks.new c m
        ≡ (if c == channel then has_mark marks.old c m && not (lowers (state_in channel activity.now) m)
        else has_mark marks.old c m) }
{
    if let Activity::AtMark(mark, _, _) = activity {
        if marks.stands(channel, *mark) {
            marks.clear(channel, MarkSet::empty().with(*mark));
        }
    }
}

// The own marks of those that go on at WAITM are lowered.
fn lower_own_marks(marks: &mut Marks, channels: &Activities, goers: ChannelSet)
    requires none { has goers 0 ≡ false }
    requires size { length goers ≡ CHANNEL_PLACES }
    ensures { (c m : ℕ) → has_mark marks.new c m
        ≡ (has_mark marks.old c m && not (has goers c && lowers (state_in c (activity_at channels.now c)) m)) }
{
    for number in 1..CHANNEL_PLACES {
        let channel = ChannelId {
            number: number as u8,
        };
        if goers.contains(channel) {
            lower_own_mark(marks, channel, activity_of(channels, channel));
        }
    }
}

// These channels run on.
fn run_on(table: &Table, channels: &mut Activities, goers: ChannelSet, goes: &mut Goes)
    requires kept { IsTable table.now }
    requires goers { HasPassing goers (λ c. goes_at_once (board_in table.now channels.old)
        (state_in c (activity_at channels.old c))) }
    requires room { length goes.old.items + length (goers_at_once (board_in table.now channels.old)) ≤ CHANNEL_LIMIT }
    ensures channels { (c : ℕ) → activity_at channels.new c
        ≡ (if has goers c then Running (grant_with (board_in table.now channels.old) c no_positions)
        else activity_at channels.old c) }
    ensures goes { goes.new.items ≡ goes.old.items
        ++ map go_of (map (going_at_once (board_in table.now channels.old))
        (goers_at_once (board_in table.now channels.old))) }
{
    for number in 1..CHANNEL_PLACES {
        let channel = ChannelId {
            number: number as u8,
        };
        if goers.contains(channel) {
            let grant = table.grant_with(channel, Positions::empty());
            set_activity(channels, channel, running(&grant));
            goes.push(Go { channel, grant });
        }
    }
}

// The channels from which axes may be taken: those that stand, where that is asked for, else none.
fn channels_standing(channels: &Activities, from_standing: bool) -> ChannelSet
    ensures { HasPassing result (λ c. from_standing && stands (state_in c (activity_at channels.now c))) }
{
    let mut standing = ChannelSet::empty();
    for number in 1..CHANNEL_PLACES {
        let channel = ChannelId {
            number: number as u8,
        };
        if from_standing && stands(channel, activity_of(channels, channel)) {
            standing = standing.with(channel);
        }
    }
    standing
}

// Whether the channel may take all these axes, also from these channels.
fn wants(owners: &Owners, channel: ChannelId, axes: AxisSet, standing: ChannelSet) -> bool
    ensures may { result ≡ may_take_all_from owners.now channel axes standing }
    ensures size { length axes ≡ AXIS_LIMIT }
{
    owners.want_from(channel, axes, standing)
}

impl State {
    // All channels go on whose marks stand or whose channels have ended, and their own marks are lowered.
    pub(crate) fn let_go(&mut self, goes: &mut Goes)
        requires kept { IsTable self.old.table }
        requires room { length goes.old.items + length
            (goers_at_once (board_in self.old.table self.old.channels)) ≤ CHANNEL_LIMIT }
        ensures kept { IsTable self.new.table }
        ensures board { board_in self.new.table self.new.channels
            ≡ after_goes (board_in self.old.table self.old.channels) }
        ensures goes { goes.new.items ≡ goes.old.items
            ++ map go_of (map (going_at_once (board_in self.old.table self.old.channels))
            (goers_at_once (board_in self.old.table self.old.channels))) }
    {
        let goers = channels_that_go(&self.table, &self.channels);
        let marks_before = self.table.marks;
        let mut marks = marks_before;
        lower_own_marks(&mut marks, &self.channels, goers);
        run_on(&self.table, &mut self.channels, goers, goes);
        self.table.marks = marks;
    }

    // Whether the channel waits for axes that it can take, all of them.
    fn can_take(&self, channel: ChannelId) -> bool
        requires kept { IsTable self.now.table }
        ensures { result ≡ can_take (board_in self.now.table self.now.channels) channel }
    {
        match activity_of(&self.channels, channel) {
            Activity::AtAxes(from_standing, axes, _) => {
                let standing = channels_standing(&self.channels, *from_standing);
                wants(&self.table.owners, channel, *axes, standing)
            }
            _ => false,
        }
    }

    // The lowest channel that can take the axes for which it waits.
    fn next_taker(&self) -> Option<ChannelId>
        requires kept { IsTable self.now.table }
        ensures { result ≡ next_taker (board_in self.now.table self.now.channels) }
    {
        for number in 1..CHANNEL_PLACES {
            let channel = ChannelId {
                number: number as u8,
            };
            if self.can_take(channel) {
                return Some(channel);
            }
        }
        None
    }

    // The channel takes the axes for which it waits, and goes on.
    fn take(&mut self, channel: ChannelId, goes: &mut Goes)
        requires kept { IsTable self.old.table }
        requires can_take { can_take (board_in self.old.table self.old.channels) channel ≡ true }
        requires room { length goes.old.items < CHANNEL_LIMIT }
        ensures kept { IsTable self.new.table }
        ensures board { board_in self.new.table self.new.channels
            ≡ after_taking (board_in self.old.table self.old.channels) channel }
        ensures goes { goes.new.items ≡ goes.old.items
            ++ go_of (going_of_taker (board_in self.old.table self.old.channels) channel) ∷ [] }
    {
        let Activity::AtAxes(_, axes, _) = *activity_of(&self.channels, channel) else {
            unreachable!()
        };
        let axes = all_axes(axes);
        let taken = axes.minus(self.table.owners.owned_by(channel));
        let resting = self.table.resting_positions(taken);
        let at = self.table.owners.take_from(channel, axes, &resting);
        // For the prover: no channel has a number of 0, or one from CHANNEL_PLACES on.
        let _place = place_of(channel);
        hand_over(&mut self.table.zones, taken, &Some(channel));
        let grant = self.table.grant_with(channel, at);
        set_activity(&mut self.channels, channel, running(&grant));
        goes.push(Go { channel, grant });
    }

    // Each time the lowest channel that can takes the axes for which it waits, until none can.
    pub(crate) fn hand_out_axes(&mut self, goes: &mut Goes)
        requires kept { IsTable self.old.table }
        requires room { length goes.old.items + length
            (all_takings (board_in self.old.table self.old.channels)).goings ≤ CHANNEL_LIMIT }
        ensures kept { IsTable self.new.table }
        ensures board { board_in self.new.table self.new.channels
            ≡ (all_takings (board_in self.old.table self.old.channels)).board }
        ensures goes { goes.new.items ≡ goes.old.items
            ++ map go_of (all_takings (board_in self.old.table self.old.channels)).goings }
    {
        for _turn in 0..CHANNEL_LIMIT {
            match self.next_taker() {
                Some(channel) => self.take(channel, goes),
                None => return,
            }
        }
    }
}
