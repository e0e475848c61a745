//! Marks, axes, programs and zones, and what a channel goes on with by them.
ghost use Rattle.std.specs.Prelude.{◌≡◌, ℕ, ℤ, ◌<◌, ◌==◌, List, find, pos, length, None, Some, if◌then◌else◌, slice_index_or};
ghost use Rattle.std.specs.Option.{option_map_or};
ghost use Rattle.axis_sets.specs.Positions.{position_of};
ghost use Rattle.axis_sets.specs.Sets.{has};
ghost use Rattle.axis_exchange.specs.Owners.{axis_state};
ghost use Rattle.sync_types.specs.Boards.{grant_with, start_grant};
ghost use Rattle.sync_types.specs.Starts.{first_position};
ghost use Rattle.sync_types.specs.BoardActions.{position_or_zero};
ghost use Rattle.coord_core.specs.Tables.{board_in, last_position_in, resting_in, IsTable};
ghost use Rattle.coord_core.specs.declared.activities.Activity.{Activity};

use crate::zones::{Zones, zones_on};
use axis_exchange::{AxisState, Owners};
use axis_sets::{AXIS_LIMIT, AxisId, AxisSet, CHANNEL_PLACES, ChannelId, Positions};
use mark_board::Marks;
use micro_units::Um;
use sync_types::{Grant, StartState};

/// A line of a start state that has an axis, its owner, and where it stands.
pub(crate) type AxisLine = (AxisId, Option<ChannelId>, Um);

/// For each channel where the axes stood that it owned after its last step, or none where it has made none; the
/// place 0 is of no channel.
pub(crate) type LastPositions = [Option<Positions>; CHANNEL_PLACES];

/// All but what the channels do.
#[derive(Drop)]
pub(crate) struct Table {
    pub(crate) start: StartState,
    pub(crate) marks: Marks,
    pub(crate) owners: Owners,
    // For each channel its selected program; the place 0 is of none.
    pub(crate) programs: [Option<u16>; CHANNEL_PLACES],
    pub(crate) last_positions: LastPositions,
    pub(crate) zones: Zones,
}

// Where an axis stands at the start.
pub(crate) fn first_position(lines: &[AxisLine], axis: AxisId) -> Um
    ensures { result ≡ option_map_or (λ line. line.2) (find (λ line. line.0 == axis) lines.now) (pos 0) }
{
    for line in lines {
        if line.0 == axis {
            return line.2;
        }
    }
    Um { micrometres: 0 }
}

// The position of an axis that a step may leave out.
pub(crate) fn position_or_zero(position: Option<Um>) -> Um
    ensures { result ≡ position_or_zero position }
{
    match position {
        Some(position) => position,
        None => Um { micrometres: 0 },
    }
}

// A step of a channel says where its axes stand.
pub(crate) fn note_positions(rows: &mut LastPositions, channel: ChannelId, at: &Positions)
    ensures { (c : ℕ) → slice_index_or rows.new c None
        ≡ (if c == channel then Some at.now else slice_index_or rows.old c None) }
{
    rows[usize::from(channel.number)] = Some(*at);
}

// Where these axes stand at the start.
fn first_positions(lines: &[AxisLine], axes: AxisSet) -> Positions
    ensures positions { (x : ℕ) → position_of result x
        ≡ (if has axes x then Some (option_map_or (λ line. line.2) (find (λ line. line.0 == x) lines.now) (pos 0))
        else None) }
    ensures size { length result ≡ AXIS_LIMIT }
{
    let mut positions = Positions::empty();
    for index in 0..AXIS_LIMIT {
        let axis = AxisId { index: index as u8 };
        if axes.contains(axis) {
            positions.set(axis, first_position(lines, axis));
        }
    }
    positions
}

// The same of the axes of a start state.
fn positions_at_first(start: &StartState, axes: AxisSet) -> Positions
    ensures positions { (x : ℕ) → position_of result x
        ≡ (if has axes x then Some (first_position start.now x) else None) }
    ensures size { length result ≡ AXIS_LIMIT }
{
    first_positions(start.axes.as_slice(), axes)
}

// Where an axis stands at the start.
fn position_at_first(start: &StartState, axis: AxisId) -> Um
    ensures { result ≡ first_position start.now axis }
{
    first_position(start.axes.as_slice(), axis)
}

// Where the axes of a channel stood after its last step.
fn last_positions_of(rows: &LastPositions, channel: ChannelId) -> &Option<Positions>
    ensures { result.now ≡ slice_index_or rows.now channel None }
{
    &rows[usize::from(channel.number)]
}

impl Table {
    // Where an axis of a channel stood after the channel's last step, or at the start.
    fn last_position(&self, channel: ChannelId, axis: AxisId) -> Um
        ensures { result ≡ last_position_in self.now.start (slice_index_or self.now.last_positions channel None) axis }
    {
        match last_positions_of(&self.last_positions, channel) {
            Some(at) => position_or_zero(at.get(axis)),
            None => position_at_first(&self.start, axis),
        }
    }

    // Where an axis stands that is free or whose owner stands.
    fn resting_position(&self, axis: AxisId) -> Um
        ensures { result ≡ resting_in self.now axis }
    {
        let state = self.owners.state(axis);
        match &state {
            Some(AxisState::Owned(owner)) => self.last_position(*owner, axis),
            Some(AxisState::Free(at)) => *at,
            None => Um { micrometres: 0 },
        }
    }

    // Where these axes stand, each of which is free or its owner stands.
    pub(crate) fn resting_positions(&self, axes: AxisSet) -> Positions
        ensures positions { (x : ℕ) → position_of result x
            ≡ (if has axes x then Some (resting_in self.now x) else None) }
        ensures size { length result ≡ AXIS_LIMIT }
    {
        let mut positions = Positions::empty();
        for index in 0..AXIS_LIMIT {
            let axis = AxisId { index: index as u8 };
            if axes.contains(axis) {
                positions.set(axis, self.resting_position(axis));
            }
        }
        positions
    }

    // What a channel goes on with that has got axes at these positions.
    pub(crate) fn grant_with(&self, channel: ChannelId, at: Positions) -> Grant
        requires kept { IsTable self.now }
        ensures { (channels : List Activity) → result ≡ grant_with (board_in self.now channels) channel at }
    {
        Grant {
            axes: self.owners.owned_by(channel),
            at,
            on: zones_on(self.zones.as_slice(), channel),
            program: self.programs[usize::from(channel.number)],
        }
    }

    // What a channel goes on with that starts.
    pub(crate) fn start_grant(&self, channel: ChannelId) -> Grant
        requires kept { IsTable self.now }
        ensures { (channels : List Activity) → result ≡ start_grant (board_in self.now channels) channel }
    {
        let own = self.owners.owned_by(channel);
        self.grant_with(channel, positions_at_first(&self.start, own))
    }
}
