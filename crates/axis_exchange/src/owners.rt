//! The owners of axes.
ghost use Rattle.std.specs.Prelude.{◌≡◌, ℕ, true, None, Some, IsSome, if◌then◌else◌, length};
ghost use Rattle.axis_sets.specs.Positions.{position_of};
ghost use Rattle.axis_sets.specs.Sets.{has};
ghost use Rattle.axis_exchange.specs.Owners.{axis_state, first_state, free_at, is_free_among, is_known, is_owned_by, may_take_all, may_take_all_from, may_take_from, position_if_free, position_when_taken, state_with};
ghost use Rattle.axis_exchange.specs.declared.AxisState.TheVariants.{Owned};

use crate::AxisState;
use axis_sets::{AXIS_LIMIT, AxisId, AxisSet, ChannelId, ChannelSet, Positions};
use micro_units::Um;
use std::marker::Model;

/// Who has each axis of a job. A contract sees for each axis by its number its state, or none where the job
/// has no such axis; no channel gets that.
#[derive(Clone, Copy, PartialEq, Eq)]
pub struct Owners {
    states: [Option<AxisState>; AXIS_LIMIT],
}

impl Model for Owners {
    ghost use Rattle.std.specs.Prelude.{List, Option};
    ghost use Rattle.axis_exchange.specs.declared.AxisState.{AxisState};

    ghost Value = { List (Option AxisState) };

    ghost view = { λ o. o.states };

    ghost inverse = { λ owners. record { states = owners } };
}

impl Default for Owners {
    ghost use Rattle.std.specs.Prelude.{◌≡◌, ℕ, None};
    ghost use Rattle.axis_exchange.specs.Owners.{axis_state};

    ghost is_default = { λ owners. (x : ℕ) → axis_state owners x ≡ None };

    fn default() -> Owners {
        Owners::new(&[])
    }
}

impl Owners {
    /// The axes of a job: each with the channel that owns it, or where it is free with none, and where it
    /// stands. Where an axis stands more than once its first line counts.
    pub fn new(axes: &[(AxisId, Option<ChannelId>, Um)]) -> Owners
        ensures states { (x : ℕ) → axis_state result x ≡ first_state axes.now x }
    {
        let mut states = [None; AXIS_LIMIT];
        for (axis, owner, at) in axes {
            let place = usize::from(axis.index);
            if states[place].is_none() {
                states[place] = Some(state_with(*owner, *at));
            }
        }
        Owners { states }
    }

    /// Who has an axis, or `None` where the job has no such axis.
    pub fn state(&self, axis: AxisId) -> Option<AxisState>
        ensures state { result ≡ axis_state self.now axis }
        ensures size { length self.now ≡ AXIS_LIMIT }
    {
        self.states[usize::from(axis.index)]
    }

    /// The axes that a channel owns.
    pub fn owned_by(&self, channel: ChannelId) -> AxisSet
        ensures members { (x : ℕ) → has result x ≡ is_owned_by (axis_state self.now x) channel }
        ensures size { length result ≡ AXIS_LIMIT }
    {
        let mut owned = AxisSet::empty();
        for index in 0..AXIS_LIMIT {
            let axis = AxisId { index: index as u8 };
            if is_owned_by(&self.state(axis), channel) {
                owned = owned.with(axis);
            }
        }
        owned
    }

    /// The channel lets these axes of its own go: each is free where it stands.
    pub fn release(&mut self, channel: ChannelId, axes: AxisSet, at: &Positions)
        requires own { (x : ℕ) → has axes x ≡ true → is_owned_by (axis_state self.old x) channel ≡ true }
        requires positions { (x : ℕ) → has axes x ≡ true → IsSome (position_of at.now x) }
        ensures states { (x : ℕ) → axis_state self.new x
            ≡ (if has axes x then free_at (position_of at.now x) else axis_state self.old x) }
    {
        for index in 0..AXIS_LIMIT {
            let axis = AxisId { index: index as u8 };
            if axes.contains(axis) {
                self.states[index] = at.get(axis).map(AxisState::Free);
            }
        }
    }

    /// Whether the channel may take these axes: each is free or its own. An axis that the job has not is
    /// neither.
    pub fn want(&self, channel: ChannelId, axes: AxisSet) -> bool
        ensures { result ≡ may_take_all self.now channel axes }
    {
        self.want_from(channel, axes, ChannelSet::empty())
    }

    /// Whether the channel may take these axes where it may take them from the channels of `standing` too: each
    /// is free, its own, or of one of them. An axis that the job has not is none of these.
    pub fn want_from(&self, channel: ChannelId, axes: AxisSet, standing: ChannelSet) -> bool
        ensures { result ≡ may_take_all_from self.now channel axes standing }
    {
        for index in 0..AXIS_LIMIT {
            let axis = AxisId { index: index as u8 };
            if axes.contains(axis) && !may_take_from(self.state(axis), channel, standing) {
                return false;
            }
        }
        true
    }

    /// The channel takes these axes, so that it owns all of them. The answer says where those stand that
    /// were free.
    pub fn take(&mut self, channel: ChannelId, axes: AxisSet) -> Positions
        requires { may_take_all self.old channel axes ≡ true }
        ensures own { (x : ℕ) → has axes x ≡ true → axis_state self.new x ≡ Some (Owned channel) }
        ensures states { (x : ℕ) → axis_state self.new x
            ≡ (if is_free_among self.old axes x then Some (Owned channel) else axis_state self.old x) }
        ensures positions { (x : ℕ) → position_of result x
            ≡ (if has axes x then position_if_free (axis_state self.old x) else None) }
        ensures size { length result ≡ AXIS_LIMIT }
    {
        self.take_from(channel, axes, &Positions::empty())
    }

    /// The channel takes these axes, so that it owns all of them, also those of other channels, of which `at`
    /// says where they stand. The answer says where those stand that were not its own.
    pub fn take_from(&mut self, channel: ChannelId, axes: AxisSet, at: &Positions) -> Positions
        requires known { (x : ℕ) → has axes x ≡ true
            → is_known (axis_state self.old x) channel (position_of at.now x) ≡ true }
        ensures states { (x : ℕ) → axis_state self.new x
            ≡ (if has axes x then Some (Owned channel) else axis_state self.old x) }
        ensures positions { (x : ℕ) → position_of result x
            ≡ (if has axes x then position_when_taken (axis_state self.old x) channel (position_of at.now x)
            else None) }
        ensures size { length result ≡ AXIS_LIMIT }
    {
        let positions = self.positions_when_taken(channel, axes, at);
        for index in 0..AXIS_LIMIT {
            let axis = AxisId { index: index as u8 };
            if axes.contains(axis) {
                self.states[index] = Some(AxisState::Owned(channel));
            }
        }
        positions
    }

    // Where those of these axes stand that the channel takes.
    fn positions_when_taken(&self, channel: ChannelId, axes: AxisSet, told: &Positions) -> Positions
        ensures positions { (x : ℕ) → position_of result x
            ≡ (if has axes x then position_when_taken (axis_state self.now x) channel (position_of told.now x)
            else None) }
        ensures size { length result ≡ AXIS_LIMIT }
    {
        let mut positions = Positions::empty();
        for index in 0..AXIS_LIMIT {
            let axis = AxisId { index: index as u8 };
            if axes.contains(axis) {
                if let Some(at) = position_when_taken(self.state(axis), channel, told.get(axis)) {
                    positions.set(axis, at);
                }
            }
        }
        positions
    }
}

// Owned by this channel, or where there is none free at the position.
fn state_with(owner: Option<ChannelId>, at: Um) -> AxisState
    ensures { result ≡ state_with owner at }
{
    match owner {
        Some(channel) => AxisState::Owned(channel),
        None => AxisState::Free(at),
    }
}

// Whether an axis in this state is owned by this channel.
fn is_owned_by(state: &Option<AxisState>, channel: ChannelId) -> bool
    ensures { result ≡ is_owned_by state.now channel }
{
    match state {
        Some(AxisState::Owned(owner)) => *owner == channel,
        Some(AxisState::Free(_)) => false,
        None => false,
    }
}

// Whether a channel may take an axis in this state, where it may take it from these channels too.
fn may_take_from(state: Option<AxisState>, channel: ChannelId, standing: ChannelSet) -> bool
    ensures { result ≡ may_take_from state channel standing }
{
    match &state {
        Some(AxisState::Owned(owner)) => *owner == channel || standing.contains(*owner),
        Some(AxisState::Free(_)) => true,
        None => false,
    }
}

// Where an axis in this state stands that a channel takes, by where it is told to stand.
fn position_when_taken(state: Option<AxisState>, channel: ChannelId, told: Option<Um>) -> Option<Um>
    ensures { result ≡ position_when_taken state channel told }
{
    match &state {
        Some(AxisState::Owned(owner)) => { if *owner == channel { None } else { told } }
        Some(AxisState::Free(at)) => Some(*at),
        None => told,
    }
}
