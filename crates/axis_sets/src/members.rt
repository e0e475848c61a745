//! What can be a member of a set.
ghost use Rattle.std.specs.Prelude.{◌≡◌, ℕ, ◌<◌, ◌≤◌};
ghost use Rattle.axis_sets.specs.declared.limits.TheConstants.{WORD_BITS};

use crate::{AXIS_LIMIT, AxisId, CHANNEL_PLACES, ChannelId, ZONE_PLACES, ZoneId};

/// What can be a member of a set with `N` places: it has a number, which is its place.
pub trait Member<const N: usize>: Copy {
    ghost number_of: { Self → ℕ };

    ghost lowest_number: { ℕ };

    ghost CanStand: { Self → Type 0 };

    ghost fits: { N ≤ WORD_BITS };

    /// The number of a member.
    fn number(self) -> usize
        ensures number { result ≡ number_of self }
        ensures below { CanStand self → result < N }
        ensures from { CanStand self → lowest_number ≤ result };

    /// The member of a number.
    fn numbered(number: usize) -> Self
        requires from { lowest_number ≤ number }
        requires below { number < N }
        ensures number { number_of result ≡ number };
}

impl Member<AXIS_LIMIT> for AxisId {
    ghost use Rattle.std.specs.Prelude.{ℕ, ◌<◌, ◌≤◌};
    ghost use Rattle.std.proofs.Common.{arith};
    ghost use Rattle.axis_sets.specs.declared.limits.TheConstants.{AXIS_LIMIT, WORD_BITS};

    ghost number_of = { λ member. member };

    ghost lowest_number = { 0 };

    ghost CanStand = { λ _. Unit {0} };

    ghost fits = { omega arith };

    fn number(self) -> usize {
        usize::from(self.index)
    }

    fn numbered(number: usize) -> AxisId {
        AxisId {
            index: number as u8,
        }
    }
}

impl Member<CHANNEL_PLACES> for ChannelId {
    ghost use Rattle.std.specs.Prelude.{ℕ, ◌<◌, ◌≤◌};
    ghost use Rattle.std.proofs.Common.{arith};
    ghost use Rattle.axis_sets.specs.declared.limits.TheConstants.{CHANNEL_PLACES, WORD_BITS};

    ghost number_of = { λ member. member };

    ghost lowest_number = { 1 };

    ghost CanStand = { λ _. Unit {0} };

    ghost fits = { omega arith };

    fn number(self) -> usize {
        usize::from(self.number)
    }

    fn numbered(number: usize) -> ChannelId {
        ChannelId {
            number: number as u8,
        }
    }
}

impl Member<ZONE_PLACES> for ZoneId {
    ghost use Rattle.std.specs.Prelude.{ℕ, ◌<◌, ◌≤◌};
    ghost use Rattle.std.proofs.Common.{arith};
    ghost use Rattle.axis_sets.specs.declared.limits.TheConstants.{ZONE_PLACES, WORD_BITS};

    ghost number_of = { λ member. member };

    ghost lowest_number = { 1 };

    ghost CanStand = { λ _. Unit {0} };

    ghost fits = { omega arith };

    fn number(self) -> usize {
        usize::from(self.number)
    }

    fn numbered(number: usize) -> ZoneId {
        ZoneId {
            number: number as u8,
        }
    }
}
