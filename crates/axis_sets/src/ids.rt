//! Axes, channels and zones, by their numbers.
use std::marker::Model;

/// An axis of a job: its place among the AXIS lines, counted from 0, below `AXIS_LIMIT`. A contract sees it as this number.
#[derive(Clone, Copy, PartialEq, Eq)]
pub struct AxisId {
    /// The place, counted from 0.
    pub index: u8,
}

impl Model for AxisId {
    ghost use Rattle.std.specs.Prelude.{ℕ, ◌<◌};
    ghost use Rattle.axis_sets.specs.declared.limits.TheConstants.{AXIS_LIMIT};

    ghost Value = { ℕ };

    ghost view = { λ a. a.index };

    ghost invariant = { λ a. a.index < AXIS_LIMIT };

    ghost inverse = { λ n. record { index = n } };
}

impl Default for AxisId {
    ghost use Rattle.std.specs.Prelude.{◌≡◌};

    ghost is_default = { λ axis. axis ≡ 0 };

    fn default() -> AxisId {
        AxisId { index: 0 }
    }
}

/// A channel of the machine, by its number from 1 to `CHANNEL_LIMIT`. A contract sees it as this number.
#[derive(Clone, Copy, PartialEq, Eq)]
pub struct ChannelId {
    /// The number of the channel.
    pub number: u8,
}

impl Model for ChannelId {
    ghost use Rattle.std.specs.Prelude.{ℕ, ◌≤◌};
    ghost use Rattle.axis_sets.specs.declared.limits.TheConstants.{CHANNEL_LIMIT};

    ghost Value = { ℕ };

    ghost view = { λ c. c.number };

    ghost invariant = { λ c. (1 ≤ c.number) × (c.number ≤ CHANNEL_LIMIT) };

    ghost inverse = { λ n. record { number = n } };
}

impl Default for ChannelId {
    ghost use Rattle.std.specs.Prelude.{◌≡◌};

    ghost is_default = { λ c. c ≡ 1 };

    fn default() -> ChannelId {
        ChannelId { number: 1 }
    }
}

/// A protection zone, by its number from 1 to `ZONE_LIMIT`. A contract sees it as this number.
#[derive(Clone, Copy, PartialEq, Eq)]
pub struct ZoneId {
    /// The number of the zone.
    pub number: u8,
}

impl Model for ZoneId {
    ghost use Rattle.std.specs.Prelude.{ℕ, ◌≤◌};
    ghost use Rattle.axis_sets.specs.declared.limits.TheConstants.{ZONE_LIMIT};

    ghost Value = { ℕ };

    ghost view = { λ z. z.number };

    ghost invariant = { λ z. (1 ≤ z.number) × (z.number ≤ ZONE_LIMIT) };

    ghost inverse = { λ n. record { number = n } };
}

impl Default for ZoneId {
    ghost use Rattle.std.specs.Prelude.{◌≡◌};

    ghost is_default = { λ z. z ≡ 1 };

    fn default() -> ZoneId {
        ZoneId { number: 1 }
    }
}
