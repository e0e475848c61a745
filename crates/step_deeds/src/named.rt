//! Marks with the channels that are named with them, and what sets have in common.
ghost use Rattle.axis_sets.specs.Sets.{has};
ghost use Rattle.std.specs.Prelude.{◌≡◌, ℕ, ◌↔◌, true, IsTrue};
ghost use Rattle.step_deeds.specs.Holds.{waits_in};

use axis_sets::{AxisSet, ChannelId, ChannelSet, MarkSet};

/// A mark number and the channels named with it.
#[derive(Clone, Copy)]
pub struct NamedMarks {
    /// The number.
    pub number: u8,
    /// The channels.
    pub named: ChannelSet,
}

/// Whether the channel is named with one of the numbers.
pub fn meets_wait(wait: &Option<NamedMarks>, numbers: MarkSet, channel: ChannelId) -> bool
    ensures { IsTrue result ↔ ((m : ℕ) × ((has numbers m ≡ true) × (waits_in wait.now m channel ≡ true))) }
{
    match wait {
        None => false,
        Some(wait) => numbers.contains(wait.number) && wait.named.contains(channel),
    }
}

/// Whether two sets have an axis in common.
pub fn share_axes(one: AxisSet, two: AxisSet) -> bool
    ensures { IsTrue result ↔ ((x : ℕ) × ((has one x ≡ true) × (has two x ≡ true))) }
{
    one.minus(one.minus(two)).lowest().is_some()
}

/// Whether two sets have a channel in common.
pub fn share_channels(one: ChannelSet, two: ChannelSet) -> bool
    ensures { IsTrue result ↔ ((c : ℕ) × ((has one c ≡ true) × (has two c ≡ true))) }
{
    one.minus(one.minus(two)).lowest().is_some()
}

/// Whether a channel is in one of the sets alone.
pub fn differ(one: ChannelSet, two: ChannelSet) -> bool
    ensures { IsTrue result ↔ ((c : ℕ) × ((has one c ≡ has two c) → ⊥)) }
{
    one.minus(two).lowest().is_some() || two.minus(one).lowest().is_some()
}
