//! Writes rows for the members of sets. A set without members costs one look.
ghost use Rattle.std.specs.Prelude.{◌≡◌, ℕ, [], slice_index_or, if◌then◌else◌};
ghost use Rattle.axis_sets.specs.Sets.{has};

use crate::VectorClock;
use crate::flags::{axis_flags, channel_flags};
use crate::gather::put_chosen;
use axis_sets::{AXIS_LIMIT, AxisSet, CHANNEL_PLACES, ChannelSet};

/// Writes the row of each axis.
pub fn put_axes(rows: &mut [VectorClock; AXIS_LIMIT], axes: &AxisSet, row: VectorClock)
    ensures rows { (x : ℕ) → slice_index_or rows.new x []
        ≡ (if has axes.now x then row else slice_index_or rows.old x []) }
{
    if !axes.is_empty() {
        put_chosen(rows, &axis_flags(axes), row);
    }
}

/// Writes the row of each channel.
pub fn put_channels(
    rows: &mut [VectorClock; CHANNEL_PLACES],
    channels: &ChannelSet,
    row: VectorClock,
)
    ensures rows { (c : ℕ) → slice_index_or rows.new c []
        ≡ (if has channels.now c then row else slice_index_or rows.old c []) }
{
    if !channels.is_empty() {
        put_chosen(rows, &channel_flags(channels), row);
    }
}
