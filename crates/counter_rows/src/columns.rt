//! Reads and writes the row of a channel.
ghost use Rattle.std.specs.Prelude.{◌≡◌, ℕ, ◌<◌, ◌==◌, length, [], slice_index_or, if◌then◌else◌};
ghost use Rattle.axis_sets.specs.declared.limits.TheConstants.{CHANNEL_PLACES};

use crate::VectorClock;
use axis_sets::CHANNEL_PLACES;

/// Writes the row at a channel.
pub fn put_at(rows: &mut [VectorClock; CHANNEL_PLACES], channel: usize, row: VectorClock)
    requires { channel < CHANNEL_PLACES }
    ensures rows { (d : ℕ) → slice_index_or rows.new d []
        ≡ (if d == channel then row else slice_index_or rows.old d []) }
    ensures size { length rows.new ≡ CHANNEL_PLACES }
{
    rows[channel] = row;
}

/// The row at a channel.
pub fn at_channel(rows: &[VectorClock; CHANNEL_PLACES], channel: usize) -> VectorClock
    requires { channel < CHANNEL_PLACES }
    ensures { result ≡ slice_index_or rows.now channel [] }
{
    rows[channel]
}
