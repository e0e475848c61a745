//! Writes to the numbers of one channel in many rows.
ghost use Rattle.std.specs.Prelude.{◌≡◌, ℕ, ◌<◌, ◌==◌, ◌&&◌, length, [], slice_index_or, if◌then◌else◌};
ghost use Rattle.axis_sets.specs.declared.limits.TheConstants.{CHANNEL_PLACES};
ghost use Rattle.axis_sets.specs.Sets.{has};
ghost use Rattle.counter_rows.specs.Rows.{count_of};

use crate::VectorClock;
use axis_sets::CHANNEL_PLACES;

/// Writes the number of a channel in each chosen row.
pub fn note_chosen<const N: usize>(
    rows: &mut [VectorClock; N],
    chosen: &[bool; N],
    channel: usize,
    count: u64,
)
    requires { channel < CHANNEL_PLACES }
    ensures rows { (m c : ℕ) → count_of (slice_index_or rows.new m []) c
        ≡ (if has chosen.now m && (c == channel) then count else count_of (slice_index_or rows.old m []) c) }
    ensures size { length rows.new ≡ N }
{
    for m in 0..N {
        if chosen[m] {
            rows[m] = rows[m].put(channel, count);
        }
    }
}

/// Writes the number of a channel in its own row.
pub fn note_at(rows: &mut [VectorClock; CHANNEL_PLACES], channel: usize, count: u64)
    requires { channel < CHANNEL_PLACES }
    ensures rows { (d c : ℕ) → count_of (slice_index_or rows.new d []) c
        ≡ (if (d == channel) && (c == channel) then count else count_of (slice_index_or rows.old d []) c) }
    ensures size { length rows.new ≡ CHANNEL_PLACES }
{
    rows[channel] = rows[channel].put(channel, count);
}
