//! Reads and writes rows by sets.
ghost use Rattle.std.specs.Prelude.{◌≡◌, ℕ, suc, ◌+◌, ◌<◌, ◌^◌, max, length, [], slice_index_or, if◌then◌else◌};
ghost use Rattle.axis_sets.specs.Sets.{has, members_of};
ghost use Rattle.counter_rows.specs.Rows.{top, count_of};

use crate::VectorClock;
use axis_sets::CHANNEL_PLACES;

/// Writes the row at each chosen place.
pub fn put_chosen<const N: usize>(rows: &mut [VectorClock; N], chosen: &[bool; N], row: VectorClock)
    ensures rows { (m : ℕ) → slice_index_or rows.new m []
        ≡ (if has chosen.now m then row else slice_index_or rows.old m []) }
    ensures size { length rows.new ≡ N }
{
    for m in 0..N {
        if chosen[m] {
            rows[m] = row;
        }
    }
}

/// The greatest numbers of a row and of those at the chosen places.
pub fn most_chosen<const N: usize>(
    rows: &[VectorClock; N],
    chosen: &[bool; N],
    start: VectorClock,
) -> VectorClock
    ensures counts { (c : ℕ) → count_of result c
        ≡ max (count_of start c) (top (λ m. count_of (slice_index_or rows.now m []) c) (members_of chosen.now)) }
{
    let mut row = start;
    for m in 0..N {
        if chosen[m] {
            row = row.most(rows[m]);
        }
    }
    row
}

/// One event more of each of the chosen channels.
pub fn count_chosen(row: VectorClock, chosen: &[bool; CHANNEL_PLACES]) -> VectorClock
    requires { (c : ℕ) → count_of row c + 1 < 2 ^ 64 }
    ensures counts { (c : ℕ) → count_of result c ≡ (if has chosen.now c then suc (count_of row c) else count_of row c) }
{
    let mut counted = row;
    for c in 0..CHANNEL_PLACES {
        if chosen[c] {
            counted = counted.counted(c);
        }
    }
    counted
}

/// The row of the Gos of one event: the greatest numbers of what they rest on, and one event more of
/// each of their channels.
pub fn joint_row(
    own: &[VectorClock; CHANNEL_PLACES],
    chosen: &[bool; CHANNEL_PLACES],
) -> VectorClock
    requires { (x : ℕ) → top (λ m. count_of (slice_index_or own.now m []) x) (members_of chosen.now) + 1 < 2 ^ 64 }
    ensures { (x : ℕ) → count_of result x ≡ (let most = top (λ m. count_of (slice_index_or own.now m []) x)
        (members_of chosen.now) in if has chosen.now x then suc most else most) }
{
    let most = most_chosen(own, chosen, VectorClock::zero());
    count_chosen(most, chosen)
}
