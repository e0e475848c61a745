//! Rows of channels that go on together.
ghost use Rattle.std.specs.Prelude.{◌≡◌, ℕ, true, ◌+◌, ◌<◌, ◌^◌, ◌==◌, ◌&&◌, length, [], slice_index, slice_index_or, if◌then◌else◌};
ghost use Rattle.axis_sets.specs.declared.limits.TheConstants.{CHANNEL_PLACES};
ghost use Rattle.axis_sets.specs.Sets.{has};
ghost use Rattle.counter_rows.specs.Rows.{count_of, joint_top, joint_count};

use crate::VectorClock;
use crate::gather::joint_row;
use axis_sets::CHANNEL_PLACES;

/// Writes the rows of the chosen channels.
pub fn put_rows(
    past: &mut [VectorClock; CHANNEL_PLACES],
    chosen: &[bool; CHANNEL_PLACES],
    rows: &[VectorClock; CHANNEL_PLACES],
)
    ensures rows { (c : ℕ) → slice_index_or past.new c []
        ≡ (if has chosen.now c then slice_index_or rows.now c [] else slice_index_or past.old c []) }
    ensures size { length past.new ≡ CHANNEL_PLACES }
{
    for c in 0..CHANNEL_PLACES {
        if chosen[c] {
            past[c] = rows[c];
        }
    }
}

/// Those that go with this number.
pub fn same_group(
    goes: &[bool; CHANNEL_PLACES],
    group: &[u8; CHANNEL_PLACES],
    number: u8,
) -> [bool; CHANNEL_PLACES]
    ensures members { (c : ℕ) → c < CHANNEL_PLACES
        → has result c ≡ (has goes.now c && (slice_index group.now c == number)) }
    ensures size { length result ≡ CHANNEL_PLACES }
{
    let mut chosen = [false; CHANNEL_PLACES];
    for c in 0..CHANNEL_PLACES {
        chosen[c] = goes[c] && group[c] == number;
    }
    chosen
}

/// For each channel that goes the row of its event.
pub fn joint_rows(
    own: &[VectorClock; CHANNEL_PLACES],
    goes: &[bool; CHANNEL_PLACES],
    group: &[u8; CHANNEL_PLACES],
) -> [VectorClock; CHANNEL_PLACES]
    requires { (g x : ℕ) → joint_top own.now goes.now group.now g x + 1 < 2 ^ 64 }
    ensures rows { (c x : ℕ) → c < CHANNEL_PLACES → has goes.now c ≡ true → count_of (slice_index_or result c []) x
        ≡ joint_count own.now goes.now group.now (slice_index group.now c) x }
    ensures size { length result ≡ CHANNEL_PLACES }
{
    let mut rows = [VectorClock::zero(); CHANNEL_PLACES];
    for c in 0..CHANNEL_PLACES {
        if goes[c] {
            rows[c] = event_row(own, goes, group, group[c]);
        }
    }
    rows
}

/// The row of the Gos of one event.
pub fn event_row(
    own: &[VectorClock; CHANNEL_PLACES],
    goes: &[bool; CHANNEL_PLACES],
    group: &[u8; CHANNEL_PLACES],
    number: u8,
) -> VectorClock
    requires { (x : ℕ) → joint_top own.now goes.now group.now number x + 1 < 2 ^ 64 }
    ensures { (x : ℕ) → count_of result x ≡ joint_count own.now goes.now group.now number x }
{
    let chosen = same_group(goes, group, number);
    joint_row(own, &chosen)
}
