//! Which of those that go on in a step go on as one event.
ghost use Rattle.axis_sets.specs.declared.limits.TheConstants.{CHANNEL_PLACES};
ghost use Rattle.std.specs.Prelude.{◌≡◌, List, ℕ, ◌<◌, ◌≤◌, ◌==◌, true, slice_index, slice_index_or, None, length, if◌then◌else◌};
ghost use Rattle.order_clocks.specs.Partners.{PairsAllPartners, AreAllLinked};
ghost use Rattle.sync_types.specs.Events.{ArePaired, Pair};
ghost use Rattle.step_deeds.specs.Holds.{are_partners, named_marks};

use axis_sets::CHANNEL_PLACES;
use step_deeds::{Wakeup, are_partners_at};

/// Gives all that have the one number the other.
pub(crate) fn relabel(group: &mut [u8; CHANNEL_PLACES], old: u8, new: u8)
    ensures group { (c : ℕ) → c < CHANNEL_PLACES → slice_index group.new c
        ≡ (if slice_index group.old c == old then new else slice_index group.old c) }
    ensures size { length group.new ≡ CHANNEL_PLACES }
{
    for c in 0..CHANNEL_PLACES {
        if group[c] == old {
            group[c] = new;
        }
    }
}

/// Gives all that have the number of the one channel that of the other.
pub(crate) fn join(group: &mut [u8; CHANNEL_PLACES], a: usize, b: usize)
    requires first { a < CHANNEL_PLACES }
    requires second { b < CHANNEL_PLACES }
    ensures kept { (c d : ℕ) → c < CHANNEL_PLACES → d < CHANNEL_PLACES → slice_index group.old c
        ≡ slice_index group.old d → slice_index group.new c ≡ slice_index group.new d }
    ensures joined { slice_index group.new a ≡ slice_index group.new b }
    ensures linked { (ps : List Pair) → ArePaired ps a b → AreAllLinked ps group.old → AreAllLinked ps group.new }
    ensures size { length group.new ≡ CHANNEL_PLACES }
{
    let old = group[a];
    let new = group[b];
    relabel(group, old, new);
}

/// Gives two channels the same number, where they are partners.
pub(crate) fn join_partners(
    group: &mut [u8; CHANNEL_PLACES],
    goes: &[Option<Wakeup>; CHANNEL_PLACES],
    a: u8,
    b: u8,
)
    requires first { 1 ≤ a }
    requires first_below { a < CHANNEL_PLACES }
    requires second { 1 ≤ b }
    requires second_below { b < CHANNEL_PLACES }
    ensures kept { (c d : ℕ) → c < CHANNEL_PLACES → d < CHANNEL_PLACES → slice_index group.old c
        ≡ slice_index group.old d → slice_index group.new c ≡ slice_index group.new d }
    ensures joined { are_partners goes.now a b ≡ true → slice_index group.new a ≡ slice_index group.new b }
    ensures linked { (ps : List Pair) → PairsAllPartners ps goes.now
        → AreAllLinked ps group.old → AreAllLinked ps group.new }
    ensures size { length group.new ≡ CHANNEL_PLACES }
{
    if are_partners_at(goes, a, b) {
        join(group, usize::from(a), usize::from(b));
    }
}

/// Gives each channel that is a partner of this one the same number as it.
pub(crate) fn join_to(
    group: &mut [u8; CHANNEL_PLACES],
    goes: &[Option<Wakeup>; CHANNEL_PLACES],
    a: u8,
)
    requires from { 1 ≤ a }
    requires below { a < CHANNEL_PLACES }
    ensures kept { (c d : ℕ) → c < CHANNEL_PLACES → d < CHANNEL_PLACES → slice_index group.old c
        ≡ slice_index group.old d → slice_index group.new c ≡ slice_index group.new d }
    ensures joined { (b : ℕ) → 1 ≤ b → b < CHANNEL_PLACES → are_partners goes.now a b ≡ true
        → slice_index group.new a ≡ slice_index group.new b }
    ensures linked { (ps : List Pair) → PairsAllPartners ps goes.now
        → AreAllLinked ps group.old → AreAllLinked ps group.new }
    ensures size { length group.new ≡ CHANNEL_PLACES }
{
    if goes[usize::from(a)].is_none() {
        return;
    }
    for b in 1..CHANNEL_PLACES as u8 {
        join_partners(group, goes, a, b);
    }
}

/// A number of its own for each channel, and one for the place of none.
fn each_alone() -> [u8; CHANNEL_PLACES]
    ensures own { (c : ℕ) → c < CHANNEL_PLACES → slice_index result c ≡ c }
    ensures size { length result ≡ CHANNEL_PLACES }
{
    let mut group = [0; CHANNEL_PLACES];
    for place in 0..CHANNEL_PLACES as u8 {
        group[usize::from(place)] = place;
    }
    group
}

/// Numbers for channels: those that go on as one event have one.
pub(crate) fn groups_of(goes: &[Option<Wakeup>; CHANNEL_PLACES]) -> [u8; CHANNEL_PLACES]
    ensures joined { (a b : ℕ) → 1 ≤ a → a < CHANNEL_PLACES → 1 ≤ b → b < CHANNEL_PLACES → are_partners goes.now a b
        ≡ true → slice_index result a ≡ slice_index result b }
    ensures linked { (ps : List Pair) → PairsAllPartners ps goes.now → AreAllLinked ps result }
{
    let mut group = each_alone();
    for a in 1..CHANNEL_PLACES as u8 {
        join_to(&mut group, goes, a);
    }
    group
}
