//! What is counted of the stretches of a zone as places among them go on.
ghost use Rattle.axis_sets.specs.declared.limits.TheConstants.{CHANNEL_PLACES};
ghost use Rattle.clash_check.specs.PairCounts as counts;
ghost use Rattle.clash_check.specs.Running as model;
ghost use Rattle.order_clocks.specs.Tells.{is_before_in};
ghost use Rattle.zone_stretches.specs.Ascents as ascents;
ghost use Rattle.std.specs.Prelude.{◌≡◌, ℕ, ◌+◌, ◌<◌, ◌≤◌, true, false, Bool, Some, length, slice_index, if◌then◌else◌};

use crate::pair_counts::count_against;
use axis_sets::CHANNEL_PLACES;
use order_clocks::Clocks;
use zone_stretches::{IndexRange, Stretch, part};

/// How many boxes the stretches before a place have, or the greatest `u64` where they have more.
#[derive(Clone, Copy)]
pub(crate) struct Boxes {
    /// The place.
    pub(crate) place: usize,
    /// How many boxes.
    pub(crate) boxes: u64,
}

/// How many boxes the stretches before a place have, counted on from an earlier place.
pub(crate) fn boxes_before(others: &[Stretch], place: usize, known: Boxes) -> Boxes
    requires place { place ≤ length others.now }
    requires known { model.IsSum others.now known.place known.boxes }
    ensures place { result.place ≡ place }
    ensures boxes { model.IsSum others.now place result.boxes }
{
    let first = if known.place <= place {
        known
    } else {
        Boxes { place: 0, boxes: 0 }
    };
    let mut boxes = first.boxes;
    for at in first.place..place {
        let stretch = &others[at];
        boxes = boxes.saturating_add(stretch.boxes.len() as u64);
    }
    Boxes { place, boxes }
}

/// Keeps this place for the channel of a stretch, where it has boxes.
fn mark(places: &mut [usize; CHANNEL_PLACES], stretch: &Stretch, place: usize)
    ensures { (channel : ℕ) → channel < CHANNEL_PLACES → slice_index places.new channel
        ≡ (if model.has_boxes_of channel stretch.now then place else slice_index places.old channel) }
{
    if stretch.boxes.is_empty() {
        return;
    }
    if let Some(channel) = stretch.name.channel {
        places[usize::from(channel.number)] = place;
    }
}

/// Keeps for each channel a place after all its stretches with boxes before a place, where this is so before an earlier place.
pub(crate) fn mark_latest(
    places: &mut [usize; CHANNEL_PLACES],
    others: &[Stretch],
    from: usize,
    upto: usize,
)
    requires place { upto ≤ length others.now }
    requires known { model.IsLatest others.now from places.old }
    ensures { model.IsLatest others.now upto places.new }
{
    for at in from..upto {
        mark(places, &others[at], at + 1);
    }
}

/// Whether all stretches of the channel of a stretch, with boxes, are before a place.
fn is_alone(left: &Stretch, places: &[usize; CHANNEL_PLACES], from: usize) -> bool
    ensures { result ≡ true → (channel : ℕ) → left.now.name.channel ≡ Some channel → (channel < CHANNEL_PLACES)
        × (slice_index places.now channel ≤ from) }
{
    match left.name.channel {
        None => true,
        Some(channel) => places[usize::from(channel.number)] <= from,
    }
}

/// What is counted of the stretches of a zone up to the places of its stretches that may overlap one of another zone.
#[derive(Clone, Copy)]
pub(crate) struct Sums<'a> {
    /// The boxes before the first of these places.
    pub(crate) before: Boxes,
    /// The boxes before the place after the last.
    pub(crate) upto: Boxes,
    /// For each channel a place after all its stretches with boxes before that place.
    pub(crate) latest: &'a [usize; CHANNEL_PLACES],
}

/// The pairs of a stretch with those of the other zone in its range: as many as its boxes with all the boxes there, where none of
/// these is of its channel.
pub(crate) fn count_in_range(
    clocks: &Clocks,
    left: &Stretch,
    others: &[Stretch],
    range: IndexRange,
    sums: &Sums,
) -> u64
    requires passing { (ended : Bool) → ascents.PassFirst
        (ascents.passes (is_before_in clocks.now.rows) ended left.now) others.now }
    requires within { range.upto ≤ length others.now }
    requires from { range.from ≡ ascents.leading
        (ascents.passes (is_before_in clocks.now.rows) true left.now) others.now }
    requires upto { range.upto ≡ ascents.leading
        (ascents.passes (is_before_in clocks.now.rows) false left.now) others.now }
    requires boxes_before { model.IsSum others.now range.from sums.now.before.boxes }
    requires boxes_upto { model.IsSum others.now range.upto sums.now.upto.boxes }
    requires latest { model.IsLatest others.now range.upto sums.now.latest.now }
    ensures { result ≡ counts.capped (counts.count_against (is_before_in clocks.now.rows) others.now left.now) }
{
    let before = sums.before;
    let upto = sums.upto;
    let latest = sums.latest;
    if before.boxes < u64::MAX && upto.boxes < u64::MAX && is_alone(left, latest, range.from) {
        (left.boxes.len() as u64).saturating_mul(upto.boxes.saturating_sub(before.boxes))
    } else {
        count_against(clocks, part(others, range), left)
    }
}
