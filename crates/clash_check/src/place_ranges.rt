//! Which boxes of a stretch hold a place in common with a box of another stretch of the same channel: the boxes of a stretch begin
//! and end one after another, so these stand side by side.
ghost use Rattle.clash_check.specs.PlaceRanges as model;
ghost use Rattle.zone_stretches.specs.Ascents.{PassFirst, leading};
ghost use Rattle.std.specs.Prelude.{◌≡◌, ◌+◌, ◌-◌, ◌<◌, ◌≤◌, not, Bool, true, false, drop, take, length};

use zone_stretches::{IndexRange, ZoneBox};

/// Whether a box neither begins nor ends after the one of this place, if there is one.
fn is_by_at(own: &ZoneBox, boxes: &[ZoneBox], place: usize) -> bool
    ensures { result ≡ model.is_by_first own.now (drop place boxes.now) }
{
    if place < boxes.len() {
        let later = &boxes[place];
        own.from <= later.from && own.to <= later.to
    } else {
        true
    }
}

/// Whether each box neither begins nor ends after the next.
pub(crate) fn do_boxes_ascend(boxes: &[ZoneBox]) -> bool
    ensures { result ≡ model.do_boxes_ascend boxes.now }
{
    for place in 0..boxes.len() {
        if !is_by_at(&boxes[place], boxes, place + 1) {
            return false;
        }
    }
    true
}

/// Whether a box ends before this one begins; or where that is asked, whether it begins before this one has ended.
fn passes_place(ended: bool, own: &ZoneBox, other: &ZoneBox) -> bool
    ensures { result ≡ model.passes_place ended own.now other.now }
{
    if ended {
        other.to < own.from
    } else {
        other.from <= own.to
    }
}

/// The place to look on from: this one, where the box before it passes, and else the first.
fn place_from(ended: bool, own: &ZoneBox, others: &[ZoneBox], hint: usize) -> usize
    requires { PassFirst (model.passes_place ended own.now) others.now }
    ensures within { result ≤ length others.now }
    ensures left { result + leading (model.passes_place ended own.now) (drop result others.now)
        ≡ leading (model.passes_place ended own.now) others.now }
{
    if 0 < hint && hint <= others.len() && passes_place(ended, own, &others[hint - 1]) {
        hint
    } else {
        0
    }
}

/// How many boxes pass before the first that does not.
fn count_passing(ended: bool, own: &ZoneBox, others: &[ZoneBox], hint: usize) -> usize
    requires { PassFirst (model.passes_place ended own.now) others.now }
    ensures within { result ≤ length others.now }
    ensures leading { result ≡ leading (model.passes_place ended own.now) others.now }
{
    let first = place_from(ended, own, others, hint);
    for place in first..others.len() {
        if !passes_place(ended, own, &others[place]) {
            return place;
        }
    }
    others.len()
}

/// The places of the boxes that hold a place in common with this one, found from those of an earlier box.
pub(crate) fn place_range(own: &ZoneBox, others: &[ZoneBox], hint: IndexRange) -> IndexRange
    requires { (ended : Bool) → PassFirst (model.passes_place ended own.now) others.now }
    ensures within { result.upto ≤ length others.now }
    ensures from { result.from ≡ leading (model.passes_place true own.now) others.now }
    ensures upto { result.upto ≡ leading (model.passes_place false own.now) others.now }
{
    IndexRange {
        from: count_passing(true, own, others, hint.from),
        upto: count_passing(false, own, others, hint.upto),
    }
}
