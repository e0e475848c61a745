//! How near two lots of boxes come to each other.
ghost use Rattle.std.specs.Prelude.{◌≡◌, ℤ, ◌++◌, ◌↔◌, IsTrue, List, Some, map};
ghost use Rattle.std.specs.Int.RustNames.{int_lt};
ghost use Rattle.std.specs.List.{list_any};
ghost use Rattle.explain_reach.specs.Lots.{DoLotsMeet, IsGreatest, greater as greater_of, is_over as is_over_of, lots_meet, reaches};
ghost use Rattle.explain_reach.specs.Reaches.{reach_of};
ghost use Rattle.swept_boxes.specs.Boxes.{boxes_meet};

use crate::ways::{do_reach_over, least_way};
use swept_boxes::Box3;

/// Whether two boxes share a point.
pub(crate) fn do_meet(left: &Box3, right: &Box3) -> bool
    ensures { result ≡ boxes_meet left.now right.now }
{
    left.meets(right)
}

/// Whether a box meets one of these.
fn meets_any(met: &Box3, boxes: &[Box3]) -> bool
    ensures { result ≡ list_any (boxes_meet met.now) boxes.now }
{
    boxes.iter().any(|piece| do_meet(met, piece))
}

/// Whether one of these boxes meets one of those.
pub(crate) fn any_meets(boxes: &[Box3], others: &[Box3]) -> bool
    ensures { result ≡ lots_meet boxes.now others.now }
{
    boxes.iter().any(|piece| meets_any(piece, others))
}

/// Whether a box of the one lot shares a point with one of the other.
pub(crate) fn do_lots_meet(boxes: &[Box3], others: &[Box3]) -> bool
    ensures { IsTrue result ↔ DoLotsMeet boxes.now others.now }
{
    any_meets(boxes, others)
}

/// Whether two boxes reach further into each other than a number that may be there.
pub(crate) fn is_over(most: Option<i64>, left: &Box3, right: &Box3) -> bool
    ensures { result ≡ is_over_of most (reach_of left.now right.now) }
{
    match most {
        None => true,
        Some(number) => do_reach_over(number, left, right),
    }
}

/// The greater of a number that may be there and of how far two boxes reach into each other.
fn greater(most: Option<i64>, left: &Box3, right: &Box3) -> Option<i64>
    ensures { result ≡ Some (greater_of most (reach_of left.now right.now)) }
{
    if is_over(most, left, right) {
        Some(least_way(left, right).shift)
    } else {
        most
    }
}

/// The greatest of some numbers and of how far a box reaches into each of these.
fn most_with(before: Option<i64>, left: &Box3, right: &[Box3]) -> Option<i64>
    ensures { (numbers : List ℤ) → IsGreatest before numbers
        → IsGreatest result (numbers ++ map (reach_of left.now) right.now) }
{
    let mut most = before;
    for other in right {
        most = greater(most, left, other);
    }
    most
}

/// The same of each box of a lot with each of another.
pub(crate) fn most_among(before: Option<i64>, left: &[Box3], right: &[Box3]) -> Option<i64>
    ensures { (numbers : List ℤ) → IsGreatest before numbers
        → IsGreatest result (numbers ++ reaches left.now right.now) }
{
    let mut most = before;
    for own in left {
        most = most_with(most, own, right);
    }
    most
}

/// By how much two boxes, one of each lot, reach into each other at most; below 0 all are apart by so much at least. None where a lot
/// is empty.
pub fn most_near(left: &[Box3], right: &[Box3]) -> Option<i64>
    ensures { IsGreatest result (reaches left.now right.now) }
{
    most_among(None, left, right)
}
