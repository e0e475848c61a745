//! Boxes that meet, and boxes in which others lie.
ghost use Rattle.std.specs.Prelude.{◌≡◌, ◌+◌, ◌<◌, true, false, IfSome, None, length};
ghost use Rattle.box_tree.specs.Firsts.{IsFirstFrom, IsFirstMeeting, NoneBetween, NoneMeet};
ghost use Rattle.box_tree.specs.Hulls.{LiesIn};
ghost use Rattle.swept_boxes.specs.Boxes.{boxes_meet, do_touch};

use swept_boxes::Box3;

/// Whether two boxes touch in a direction: the greater low bound is not above the lesser high bound.
fn do_touch(left: &Box3, right: &Box3, direction: usize) -> bool
    requires { direction < 3 }
    ensures { result ≡ do_touch left.now right.now direction }
{
    let low = left.lo[direction].max(right.lo[direction]);
    let high = left.hi[direction].min(right.hi[direction]);
    low <= high
}

/// Whether two boxes share a point: they touch in all three directions.
#[tactic(auto, unfolding(swept_boxes::specs::Boxes::boxes_meet))]
pub fn do_meet(left: &Box3, right: &Box3) -> bool
    ensures { result ≡ boxes_meet left.now right.now }
{
    do_touch(left, right, 0) && do_touch(left, right, 1) && do_touch(left, right, 2)
}

/// The number of the first of some boxes, from this number on, that meets a box.
pub fn first_met(met: &Box3, boxes: &[Box3], from: usize) -> Option<usize>
    ensures met { IfSome result (λ place. IsFirstFrom (boxes_meet met.now) boxes.now from place) }
    ensures none { result ≡ None → NoneBetween (boxes_meet met.now) boxes.now from (length boxes.now) }
{
    for place in from..boxes.len() {
        if do_meet(met, &boxes[place]) {
            return Some(place);
        }
    }
    None
}

/// The first two of some boxes and some others that meet, each by its number: of the pairs that meet the one with the least
/// number on the left, and of those the one with the least number on the right; `None` where no two meet. It takes no memory.
pub fn plain_first(left: &[Box3], right: &[Box3]) -> Option<(usize, usize)>
    ensures met { IfSome result (λ p. IsFirstMeeting left.now right.now p.0 p.1) }
    ensures none { result ≡ None → NoneMeet left.now right.now }
{
    for place in 0..left.len() {
        if let Some(other) = first_met(&left[place], right, 0) {
            return Some((place, other));
        }
    }
    None
}

/// The number of the first of some boxes after this number that meets a box.
pub(crate) fn first_after(met: &Box3, boxes: &[Box3], after: usize) -> Option<usize>
    ensures met { IfSome result (λ place. IsFirstFrom (boxes_meet met.now) boxes.now (after + 1) place) }
    ensures none { result ≡ None → NoneBetween (boxes_meet met.now) boxes.now (after + 1) (length boxes.now) }
{
    if after < boxes.len() {
        first_met(met, boxes, after + 1)
    } else {
        None
    }
}

/// The least box in which two boxes lie.
pub(crate) fn joined(left: &Box3, right: &Box3) -> Box3
    ensures left { LiesIn left.now result }
    ensures right { LiesIn right.now result }
{
    Box3 {
        lo: [
            left.lo[0].min(right.lo[0]),
            left.lo[1].min(right.lo[1]),
            left.lo[2].min(right.lo[2]),
        ],
        hi: [
            left.hi[0].max(right.hi[0]),
            left.hi[1].max(right.hi[1]),
            left.hi[2].max(right.hi[2]),
        ],
    }
}
