//! By how much the margin of two lots of boxes may grow.
ghost use Rattle.std.specs.Prelude.{◌≡◌, ℤ, pos, ◌+ℤ◌, ◌*ℤ◌, ◌≤ℤ◌, ◌<ℤ◌, [], All, IfNone, IfSome, map};
ghost use Rattle.explain_reach.specs.Lots.{DoLotsMeet, reaches};
ghost use Rattle.explain_reach.specs.Shapes.{HasPoint, grown_box};

use crate::lots::most_near;
use swept_boxes::Box3;

/// The greatest growth in micrometres, at both ends of both boxes, by which boxes are apart that reach into each other by `reach`.
pub fn room_of(reach: i64) -> i64
    ensures apart { (reach +ℤ (result *ℤ pos 2)) <ℤ pos 0 }
    ensures most { pos 0 ≤ℤ (reach +ℤ ((result +ℤ pos 1) *ℤ pos 2)) }
{
    (-1 - reach).div_euclid(2)
}

/// The greatest number of micrometres, below 0 where they meet, by which all boxes of two lots may grow at all ends so that none of
/// the one lot meets one of the other: by so much their margin can be greater. None where a lot is empty.
pub fn margin_room(left: &[Box3], right: &[Box3]) -> Option<i64>
    ensures empty { IfNone result (reaches left.now right.now ≡ []) }
    ensures apart { IfSome result (λ room. DoLotsMeet (map (grown_box room) left.now)
        (map (grown_box room) right.now) → ⊥) }
    ensures most { IfSome result (λ room. (more : ℤ) → room <ℤ more
        → All HasPoint (map (grown_box more) left.now) → All HasPoint (map (grown_box more) right.now)
        → DoLotsMeet (map (grown_box more) left.now) (map (grown_box more) right.now)) }
{
    match most_near(left, right) {
        None => None,
        Some(reach) => Some(room_of(reach)),
    }
}
