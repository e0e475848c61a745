//! What two boxes have in common.
ghost use Rattle.std.specs.Prelude.{◌≡◌, ◌<◌, ◌↔◌};
ghost use Rattle.explain_reach.specs.Shapes as model;
ghost use Rattle.swept_boxes.specs.Boxes.{SpacePoint, IsInBox};

use swept_boxes::Box3;

/// The lower and the upper bound of what two boxes have in common along a direction.
fn common_bounds(left: &Box3, right: &Box3, direction: usize) -> (i32, i32)
    requires { direction < 3 }
    ensures low { result.0 ≡ model.common_low left.now right.now direction }
    ensures high { result.1 ≡ model.common_high left.now right.now direction }
{
    (
        left.lo[direction].max(right.lo[direction]),
        left.hi[direction].min(right.hi[direction]),
    )
}

/// The common box by its bounds.
fn box_in_common(left: &Box3, right: &Box3) -> Box3
    ensures { result ≡ model.common_box left.now right.now }
{
    let x = common_bounds(left, right, 0);
    let y = common_bounds(left, right, 1);
    let z = common_bounds(left, right, 2);
    Box3 {
        lo: [x.0, y.0, z.0],
        hi: [x.1, y.1, z.1],
    }
}

/// The box of exactly the points that two boxes have in common. Where they have none, one of its low bounds is above its high bound.
pub fn common_box(left: &Box3, right: &Box3) -> Box3
    ensures bounds { result ≡ model.common_box left.now right.now }
    ensures points { (point : SpacePoint) → IsInBox result point ↔ (IsInBox left.now point × IsInBox right.now point) }
{
    box_in_common(left, right)
}
