//! By which shift of one of them two boxes would be apart.
ghost use Rattle.std.specs.Prelude.{◌≡◌, ◌<◌, ℕ, ℤ, pos, neg_ℤ, ◌+ℤ◌, ◌-ℤ◌, ◌≤ℤ◌, ◌<ℤ◌, ◌⊎◌, ◌↔◌, if◌then◌else◌};
ghost use Rattle.std.specs.Int.RustNames.{int_lt};
ghost use Rattle.explain_reach.specs.Reaches.{reach_along, reach_of, IsFirstLeast};
ghost use Rattle.explain_reach.specs.Shapes.{HasPoint, moved_box};
ghost use Rattle.swept_boxes.specs.Boxes.{DoMeet};

use swept_boxes::Box3;

/// A direction of space, and how far two boxes reach into each other along it.
#[derive(Clone, Copy, PartialEq, Eq)]
pub struct Way {
    /// The direction: 0, 1, 2 for X, Y, Z.
    pub direction: usize,
    /// The least shift in this direction, in micrometres, by which they would only touch; below 0 by so much they are apart.
    pub shift: i64,
}

/// How far a high bound is above a low one.
fn above(high: i32, low: i32) -> i64
    ensures { result ≡ high -ℤ low }
{
    i64::from(high) - i64::from(low)
}

impl Way {
    ghost use Rattle.std.specs.Prelude.{◌≡◌, ◌<◌};
    ghost use Rattle.explain_reach.specs.Reaches.{reach_along};

    /// How far the boxes `left` and `right` reach into each other along a `direction`, 0 to 2.
    pub fn along(left: &Box3, right: &Box3, direction: usize) -> Way
        requires { direction < 3 }
        ensures direction { result.direction ≡ direction }
        ensures shift { result.shift ≡ reach_along left.now right.now direction }
    {
        let up = above(left.hi[direction], right.lo[direction]);
        let down = above(right.hi[direction], left.lo[direction]);
        Way {
            direction,
            shift: up.min(down),
        }
    }
}

/// Whether two boxes reach further into each other along a direction than a number.
fn is_over_along(number: i64, left: &Box3, right: &Box3, direction: usize) -> bool
    requires { direction < 3 }
    ensures { result ≡ int_lt number (reach_along left.now right.now direction) }
{
    number < Way::along(left, right, direction).shift
}

/// Whether two boxes reach further into each other than a number: they do along each direction.
pub(crate) fn do_reach_over(number: i64, left: &Box3, right: &Box3) -> bool
    ensures { result ≡ int_lt number (reach_of left.now right.now) }
{
    if !is_over_along(number, left, right, 0) {
        return false;
    }
    if !is_over_along(number, left, right, 1) {
        return false;
    }
    is_over_along(number, left, right, 2)
}

/// The lesser of two ways, or the first where they are equal.
fn lesser(one: Way, other: Way) -> Way
    ensures { result ≡ (if int_lt other.shift one.shift then other else one) }
{
    if other.shift < one.shift { other } else { one }
}

/// The first direction along which two boxes reach into each other the least.
fn first_least(left: &Box3, right: &Box3) -> Way
    ensures shift { result.shift ≡ reach_of left.now right.now }
    ensures direction { IsFirstLeast left.now right.now result.direction }
{
    let x = Way::along(left, right, 0);
    let y = Way::along(left, right, 1);
    let z = Way::along(left, right, 2);
    lesser(lesser(x, y), z)
}

/// The first direction along which two boxes reach into each other the least, and how far. Where they are apart it is the one along
/// which they are the farthest.
pub fn least_way(left: &Box3, right: &Box3) -> Way
    ensures shift { result.shift ≡ reach_of left.now right.now }
    ensures direction { IsFirstLeast left.now right.now result.direction }

    // Boxes with points meet where the shift is not below 0, and a shift of no more, along whatever direction, leaves them so.
    ensures meet { HasPoint left.now → HasPoint right.now → (pos 0 ≤ℤ result.shift) ↔ DoMeet left.now right.now }
    ensures kept { HasPoint left.now → HasPoint right.now → (direction : ℕ) (by : ℤ) → direction < 3
        → neg_ℤ result.shift ≤ℤ by → by ≤ℤ result.shift → DoMeet (moved_box left.now direction by) right.now }

    // One micrometre more parts them, forwards or backwards along this direction.
    ensures parted { (DoMeet (moved_box left.now result.direction (result.shift +ℤ pos 1)) right.now → ⊥)
        ⊎ (DoMeet (moved_box left.now result.direction (neg_ℤ (result.shift +ℤ pos 1))) right.now → ⊥) }
{
    first_least(left, right)
}
