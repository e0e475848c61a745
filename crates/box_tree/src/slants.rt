//! Bounds of boxes across two directions: of the sums and of the differences of their places. Boxes along two ways that slant may be
//! apart in these where they are apart in no direction.
ghost use Rattle.std.specs.Prelude.{◌≡◌, ℕ, ◌<◌, ◌≤ℤ◌, pos, negsuc, true, false, slice_index_or};
ghost use Rattle.box_tree.specs.Slants.{AreHeld, HoldsSlant, HoldsSlants};
ghost use Rattle.swept_boxes.specs.Boxes.{TouchIn, boxes_meet};
ghost use Rattle.swept_boxes.specs.declared.Box3.{Box3};

use swept_boxes::Box3;

/// The bounds of sums and of differences in two directions.
#[derive(Clone, Copy)]
pub(crate) struct Slant {
    /// Not above the least sum.
    pub(crate) sum_low: i64,
    /// Not below the greatest sum.
    pub(crate) sum_high: i64,
    /// Not above the least difference.
    pub(crate) low: i64,
    /// Not below the greatest difference.
    pub(crate) high: i64,
}

/// These bounds for each two of the three directions.
#[derive(Clone, Copy)]
pub(crate) struct Slants {
    /// Of the first and the second.
    pub(crate) xy: Slant,
    /// Of the first and the third.
    pub(crate) xz: Slant,
    /// Of the second and the third.
    pub(crate) yz: Slant,
}

/// The bounds of no box.
const NO_SLANT: Slant = Slant {
    sum_low: i64::MAX,
    sum_high: i64::MIN,
    low: i64::MAX,
    high: i64::MIN,
};

/// The lesser of two numbers.
fn lesser(one: i64, two: i64) -> i64
    ensures one { result ≤ℤ one }
    ensures two { result ≤ℤ two }
{
    if one < two { one } else { two }
}

/// The greater of two numbers.
fn greater(one: i64, two: i64) -> i64
    ensures one { one ≤ℤ result }
    ensures two { two ≤ℤ result }
{
    if one < two { two } else { one }
}

/// A bound of a box, in a type with room for sums.
fn bound_at(bounds: &[i32; 3], direction: usize) -> i64
    requires { direction < 3 }
    ensures value { result ≡ slice_index_or bounds.now direction (pos 0) }
    ensures low { negsuc 2147483647 ≤ℤ result }
    ensures high { result ≤ℤ pos 2147483647 }
{
    i64::from(bounds[direction])
}

/// The bounds of a box.
fn slant_of(own: &Box3, one: usize, two: usize) -> Slant
    requires one { one < 3 }
    requires two { two < 3 }
    ensures { HoldsSlant own.now one two result }
{
    let low = bound_at(&own.lo, one);
    let high = bound_at(&own.hi, one);
    let other_low = bound_at(&own.lo, two);
    let other_high = bound_at(&own.hi, two);
    Slant {
        sum_low: low + other_low,
        sum_high: high + other_high,
        low: low - other_high,
        high: high - other_low,
    }
}

/// The bounds of what two hold.
fn joined_slant(left: &Slant, right: &Slant) -> Slant
    ensures left { (own : Box3) (one two : ℕ) → HoldsSlant own one two left.now → HoldsSlant own one two result }
    ensures right { (own : Box3) (one two : ℕ) → HoldsSlant own one two right.now → HoldsSlant own one two result }
{
    Slant {
        sum_low: lesser(left.sum_low, right.sum_low),
        sum_high: greater(left.sum_high, right.sum_high),
        low: lesser(left.low, right.low),
        high: greater(left.high, right.high),
    }
}

/// The bounds of some boxes.
pub(crate) fn slants_of(boxes: &[Box3]) -> Slants
    ensures { AreHeld boxes.now result }
{
    let mut xy = NO_SLANT;
    let mut xz = NO_SLANT;
    let mut yz = NO_SLANT;
    for own in boxes {
        xy = joined_slant(&xy, &slant_of(own, 0, 1));
        xz = joined_slant(&xz, &slant_of(own, 0, 2));
        yz = joined_slant(&yz, &slant_of(own, 1, 2));
    }
    Slants { xy, xz, yz }
}

/// Whether boxes with these bounds are apart in the sums or in the differences.
fn are_aslant(left: &Slant, right: &Slant) -> bool
    ensures { result ≡ true → (own other : Box3) (one two : ℕ) → HoldsSlant own one two left.now
        → HoldsSlant other one two right.now
        → TouchIn own other one → TouchIn own other two → ⊥ }
{
    if left.sum_high < right.sum_low {
        return true;
    }
    if right.sum_high < left.sum_low {
        return true;
    }
    if left.high < right.low {
        return true;
    }
    right.high < left.low
}

/// Whether boxes with these bounds are apart in some two directions.
pub(crate) fn pass_aslant(left: &Slants, right: &Slants) -> bool
    ensures { result ≡ true → (own other : Box3) → HoldsSlants own left.now → HoldsSlants other right.now
        → boxes_meet own other ≡ false }
{
    if are_aslant(&left.xy, &right.xy) {
        return true;
    }
    if are_aslant(&left.xz, &right.xz) {
        return true;
    }
    are_aslant(&left.yz, &right.yz)
}
