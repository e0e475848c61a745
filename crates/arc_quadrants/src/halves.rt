//! Parts of a quarter, made by cutting it in two again and again.
ghost use Rattle.std.specs.Prelude.{◌≡◌, ◌+◌, ◌<◌, ◌≤◌, ◌*◌, ◌^◌, Some, slice_get};
ghost use Rattle.arc_quadrants.specs.Bounds.{IsDirection};
ghost use Rattle.arc_quadrants.specs.Halves as spec;
ghost use Rattle.arc_quadrants.specs.Halves.{halves, IsShort};

/// How many parts a quarter or a line is cut into at most.
pub const PART_LIMIT: u8 = 16;

/// How many parts there are at a depth, at each level of which every part is cut in two.
#[tactic(auto, using(crate::proofs::HalfLaws::few_parts))]
pub fn parts_at(depth: u8) -> u8
    requires { depth ≤ 4 }
    ensures value { result ≡ 2 ^ depth }
    ensures few { result ≤ PART_LIMIT }
{
    1 << depth
}

/// The direction that is the sum of two directions.
fn middle(a: (u64, u64), b: (u64, u64)) -> (u64, u64)
    requires first { a.0 + b.0 < 2 ^ 64 }
    requires second { a.1 + b.1 < 2 ^ 64 }
    ensures { result ≡ spec.middle a b }
{
    (a.0 + b.0, a.1 + b.1)
}

/// One of the parts of the quarter from one direction to another, at a place in their order, counted from 0: the directions in
/// which it begins and ends.
///
/// At depth 0 there is one part; at each further depth every part is cut in two at the sum of its directions.
#[tactic(auto, using(crate::proofs::HalfLaws::part_steps))]
pub fn part_of_quarter(
    from: (u64, u64),
    to: (u64, u64),
    depth: u8,
    place: u8,
) -> ((u64, u64), (u64, u64))
    requires deep { depth ≤ 4 }
    requires within { place < 2 ^ depth }
    requires from { IsShort depth from }
    requires to { IsShort depth to }
    ensures part { slice_get (halves depth from to) place ≡ Some result }
    ensures directions { IsDirection result.0 × IsDirection result.1 }
{
    if depth == 0 {
        return (from, to);
    }
    let middle = middle(from, to);
    let half = parts_at(depth - 1);
    if place < half {
        part_of_quarter(from, middle, depth - 1, place)
    } else {
        part_of_quarter(middle, to, depth - 1, place - half)
    }
}
