//! The bounds of the part of a ring between two directions of quadrant 0.
ghost use Rattle.std.specs.Prelude.{◌≡◌, ℕ, ◌<◌, ◌≤◌, ◌+◌, ◌-◌, ◌*◌, ◌/◌, ◌^◌, [], ◌∷◌, slice_index};
ghost use Rattle.std.specs.List.{All};
ghost use Rattle.arc_quadrants.specs.Bounds as spec;
ghost use Rattle.micro_units.specs.Root.{ceil_root, floor_root};
ghost use Rattle.arc_quadrants.specs.Bounds.{IsDirection, IsReachDown, IsReachUp, bounds_in_order, bounds_between};

use micro_units::{isqrt_ceil, isqrt_floor};

/// The square of a direction's length.
fn length_square(d: (u64, u64)) -> u64
    requires { IsDirection d }
    ensures value { result ≡ spec.length_square d }
    ensures some { 0 < result }
    ensures small { result < 2 ^ 59 }
    ensures first { d.0 * d.0 ≤ result }
    ensures second { d.1 * d.1 ≤ result }
{
    d.0 * d.0 + d.1 * d.1
}

/// The square of a radius times a part.
#[tactic(auto, using(crate::proofs::ReachLaws::small_squares))]
fn squared(radius: u32, part: u64) -> u128
    requires radius { radius < 33554432 }
    requires part { part < 536870912 }
    ensures value { result ≡ (radius * radius) * (part * part) }
    ensures small { result < 2 ^ 108 }
{
    (radius as u128 * radius as u128) * (part as u128 * part as u128)
}

/// The root of a number, rounded down. The root of one of at most 64 bits, as most are, is found sooner.
fn root_down(value: u128) -> u64
    requires { value < 2 ^ 120 }
    ensures value { result ≡ floor_root value }
    ensures at_most { result * result ≤ value }
    ensures next { value < (result + 1) * (result + 1) }
{
    match u64::try_from(value) {
        Ok(short) => short.isqrt(),
        Err(_) => isqrt_floor(value),
    }
}

/// The root of a number of at most 64 bits, rounded up.
fn root_up_short(value: u64) -> u64
    ensures value { result ≡ ceil_root value }
    ensures enough { value ≤ result * result }
    ensures least { (k : ℕ) → k < result → k * k < value }
{
    let root = value.isqrt();
    if root * root == value { root } else { root + 1 }
}

/// The root of a number, rounded up.
fn root_up(value: u128) -> u64
    requires { value < 2 ^ 120 }
    ensures value { result ≡ ceil_root value }
    ensures enough { value ≤ result * result }
    ensures least { (k : ℕ) → k < result → k * k < value }
{
    match u64::try_from(value) {
        Ok(short) => root_up_short(short),
        Err(_) => isqrt_ceil(value),
    }
}

/// How far a ring of this radius reaches along an axis, rounded down, in a direction with this part and this square of its length.
#[tactic(auto, using(crate::proofs::ReachLaws::root_within), unfolding(crate::specs::Bounds::reach_down))]
fn reach_down(radius: u32, part: u64, square: u64) -> u32
    requires radius { radius < 33554432 }
    requires part { part < 536870912 }
    requires some { 0 < square }
    requires short { part * part ≤ square }
    ensures value { result ≡ spec.reach_down radius part square }
    ensures within { result ≤ radius }
{
    root_down(squared(radius, part) / square as u128) as u32
}

/// A quotient rounded up.
fn quotient_up(whole: u128, square: u64) -> u128
    requires some { 0 < square }
    requires square { square < 2 ^ 59 }
    requires whole { whole < 2 ^ 108 }
    ensures value { result ≡ (whole + (square - 1)) / square }
    ensures small { result < 2 ^ 120 }
{
    (whole + (square as u128 - 1)) / square as u128
}

/// How far a ring of this radius reaches along an axis, rounded up.
#[tactic(auto, unfolding(crate::specs::Bounds::reach_up))]
fn reach_up(radius: u32, part: u64, square: u64) -> u32
    requires radius { radius < 33554432 }
    requires part { part < 536870912 }
    requires some { 0 < square }
    requires small { square < 2 ^ 59 }
    requires short { part * part ≤ square }
    ensures value { result ≡ spec.reach_up radius part square }
    ensures within { result ≤ radius }
{
    root_up(quotient_up(squared(radius, part), square)) as u32
}

/// The bounds of the part of a ring from one direction of quadrant 0 to another, in whole units of the radii: along the first
/// axis the low and the high bound, and the two along the second axis. Low bounds are rounded down and high bounds up.
pub fn quarter_box(inner: u32, outer: u32, from: (u64, u64), to: (u64, u64)) -> [u32; 4]
    requires radii { inner ≤ outer }
    requires outer { outer < 33554432 }
    requires from { IsDirection from }
    requires to { IsDirection to }
    ensures bounds { result ≡ bounds_in_order (bounds_between inner outer from to) }
    ensures u_low { IsReachDown (slice_index result 0) inner to.0 (spec.length_square to) }
    ensures u_high { IsReachUp (slice_index result 1) outer from.0 (spec.length_square from) }
    ensures v_low { IsReachDown (slice_index result 2) inner from.1 (spec.length_square from) }
    ensures v_high { IsReachUp (slice_index result 3) outer to.1 (spec.length_square to) }
    ensures within { All (λ bound. bound ≤ outer) result }
{
    let from_square = length_square(from);
    let to_square = length_square(to);
    [
        reach_down(inner, to.0, to_square),
        reach_up(outer, from.0, from_square),
        reach_down(inner, from.1, from_square),
        reach_up(outer, to.1, to_square),
    ]
}
