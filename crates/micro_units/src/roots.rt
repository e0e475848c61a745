//! Square roots in whole numbers.

ghost use Rattle.std.specs.Prelude.{◌≡◌, ℕ, ◌<◌, ◌≤◌, ◌+◌, ◌*◌, ◌^◌};
ghost use Rattle.micro_units.specs.Root.{floor_root, ceil_root};
ghost use Rattle.micro_units.specs.declared.limits.TheConstants.{NUMBER_LIMIT};

/// The root of `value`, rounded down.
pub fn isqrt_floor(value: u128) -> u64
    requires { value < 2 ^ 120 }
    ensures value { result ≡ floor_root value }
    ensures at_most { result * result ≤ value }
    ensures next { value < (result + 1) * (result + 1) }
{
    value.isqrt() as u64
}

/// The root of `value`, rounded up.
pub fn isqrt_ceil(value: u128) -> u64
    requires { value < 2 ^ 120 }
    ensures value { result ≡ ceil_root value }
    ensures enough { value ≤ result * result }
    ensures least { (k : ℕ) → k < result → k * k < value }
{
    let root = value.isqrt();
    if root * root == value {
        root as u64
    } else {
        root as u64 + 1
    }
}

/// The root of so many millionths, in millionths too, rounded down.
#[tactic(auto, using(crate::proofs::SquareRoots::root_below))]
pub(crate) fn root_of_millionths(millionths: u64) -> u64
    requires { millionths < NUMBER_LIMIT }
    ensures value { result ≡ floor_root (millionths * 1000000) }
    ensures bound { result < 10 ^ 10 }
{
    isqrt_floor(u128::from(millionths) * 1_000_000)
}
