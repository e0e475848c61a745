//! Rounding exact fractions to whole numbers.

ghost use Rattle.std.specs.Prelude.{◌≡◌, ℕ, ◌<◌, ◌≤◌, ◌^◌, ℤ};
ghost use Rattle.std.specs.Int.RustNames.{unsigned_abs};
ghost use Rattle.micro_units.specs.Rounding.{half_away, IsNearest};

/// The whole number nearest to `numerator` / `denominator`, half away from zero.
#[tactic(auto, using(crate::proofs::NearestWhole::bound), unfolding(crate::specs::Rounding::half_away))]
pub(crate) fn rounded(numerator: i128, denominator: u64) -> i128
    requires small { unsigned_abs numerator < 2 ^ 120 }
    requires divides { 0 < denominator }
    ensures value { result ≡ half_away numerator denominator }
    ensures bound { unsigned_abs result ≤ unsigned_abs numerator }
{
    let denominator = u128::from(denominator);
    let size = ((2 * numerator.unsigned_abs() + denominator) / (2 * denominator)) as i128;
    if numerator < 0 { -size } else { size }
}

/// A law: rounding gives the nearest whole number, and of two that are equally near the one
/// farther from zero.
pub fn rounding_is_nearest()
    ensures { (n : ℤ) (d : ℕ) → 0 < d → IsNearest n d (half_away n d) }
{}
