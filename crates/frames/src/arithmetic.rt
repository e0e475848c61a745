//! The steps of exact arithmetic, and the one rounding.

ghost use Rattle.std.specs.Prelude.{◌≡◌, ◌<◌, ◌≤◌, ◌^◌, ◌+◌, ℤ, pos, ◌+ℤ◌, ◌*ℤ◌};
ghost use Rattle.std.specs.Int.RustNames.{unsigned_abs};
ghost use Rattle.micro_units.specs.Rounding.{half_away};
ghost use Rattle.frames.specs.Places.{GivesPlace};
ghost use Rattle.frames.specs.Images.{sign};
ghost use Rattle.micro_units.specs.declared.limits.TheConstants.{CHANGE_LIMIT};

use fault_codes::alarms::OUT_OF_RANGE;
use micro_units::Um;

/// A factor in millionths times a value in millionths.
pub(crate) fn product(factor: u32, value: i64) -> i128
    requires { factor ≤ 1000000000 }
    ensures value { result ≡ pos factor *ℤ value }
    ensures bound { unsigned_abs result ≤ 2 ^ 100 }
{
    i128::from(factor) * i128::from(value)
}

/// The value with this sign.
pub(crate) fn with_sign(minus: bool, value: i128) -> i128
    requires { unsigned_abs value ≤ 2 ^ 100 }
    ensures value { result ≡ sign minus *ℤ value }
    ensures bound { unsigned_abs result ≤ 2 ^ 100 }
{
    if minus { -value } else { value }
}

/// Twice a count.
pub(crate) fn doubled(value: i128) -> i128
    requires { unsigned_abs value ≤ 2 ^ 100 }
    ensures value { result ≡ pos 2 *ℤ value }
    ensures bound { unsigned_abs result ≤ 2 ^ 101 }
{
    2 * value
}

/// The sum of two counts.
pub(crate) fn sum(a: i128, b: i128) -> i128
    requires first { unsigned_abs a ≤ 2 ^ 102 }
    requires second { unsigned_abs b ≤ 2 ^ 100 }
    ensures value { result ≡ a +ℤ b }
    ensures bound { unsigned_abs result ≤ unsigned_abs a + unsigned_abs b }
{
    a + b
}

/// An offset in micrometres, in 2,000,000,000ths.
pub(crate) fn offset_part(offset: Um) -> i128
    ensures value { result ≡ offset *ℤ pos 2000000000 }
    ensures bound { unsigned_abs result ≤ 2 ^ 100 }
{
    i128::from(offset.micrometres) * 2_000_000_000
}

/// The whole count of micrometres nearest to so many 2,000,000,000ths, half away from zero.
#[tactic(auto, unfolding(micro_units::specs::Rounding::half_away))]
pub(crate) fn rounded(numerator: i128) -> i128
    requires { unsigned_abs numerator ≤ 2 ^ 104 }
    ensures { result ≡ half_away numerator 2000000000 }
{
    let size = ((2 * numerator.unsigned_abs() + 2_000_000_000) / 4_000_000_000) as i128;
    if numerator < 0 { -size } else { size }
}

/// The slot and this count of micrometres, or alarm 13 where it is greater in size than it may be.
pub(crate) fn in_slot(slot: u8, micrometres: i128, most: u32) -> Result<(u8, Um), u16>
    requires { most ≤ CHANGE_LIMIT }
    ensures { GivesPlace slot micrometres most result }
{
    if micrometres.unsigned_abs() > u128::from(most) {
        return Err(OUT_OF_RANGE);
    }
    let place = Um {
        micrometres: micrometres as i32,
    };
    Ok((slot, place))
}
