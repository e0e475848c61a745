//! Numbers of part programs: whole millionths, and positions in whole micrometres.
#![tactic(auto)]

ghost use Rattle.std.specs.Prelude.{◌≡◌, ◌≢◌, ◌<◌, ◌≤◌, ◌*◌, ◌^◌, pos, ◌+ℤ◌, ◌-ℤ◌, ◌≤ℤ◌, MatchOption, IfOk, Err};
ghost use Rattle.std.specs.Int.RustNames.{unsigned_abs};

mod digits;
mod limits;
mod roots;
mod rounding;
mod threads;

use digits::{Digits, digits_in};
pub use limits::{BOUND_LIMIT, CHANGE_LIMIT, NUMBER_LIMIT, POSITION_LIMIT, is_position};
use roots::root_of_millionths;
pub use roots::{isqrt_ceil, isqrt_floor};
use rounding::rounded;
pub use rounding::rounding_is_nearest;
use std::marker::Model;
use thiserror::Error;

/// A number of a part program, a whole count of millionths, at most 99,999,999.999999 in size.
///
/// A contract sees it as this count.
#[derive(Clone, Copy, Debug, PartialEq, Eq)]
pub struct Num {
    /// The count of millionths.
    pub millionths: i64,
}

impl Model for Num {
    ghost use Rattle.std.specs.Prelude.{ℤ, ◌<◌};
    ghost use Rattle.std.specs.Int.RustNames.{unsigned_abs};
    ghost use Rattle.micro_units.specs.declared.limits.TheConstants.{NUMBER_LIMIT};

    ghost Value = { ℤ };

    ghost view = { λ n. n.millionths };

    ghost invariant = { λ n. unsigned_abs n.millionths < NUMBER_LIMIT };

    ghost inverse = { λ z. record { millionths = z } };
}

/// A position, a length or a bound in whole micrometres, at most `BOUND_LIMIT` in size.
///
/// A contract sees it as this count.
#[derive(Clone, Copy, PartialEq, Eq)]
pub struct Um {
    /// The count of micrometres.
    pub micrometres: i32,
}

impl Model for Um {
    ghost use Rattle.std.specs.Prelude.{ℤ, ◌≤◌};
    ghost use Rattle.std.specs.Int.RustNames.{unsigned_abs};
    ghost use Rattle.micro_units.specs.declared.limits.TheConstants.{BOUND_LIMIT};

    ghost Value = { ℤ };

    ghost view = { λ u. u.micrometres };

    ghost invariant = { λ u. unsigned_abs u.micrometres ≤ BOUND_LIMIT };

    ghost inverse = { λ z. record { micrometres = z } };
}

/// Why a number can't be had.
#[derive(Clone, Copy, Debug, PartialEq, Eq, Error)]
pub enum NumFault {
    /// The text is not of the form of a number.
    #[error("not a number")]
    NotANumber,
    /// The result is out of range.
    #[error("number too large")]
    TooLarge,
    /// The divisor is zero.
    #[error("division by zero")]
    DivideByZero,
    /// The root of a negative number.
    #[error("root of a negative number")]
    NegativeRoot,
}

impl Default for Num {
    ghost is_default = { λ n. n ≡ pos 0 };

    fn default() -> Self {
        Num { millionths: 0 }
    }
}

impl Default for Um {
    ghost is_default = { λ n. n ≡ pos 0 };

    fn default() -> Self {
        Um { micrometres: 0 }
    }
}

impl Num {
    ghost use Rattle.micro_units.specs.Num.{GivesNum, GivesUm, GivesQuotient, GivesRemainder, GivesRoot};
    ghost use Rattle.micro_units.specs.Arithmetic.{product, rounded_ratio, quotient, whole_quotient, remainder};
    ghost use Rattle.micro_units.specs.Arithmetic.{square_root, IsGreatestRoot, whole_part, nearest_whole};
    ghost use Rattle.micro_units.specs.NumberText.{number_of};
    ghost use Rattle.micro_units.specs.Rounding.{half_away};

    /// The number of so many millionths.
    fn from_millionths(millionths: i128) -> Result<Num, NumFault>
        ensures { GivesNum millionths result }
    {
        if millionths.unsigned_abs() < u128::from(NUMBER_LIMIT) {
            Ok(Num {
                millionths: millionths as i64,
            })
        } else {
            Err(NumFault::TooLarge)
        }
    }

    /// The number nearest to so many millionths, given as a fraction; half away from zero.
    fn from_fraction(numerator: i128, denominator: u64) -> Result<Num, NumFault>
        requires small { unsigned_abs numerator < 2 ^ 120 }
        requires divides { 0 < denominator }
        ensures { GivesNum (half_away numerator denominator) result }
    {
        Num::from_millionths(rounded(numerator, denominator))
    }

    /// The number that these digits write, rounded half away from zero.
    #[tactic(auto, using(crate::proofs::Decimals::power_least))]
    fn from_digits(digits: Digits) -> Result<Num, NumFault>
        ensures { GivesNum (half_away (pos (digits.number * 1000000)) (10 ^ digits.decimals)) result }
    {
        let power = 10u64.pow(digits.decimals);
        Num::from_fraction(i128::from(digits.number) * 1_000_000, power)
    }

    /// Reads digits with at most one point among, before or after them, and no sign, rounded once
    /// to millionths. Any other text is `NotANumber`; a number out of range is `TooLarge`.
    pub fn parse(text: &[u8]) -> Result<Num, NumFault>
        ensures { MatchOption (number_of text.now)
            (result ≡ Err NumFault.NotANumber)
            (λ value. GivesNum value result) }
    {
        match digits_in(text) {
            Some(digits) => Num::from_digits(digits),
            None => Err(NumFault::NotANumber),
        }
    }

    /// The sum, or `TooLarge` where it is out of range.
    pub fn add(self, other: Num) -> Result<Num, NumFault>
        ensures { GivesNum (self +ℤ other) result }
    {
        Num::from_millionths(i128::from(self.millionths) + i128::from(other.millionths))
    }

    /// The difference, or `TooLarge` where it is out of range.
    pub fn sub(self, other: Num) -> Result<Num, NumFault>
        ensures { GivesNum (self -ℤ other) result }
    {
        Num::from_millionths(i128::from(self.millionths) - i128::from(other.millionths))
    }

    /// The product, rounded once to millionths, or `TooLarge` where it is out of range.
    #[tactic(auto, unfolding(crate::specs::Arithmetic::product))]
    pub fn mul(self, other: Num) -> Result<Num, NumFault>
        ensures { GivesNum (product self other) result }
    {
        Num::from_fraction(
            i128::from(self.millionths) * i128::from(other.millionths),
            1_000_000,
        )
    }

    /// The quotient, rounded once to millionths: `DivideByZero` where `other` is 0, `TooLarge`
    /// where the quotient is out of range.
    #[tactic(auto, unfolding(crate::specs::Arithmetic::quotient))]
    pub fn div(self, other: Num) -> Result<Num, NumFault>
        ensures { GivesQuotient other (quotient self other) result }
    {
        Num::from_ratio(i128::from(self.millionths) * 1_000_000, other.millionths)
    }

    /// The number nearest to so many millionths, given as a fraction with any divisor.
    #[tactic(auto, unfolding(crate::specs::Arithmetic::rounded_ratio))]
    fn from_ratio(numerator: i128, divisor: i64) -> Result<Num, NumFault>
        requires { unsigned_abs numerator < 2 ^ 120 }
        ensures { GivesQuotient divisor (rounded_ratio numerator divisor) result }
    {
        if divisor > 0 {
            Num::from_fraction(numerator, divisor.unsigned_abs())
        } else if divisor < 0 {
            Num::from_fraction(-numerator, divisor.unsigned_abs())
        } else {
            Err(NumFault::DivideByZero)
        }
    }

    /// The whole part of the quotient, towards zero: `DivideByZero` where `other` is 0, `TooLarge`
    /// where it is out of range.
    #[tactic(auto, unfolding(crate::specs::Arithmetic::whole_quotient))]
    pub fn whole_div(self, other: Num) -> Result<Num, NumFault>
        ensures { GivesQuotient other (whole_quotient self other) result }
    {
        match self.millionths.checked_div(other.millionths) {
            Some(quotient) => Num::from_millionths(i128::from(quotient) * 1_000_000),
            None => Err(NumFault::DivideByZero),
        }
    }

    /// What is left over by the whole part of the quotient, also where that is out of range; it has
    /// the sign of this number. `DivideByZero` where `other` is 0.
    #[tactic(auto, unfolding(crate::specs::Arithmetic::remainder))]
    pub fn modulo(self, other: Num) -> Result<Num, NumFault>
        ensures { GivesRemainder other (remainder self other) result }
    {
        match self.millionths.checked_rem(other.millionths) {
            Some(millionths) => Ok(Num { millionths }),
            None => Err(NumFault::DivideByZero),
        }
    }

    /// The root, rounded down to millionths, or `NegativeRoot` where this number is below 0.
    pub fn sqrt(self) -> Result<Num, NumFault>
        ensures value { GivesRoot self (square_root self) result }
        ensures greatest { IfOk result (λ r. IsGreatestRoot self r) }
    {
        if self.millionths < 0 {
            return Err(NumFault::NegativeRoot);
        }
        Ok(self.root())
    }

    /// The root of a number that is not below zero.
    fn root(self) -> Num
        requires { pos 0 ≤ℤ self }
        ensures value { result ≡ square_root self }
        ensures greatest { IsGreatestRoot self result }
    {
        let root = root_of_millionths(self.millionths.unsigned_abs());
        Num {
            millionths: root as i64,
        }
    }

    /// The nearest whole number, half away from zero, or `TooLarge` where it is out of range.
    #[tactic(auto, unfolding(crate::specs::Arithmetic::nearest_whole))]
    pub fn round(self) -> Result<Num, NumFault>
        ensures { GivesNum (nearest_whole self) result }
    {
        Num::from_millionths(rounded(i128::from(self.millionths), 1_000_000) * 1_000_000)
    }

    /// The whole part, towards zero.
    #[tactic(auto, unfolding(crate::specs::Arithmetic::whole_part))]
    pub fn trunc(self) -> Num
        ensures { result ≡ whole_part self }
    {
        Num {
            millionths: self.millionths / 1_000_000 * 1_000_000,
        }
    }

    /// This number of millimetres, rounded once to whole micrometres, or `TooLarge` where that is
    /// more than `CHANGE_LIMIT` in size.
    pub fn to_um(self) -> Result<Um, NumFault>
        ensures { GivesUm (half_away self 1000) result }
    {
        Um::from_micrometres(rounded(i128::from(self.millionths), 1000))
    }

    /// Half of this number of millimetres, as of a diameter, rounded once to whole micrometres, or
    /// `TooLarge` where that is more than `CHANGE_LIMIT` in size.
    pub fn half_to_um(self) -> Result<Um, NumFault>
        ensures { GivesUm (half_away self 2000) result }
    {
        Um::from_micrometres(rounded(i128::from(self.millionths), 2000))
    }
}

impl Um {
    ghost use Rattle.micro_units.specs.Num.{GivesUm};

    /// The length of so many micrometres.
    fn from_micrometres(micrometres: i128) -> Result<Um, NumFault>
        ensures { GivesUm micrometres result }
    {
        if micrometres.unsigned_abs() <= u128::from(CHANGE_LIMIT) {
            Ok(Um {
                micrometres: micrometres as i32,
            })
        } else {
            Err(NumFault::TooLarge)
        }
    }
}
