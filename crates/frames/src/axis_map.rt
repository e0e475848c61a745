//! Where a frame sends one axis.

ghost use Rattle.std.specs.Prelude.{◌<◌, ◌≤◌, ◌^◌};
ghost use Rattle.std.specs.Int.RustNames.{unsigned_abs};

use crate::arithmetic::{doubled, in_slot, offset_part, product, rounded, sum, with_sign};
use fault_codes::alarms::{OUT_OF_RANGE, SCALE_NOT_ALLOWED};
use micro_units::{CHANGE_LIMIT, Num, POSITION_LIMIT, Um};

/// Where an axis goes: to the slot, as shift + sign · factor · value.
#[derive(Clone, Copy)]
pub struct AxisMap {
    /// The slot: 0, 1 and 2 for X, Y and Z.
    pub slot: u8,
    /// Whether the sign is a minus.
    pub minus: bool,
    /// The factor in millionths, at most 1000.
    pub factor: u32,
    /// The shift in millionths of millionths of a millimetre, at most 10,000 millimetres in size.
    pub shift: i128,
    ghost slot_below: { slot < 3 },
    ghost factor_positive: { 0 < factor },
    ghost factor_bound: { factor ≤ 1000000000 },
    ghost shift_bound: { unsigned_abs shift ≤ 10 ^ 16 },
}

impl AxisMap {
    ghost use Rattle.std.specs.Prelude.{◌≡◌, ◌*◌, ℤ, pos, ◌+ℤ◌, ◌*ℤ◌, false, unwrap_or};
    ghost use Rattle.micro_units.specs.Rounding.{half_away};
    ghost use Rattle.frames.specs.Places.{GivesPlace};
    ghost use Rattle.frames.specs.Counts.{IsMoved, IsMirrored, GivesMoved, GivesScaled, place_sum, change_sum, shift_when_moved as moved_count};

    /// The axis goes to its own slot unchanged.
    pub(crate) fn unmapped(slot: u8) -> AxisMap
        requires { slot < 3 }
        ensures slot { result.slot ≡ slot }
        ensures minus { result.minus ≡ false }
        ensures factor { result.factor ≡ 1000000 }
        ensures shift { result.shift ≡ pos 0 }
    {
        AxisMap {
            slot,
            minus: false,
            factor: 1_000_000,
            shift: 0,
        }
    }

    /// The axis moved by the value of a word, in millionths of a millimetre, before it goes; or
    /// alarm 13.
    pub(crate) fn shifted(&self, word: Option<Num>) -> Result<AxisMap, u16>
        ensures { GivesMoved self.now (unwrap_or word (pos 0)) result }
    {
        match word {
            Some(value) => self.moved(value.millionths),
            None => self.moved(0),
        }
    }

    /// The same for a value.
    fn moved(&self, by: i64) -> Result<AxisMap, u16>
        ensures { GivesMoved self.now by result }
    {
        let shift = self.moved_shift(by);
        if shift.unsigned_abs() > 10_000_000_000_000_000 {
            return Err(OUT_OF_RANGE);
        }
        Ok(AxisMap {
            slot: self.slot,
            minus: self.minus,
            factor: self.factor,
            shift,
        })
    }

    /// The shift of the axis moved by so many millionths of a millimetre before it goes.
    fn moved_shift(&self, by: i64) -> i128
        ensures { result ≡ moved_count self.now by }
    {
        sum(self.shift, self.signed_product(by))
    }

    /// The factor times so many millionths, with the sign.
    fn signed_product(&self, by: i64) -> i128
        ensures value { result ≡ change_sum self.now by }
        ensures bound { unsigned_abs result ≤ 2 ^ 100 }
    {
        with_sign(self.minus, product(self.factor, by))
    }

    /// The axis multiplied by the value of a word, in millionths, before it goes; or alarm 11.
    pub(crate) fn scaled(&self, word: Option<Num>) -> Result<AxisMap, u16>
        ensures { GivesScaled self.now (unwrap_or word (pos 1000000)) result }
    {
        match word {
            Some(value) => self.multiplied(value.millionths),
            None => self.multiplied(1_000_000),
        }
    }

    /// The same for a value.
    fn multiplied(&self, by: i64) -> Result<AxisMap, u16>
        ensures { GivesScaled self.now by result }
    {
        if by <= 0 || by > 1_000_000_000 || by % 1000 != 0 {
            return Err(SCALE_NOT_ALLOWED);
        }
        let product = u64::from(self.factor) * by as u64;
        if product % 1_000_000 != 0 || product > 1_000_000_000_000_000 {
            return Err(SCALE_NOT_ALLOWED);
        }
        Ok(AxisMap {
            slot: self.slot,
            minus: self.minus,
            factor: (product / 1_000_000) as u32,
            shift: self.shift,
        })
    }

    /// The axis with its sign changed before it goes, where that is asked for.
    pub(crate) fn mirrored(&self, is_changed: bool) -> AxisMap
        ensures { IsMirrored self.now is_changed result }
    {
        AxisMap {
            slot: self.slot,
            minus: self.minus != is_changed,
            factor: self.factor,
            shift: self.shift,
        }
    }

    /// Where half of `twice` millionths of a millimetre goes, with an offset in micrometres; or
    /// alarm 13.
    pub(crate) fn end(&self, twice: i64, offset: Um) -> Result<(u8, Um), u16>
        ensures { GivesPlace self.now.slot (half_away (place_sum self.now twice offset)
            2000000000) POSITION_LIMIT result }
    {
        in_slot(
            self.slot,
            rounded(self.place(twice, offset)),
            POSITION_LIMIT,
        )
    }

    /// That place before it is rounded, in 2,000,000,000ths of a micrometre.
    fn place(&self, twice: i64, offset: Um) -> i128
        ensures value { result ≡ place_sum self.now twice offset }
        ensures bound { unsigned_abs result ≤ 2 ^ 103 }
    {
        sum(self.doubled_place(twice), offset_part(offset))
    }

    /// The same without an offset.
    fn doubled_place(&self, twice: i64) -> i128
        ensures value { result ≡ (pos 2 *ℤ self.now.shift) +ℤ change_sum self.now twice }
        ensures bound { unsigned_abs result ≤ 2 ^ 102 }
    {
        sum(doubled(self.shift), self.signed_product(twice))
    }

    /// By how much the slot goes by half of `twice` millionths of a millimetre; or alarm 13.
    pub(crate) fn change(&self, twice: i64) -> Result<(u8, Um), u16>
        ensures { GivesPlace self.now.slot (half_away (change_sum self.now twice) 2000000000) CHANGE_LIMIT result }
    {
        in_slot(self.slot, rounded(self.signed_product(twice)), CHANGE_LIMIT)
    }
}
