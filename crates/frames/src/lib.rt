//! Frames: where the programmed axes go by shifts, factors, mirrors and turns of the plane.
//!
//! A frame stands for a chain of maps. It keeps their composition alone: for each axis a slot, a
//! sign, a factor and a shift, all of them exact.
#![tactic(auto)]

ghost use Rattle.std.specs.Prelude.{◌≡◌, ℕ, ◌<◌, ℤ, pos, ◌*ℤ◌, ◌<ℤ◌, ◌≤ℤ◌, List, [], ◌∷◌, true, false, OnErr, unwrap_or};
ghost use Rattle.frames.specs.Maps.{Map, turning, mapped_point, quarters_in as quarters_of};
ghost use Rattle.frames.specs.Images.{image_of};
ghost use Rattle.frames.specs.Faults.{is_square_angle};
ghost use Rattle.frames.specs.Composition.{IsComposed, IsExtended, GivesComposed, Joins, Adds, shifts, scales, mirrors, turns, axis_of};
ghost use Rattle.frames.specs.Places.{programmed_point, end_at, change_of, GivesPlace};
ghost use Rattle.frames.specs.Turns.{IsTurned, IsTurnedFirst, IsTurnedSecond};
ghost use Rattle.micro_units.specs.declared.limits.TheConstants.{POSITION_LIMIT, CHANGE_LIMIT};

mod arithmetic;
mod axis_map;
mod laws;

pub use axis_map::AxisMap;
use fault_codes::alarms::NO_QUARTER_TURN;
pub use laws::{image_is_of_the_chain, shifts_add_up, turns_and_mirrors_end};
use micro_units::{Num, Um};

/// A plane, with the two axes in which it turns from the first towards the second.
#[derive(Clone, Copy, PartialEq, Eq)]
pub enum Plane {
    /// X and Y.
    G17,
    /// Z and X.
    G18,
    /// Y and Z.
    G19,
}

/// Where the programmed axes go: the composition of a chain of maps. A point goes through the last
/// map of the chain first.
#[derive(Clone, Copy)]
pub struct Frame {
    /// Where X goes.
    pub x: AxisMap,
    /// Where Y goes.
    pub y: AxisMap,
    /// Where Z goes.
    pub z: AxisMap,
}

impl Frame {
    /// The frame of no map.
    pub fn empty() -> Frame
        ensures { IsComposed [] result }
    {
        Frame {
            x: AxisMap::unmapped(0),
            y: AxisMap::unmapped(1),
            z: AxisMap::unmapped(2),
        }
    }

    /// Empties the frame, then moves each axis by its value in millimetres.
    ///
    /// Alarm 13: a composed shift is more than 10,000 millimetres in size.
    pub fn trans(&mut self, values: [Option<Num>; 3]) -> Result<(), u16>
        ensures adds { Adds [] (shifts 0 values) result self.new }
        ensures unchanged { OnErr result (self.new ≡ self.old) }
    {
        *self = Frame::empty().with_shifts(values)?;
        Ok(())
    }

    /// Moves each axis by its value in millimetres, before all maps that were there. With no value
    /// nothing changes.
    ///
    /// Alarm 13: a composed shift is more than 10,000 millimetres in size.
    pub fn atrans(&mut self, values: [Option<Num>; 3]) -> Result<(), u16>
        ensures adds { (chain : List Map) → IsComposed chain self.old → Adds chain (shifts 0 values) result self.new }
        ensures unchanged { OnErr result (self.new ≡ self.old) }
    {
        *self = self.with_shifts(values)?;
        Ok(())
    }

    /// Empties the frame, then multiplies each axis by its value.
    ///
    /// Alarm 11: a value is no positive multiple of 0.001 or is above 1000.
    pub fn scale(&mut self, values: [Option<Num>; 3]) -> Result<(), u16>
        ensures adds { Adds [] (scales 0 values) result self.new }
        ensures unchanged { OnErr result (self.new ≡ self.old) }
    {
        *self = Frame::empty().with_scales(values)?;
        Ok(())
    }

    /// Multiplies each axis by its value, before all maps that were there. With no value nothing
    /// changes.
    ///
    /// Alarm 11: a value is no positive multiple of 0.001 or is above 1000, or a composed factor is
    /// no whole count of millionths or is above 1000.
    pub fn ascale(&mut self, values: [Option<Num>; 3]) -> Result<(), u16>
        ensures adds { (chain : List Map) → IsComposed chain self.old → Adds chain (scales 0 values) result self.new }
        ensures unchanged { OnErr result (self.new ≡ self.old) }
    {
        *self = self.with_scales(values)?;
        Ok(())
    }

    /// Empties the frame, then changes the sign of each axis that has a value. The value is not used.
    pub fn mirror(&mut self, values: [Option<Num>; 3]) -> Result<(), u16>
        ensures adds { Adds [] (mirrors 0 values) result self.new }
        ensures unchanged { OnErr result (self.new ≡ self.old) }
    {
        *self = Frame::empty().with_mirrors(values);
        Ok(())
    }

    /// Changes the sign of each axis that has a value, before all maps that were there. The value
    /// is not used. With no value nothing changes.
    pub fn amirror(&mut self, values: [Option<Num>; 3]) -> Result<(), u16>
        ensures adds { (chain : List Map) → IsComposed chain self.old → Adds chain (mirrors 0 values) result self.new }
        ensures unchanged { OnErr result (self.new ≡ self.old) }
    {
        *self = self.with_mirrors(values);
        Ok(())
    }

    /// Empties the frame, then turns the plane by this angle in degrees.
    ///
    /// Alarm 12: the angle is no multiple of 90.
    pub fn rot(&mut self, plane: Plane, rpl: Option<Num>) -> Result<(), u16>
        ensures adds { Adds [] (turns plane rpl) result self.new }
        ensures unchanged { OnErr result (self.new ≡ self.old) }
    {
        *self = Frame::empty().with_turn(plane, rpl)?;
        Ok(())
    }

    /// Turns the plane by this angle in degrees, before all maps that were there. With no angle
    /// nothing changes.
    ///
    /// Alarm 12: the angle is no multiple of 90.
    pub fn arot(&mut self, plane: Plane, rpl: Option<Num>) -> Result<(), u16>
        ensures adds { (chain : List Map) → IsComposed chain self.old → Adds chain (turns plane rpl) result self.new }
        ensures unchanged { OnErr result (self.new ≡ self.old) }
    {
        *self = self.with_turn(plane, rpl)?;
        Ok(())
    }

    /// The slot of an axis, 0, 1 and 2 for X, Y and Z, and where it ends in micrometres, rounded
    /// once: the chain's place of the value, of which `twice` is the double in millionths of a
    /// millimetre, and the settable offset of the slot. With `incremental`, by how much the slot
    /// changes; the offset is not used.
    ///
    /// Alarm 13: the end is no position, or the change is more than `CHANGE_LIMIT` micrometres in
    /// size.
    pub fn point(
        &self,
        axis: u8,
        twice: i64,
        offset: Um,
        incremental: bool,
    ) -> Result<(u8, Um), u16>
        requires { axis < 3 }
        ensures absolute { (chain : List Map) (values : ℕ → ℤ) → IsComposed chain self.now
            → incremental ≡ false → values axis ≡ twice
            → let slot = (image_of chain axis).slot in
            GivesPlace slot (end_at (mapped_point chain (programmed_point values)) slot offset) POSITION_LIMIT result }
        ensures change { (chain : List Map) → IsComposed chain self.now → incremental ≡ true
            → GivesPlace (image_of chain axis).slot (change_of (image_of chain axis) twice) CHANGE_LIMIT result }
    {
        let map = self.axis(axis);
        if incremental {
            map.change(twice)
        } else {
            map.end(twice, offset)
        }
    }

    /// The slot of an axis, 0, 1 and 2 for X, Y and Z, whether it goes there with a minus, and by
    /// which factor.
    pub fn image(&self, axis: u8) -> (u8, bool, Num)
        requires { axis < 3 }
        ensures in_range { (result.0 < 3) × (pos 0 <ℤ result.2) × (result.2 ≤ℤ pos 1000000000) }
        ensures slot { (chain : List Map) → IsComposed chain self.now → result.0 ≡ (image_of chain axis).slot }
        ensures sign { (chain : List Map) → IsComposed chain self.now → result.1 ≡ (image_of chain axis).minus }
        ensures factor { (chain : List Map) → IsComposed chain self.now
            → let image = image_of chain axis in
            result.2 *ℤ pos image.under ≡ image.factor *ℤ pos 1000000 }
    {
        let map = self.axis(axis);
        let factor = Num {
            millionths: i64::from(map.factor),
        };
        (map.slot, map.minus, factor)
    }

    /// Where an axis goes.
    fn axis(&self, axis: u8) -> &AxisMap
        requires { axis < 3 }
        ensures { result.now ≡ axis_of self.now axis }
    {
        match axis {
            0 => &self.x,
            1 => &self.y,
            _ => &self.z,
        }
    }

    /// The frame with more shifts at the end of its chain.
    fn with_shifts(&self, values: [Option<Num>; 3]) -> Result<Frame, u16>
        ensures { (chain : List Map) → IsComposed chain self.now
            → GivesComposed chain (shifts 0 values) result }
    {
        let [x, y, z] = values;
        joined(self.x.shifted(x), self.y.shifted(y), self.z.shifted(z))
    }

    /// The frame with more factors at the end of its chain.
    fn with_scales(&self, values: [Option<Num>; 3]) -> Result<Frame, u16>
        ensures { (chain : List Map) → IsComposed chain self.now
            → GivesComposed chain (scales 0 values) result }
    {
        let [x, y, z] = values;
        joined(self.x.scaled(x), self.y.scaled(y), self.z.scaled(z))
    }

    /// The frame with more mirrors at the end of its chain.
    fn with_mirrors(&self, values: [Option<Num>; 3]) -> Frame
        ensures { (chain : List Map) → IsComposed chain self.now
            → IsExtended chain (mirrors 0 values) result }
    {
        let [x, y, z] = values;
        Frame {
            x: self.x.mirrored(x.is_some()),
            y: self.y.mirrored(y.is_some()),
            z: self.z.mirrored(z.is_some()),
        }
    }

    /// The frame with a turn at the end of its chain.
    fn with_turn(&self, plane: Plane, rpl: Option<Num>) -> Result<Frame, u16>
        ensures { (chain : List Map) → IsComposed chain self.now
            → GivesComposed chain (turns plane rpl) result }
    {
        match rpl {
            Some(angle) => self.turned_by(plane, angle.millionths),
            None => Ok(*self),
        }
    }

    /// The frame with a turn by so many millionths of a degree at the end of its chain.
    fn turned_by(&self, plane: Plane, angle: i64) -> Result<Frame, u16>
        ensures { (chain : List Map) → IsComposed chain self.now
            → GivesComposed chain (turning plane angle ∷ []) result }
    {
        if !is_square(angle) {
            return Err(NO_QUARTER_TURN);
        }
        Ok(self.turned(plane, quarters_in(angle)))
    }

    /// The frame with so many turns of 90 degrees at the end of its chain.
    fn turned(&self, plane: Plane, quarters: u8) -> Frame
        requires { quarters < 4 }
        ensures { IsTurned self.now plane quarters result }
    {
        match plane {
            Plane::G17 => {
                let (x, y) = turned_pair(self.x, self.y, quarters);
                Frame { x, y, z: self.z }
            }
            Plane::G18 => {
                let (z, x) = turned_pair(self.z, self.x, quarters);
                Frame { x, y: self.y, z }
            }
            Plane::G19 => {
                let (y, z) = turned_pair(self.y, self.z, quarters);
                Frame { x: self.x, y, z }
            }
        }
    }
}

/// The two axes of a plane after so many turns of 90 degrees.
fn turned_pair(first: AxisMap, second: AxisMap, quarters: u8) -> (AxisMap, AxisMap)
    requires { quarters < 4 }
    ensures first { IsTurnedFirst first second quarters result.0 }
    ensures second { IsTurnedSecond first second quarters result.1 }
{
    match quarters {
        0 => (first, second),
        1 => (second, first.mirrored(true)),
        2 => (first.mirrored(true), second.mirrored(true)),
        _ => (second.mirrored(true), first),
    }
}

/// Whether an angle in millionths of a degree is a multiple of 90 degrees.
fn is_square(angle: i64) -> bool
    ensures { result ≡ is_square_angle angle }
{
    angle.unsigned_abs() % 90_000_000 == 0
}

/// How many turns of 90 degrees an angle in millionths of a degree is, whole turns left out.
fn quarters_in(angle: i64) -> u8
    ensures value { result ≡ quarters_of angle }
    ensures bound { result < 4 }
{
    (angle.rem_euclid(360_000_000) / 90_000_000) as u8
}

/// The frame of three axes, or the alarm of the first that has one.
fn joined(
    x: Result<AxisMap, u16>,
    y: Result<AxisMap, u16>,
    z: Result<AxisMap, u16>,
) -> Result<Frame, u16>
    ensures { Joins x y z result }
{
    Ok(Frame {
        x: x?,
        y: y?,
        z: z?,
    })
}
