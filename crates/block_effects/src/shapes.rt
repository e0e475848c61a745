//! Blocks of frames.

ghost use Rattle.std.specs.Prelude.{◌≡◌, All, List, OnErr, map, Some, slice_set};
ghost use Rattle.frames.specs.Composition.{IsComposed};
ghost use Rattle.frames.specs.Maps.{Map};
ghost use Rattle.nc_blocks.specs.Indices.{EntryFits, OptionFits};
ghost use Rattle.nc_blocks.specs.Statement.{frame_entry, tree_option};
ghost use Rattle.block_effects.specs.Courses.{Shapes};
ghost use Rattle.block_effects.specs.Shapes as model;
ghost use Rattle.block_effects.specs.Words.{values_in};

use crate::parameters::Parameters;
use crate::progress::option_read;
use frames::{Frame, Plane};
use micro_units::Num;
use nc_blocks::FrameWord;
use nc_expressions::{Expr, eval};

/// Puts the value of X, Y or Z in its place.
#[tactic(auto, using(std::proofs::lemmas::List::set_past))]
fn put(row: &mut [Option<Num>; 3], axis: u8, value: Num)
    ensures { row.new ≡ slice_set row.old axis (Some value) }
{
    if axis < 3 {
        row[usize::from(axis)] = Some(value);
    }
}

/// The values of the words X, Y and Z, or the first alarm.
#[tactic(auto, unfolding(crate::specs::Shapes::no_values))]
fn values_of(parameters: &Parameters, words: &[(u8, Expr)]) -> Result<[Option<Num>; 3], u16>
    requires { All EntryFits (map frame_entry words.now) }
    ensures { result ≡ model.values_done (values_in parameters.now) model.no_values (map frame_entry words.now) }
{
    let mut row = [None; 3];
    for word in words {
        let value = eval(&word.1, parameters)?;
        put(&mut row, word.0, value);
    }
    Ok(row)
}

/// Shapes the frame by a word with these values, or answers its alarm.
#[tactic(auto, using(crate::proofs::FrameSteps::adds_shapes), unfolding(crate::specs::Shapes::shape_chain))]
fn shape_by(frame: &mut Frame, word: FrameWord, values: [Option<Num>; 3]) -> Result<(), u16>
    ensures shapes { (chain : List Map) → IsComposed chain frame.old
        → Shapes (model.shape_chain chain word values) result frame.new }
    ensures unchanged { OnErr result (frame.new ≡ frame.old) }
{
    match word {
        FrameWord::Trans => frame.trans(values),
        FrameWord::Atrans => frame.atrans(values),
        FrameWord::Scale => frame.scale(values),
        FrameWord::Ascale => frame.ascale(values),
        FrameWord::Mirror => frame.mirror(values),
        FrameWord::Amirror => frame.amirror(values),
    }
}

/// A block of TRANS, SCALE or MIRROR, or one that adds to the frame.
pub(crate) fn shape(
    parameters: &Parameters,
    frame: &mut Frame,
    word: FrameWord,
    words: &[(u8, Expr)],
) -> Result<(), u16>
    requires { All EntryFits (map frame_entry words.now) }
    ensures shapes { (chain : List Map) → IsComposed chain frame.old
        → Shapes (model.shaped_by (values_in parameters.now) chain word (map frame_entry words.now)) result frame.new }
    ensures unchanged { OnErr result (frame.new ≡ frame.old) }
{
    let values = values_of(parameters, words)?;
    shape_by(frame, word, values)
}

/// Turns the frame, or answers the alarm.
#[tactic(auto, using(crate::proofs::FrameSteps::adds_shapes), unfolding(crate::specs::Shapes::turn_chain))]
fn turn_by(frame: &mut Frame, plane: Plane, additive: bool, angle: Option<Num>) -> Result<(), u16>
    ensures shapes { (chain : List Map) → IsComposed chain frame.old
        → Shapes (model.turn_chain chain plane additive angle) result frame.new }
    ensures unchanged { OnErr result (frame.new ≡ frame.old) }
{
    if additive {
        frame.arot(plane, angle)
    } else {
        frame.rot(plane, angle)
    }
}

/// A block of ROT or AROT.
pub(crate) fn turn(
    parameters: &Parameters,
    frame: &mut Frame,
    plane: Plane,
    additive: bool,
    angle: &Option<Expr>,
) -> Result<(), u16>
    requires { OptionFits (tree_option angle.now) }
    ensures shapes { (chain : List Map) → IsComposed chain frame.old
        → Shapes (model.turned_by (values_in parameters.now) chain plane additive (tree_option angle.now)) result
        frame.new }
    ensures unchanged { OnErr result (frame.new ≡ frame.old) }
{
    let angle = option_read(parameters, angle)?;
    turn_by(frame, plane, additive, angle)
}
