//! The words of a block, one by one.

ghost use Rattle.std.specs.Prelude.{◌≡◌, ◌≤◌, ◌<◌, ℕ, ℤ, List, IfSome, MatchResult, false, length, Ok, Err};
ghost use Rattle.nc_blocks.specs.AxisNames.{slot_named};
ghost use Rattle.nc_blocks.specs.Indices.{WordFits, OptionFits, OperandFits};
ghost use Rattle.nc_blocks.specs.Statement.{word_view, operand_view, tree_option};
ghost use Rattle.block_effects.specs.Words as model;
ghost use Rattle.block_effects.specs.Words.{edges_of, progress_of, Acts, ActsOn, Aims, Curves, IsPut, IsUndoneSome, TellsOfMoves};
ghost use Rattle.tool_offsets.specs.Choices.{Choice, in_use_after};
ghost use Rattle.block_effects.specs.Courses.{equipment_of};

use crate::choices::tool_after;
use crate::course::Setup;
use crate::parameters::{Change, Parameters};
use axis_sets::{AXIS_LIMIT, AxisId};
use block_motions::{ArcWords, ChannelAxes, Programmed, Targets};
use fault_codes::alarms::{ADDRESS_TWICE, GEOMETRY_AXIS_BY_NAME, NO_SUCH_AXIS};
use micro_units::Num;
use nc_blocks::{Operand, Word, slot_named};
use nc_expressions::{Expr, eval};
use path_geometry::Motion;
use tool_offsets::ToolInUse;

/// What the words of a block have done so far, besides what they gave parameters.
#[derive(Drop)]
pub(crate) struct WordsDone {
    /// The values that are programmed for axes.
    pub(crate) targets: Targets,
    /// The words of an arc.
    pub(crate) arc: ArcWords,
    /// The tool in use.
    pub(crate) tool: ToolInUse,
    /// Whether a word was one of an axis or an arc: where this is false, nothing is programmed.
    pub(crate) moves: bool,
    /// Whether the program ends after the block.
    pub(crate) ends: bool,
    /// The motion of the block, once its last word has acted.
    pub(crate) motion: Option<Motion>,
}

/// The axis of this word of the centre, 0, 1 and 2 for X, Y and Z.
fn centre_named(name: &[u8]) -> Option<u8>
    ensures axis { result ≡ model.centre_named name.now }
    ensures below { IfSome result (λ axis. axis < 3) }
{
    if name == b"I".as_slice() {
        Some(0)
    } else if name == b"J".as_slice() {
        Some(1)
    } else if name == b"K".as_slice() {
        Some(2)
    } else {
        None
    }
}

/// Whether an axis stands in this slot.
fn is_this(axis: AxisId, slot: Option<AxisId>) -> bool
    ensures { result ≡ model.is_this axis slot }
{
    match slot {
        Some(other) => other.index == axis.index,
        None => false,
    }
}

/// Whether an axis stands in a slot.
fn is_in_slot(slots: &[Option<AxisId>; 3], axis: AxisId) -> bool
    ensures { result ≡ model.is_in_slot slots.now axis }
{
    slots.iter().any(|slot| is_this(axis, *slot))
}

/// Puts a value in its place, or answers alarm 17 where one is there.
#[tactic(auto, unfolding(crate::specs::Words::programmed_once))]
fn put(row: &mut [Option<Programmed>], place: usize, value: Programmed) -> Result<(), u16>
    requires { place < length row.old }
    ensures { IsPut (model.programmed_once row.old place value) result row.new }
{
    if row[place].is_some() {
        return Err(ADDRESS_TWICE);
    }
    row[place] = Some(value);
    Ok(())
}

/// Programs X, Y or Z.
#[tactic(auto, unfolding(crate::specs::Words::slot_programmed))]
fn program_slot(
    slots: &[Option<AxisId>; 3],
    targets: &mut Targets,
    slot: u8,
    value: Programmed,
) -> Result<(), u16>
    requires { slot < 3 }
    ensures { Aims (model.slot_programmed slots.now targets.old slot value) result targets.new }
{
    let slot = usize::from(slot);
    if slots[slot].is_none() {
        return Err(NO_SUCH_AXIS);
    }
    put(&mut targets.slots, slot, value)
}

/// Programs an axis by its own name, where the job has it.
#[tactic(auto, unfolding(crate::specs::Words::named_programmed))]
fn program_named(
    slots: &[Option<AxisId>; 3],
    targets: &mut Targets,
    axis: Option<AxisId>,
    value: Programmed,
) -> Result<(), u16>
    ensures { Aims (model.named_programmed slots.now targets.old axis value) result targets.new }
{
    let Some(axis) = axis else {
        return Err(NO_SUCH_AXIS);
    };
    if is_in_slot(slots, axis) {
        return Err(GEOMETRY_AXIS_BY_NAME);
    }
    put(&mut targets.axes, usize::from(axis.index), value)
}

/// Programs the centre of an arc.
fn program_centre(arc: &mut ArcWords, axis: u8, value: Programmed) -> Result<(), u16>
    requires { axis < 3 }
    ensures { Curves (model.with_centre_word arc.old axis value) result arc.new }
{
    put(&mut arc.centre, usize::from(axis), value)
}

/// Programs the radius of an arc.
fn program_radius(arc: &mut ArcWords, value: Num) -> Result<(), u16>
    ensures { Curves (model.with_radius arc.old value) result arc.new }
{
    if arc.radius.is_some() {
        return Err(ADDRESS_TWICE);
    }
    arc.radius = Some(value);
    Ok(())
}

/// Programs the axis that has this name.
fn program_axis<S: Setup>(
    setup: &S,
    axes: &ChannelAxes,
    targets: &mut Targets,
    name: &[u8],
    value: Programmed,
) -> Result<(), u16>
    ensures { Aims (model.programmed_by (equipment_of (S.names setup.now) (S.axis_named setup.now) (S.offset setup.now)
        (S.tools setup.now) axes.now) targets.old name.now (slot_named name.now) value) result targets.new }
{
    match slot_named(name) {
        Some(slot) => program_slot(&axes.slots, targets, slot, value),
        None => program_named(&axes.slots, targets, setup.axis_named(name), value),
    }
}

/// The value of an expression, if there is one.
pub(crate) fn option_read(parameters: &Parameters, value: &Option<Expr>) -> Result<Option<Num>, u16>
    requires { OptionFits (tree_option value.now) }
    ensures { result ≡ model.option_read (model.values_in parameters.now) (tree_option value.now) }
{
    match value {
        Some(value) => Ok(Some(eval(value, parameters)?)),
        None => Ok(None),
    }
}

/// The value of an operand, if it has one.
fn operand_read(parameters: &Parameters, operand: &Operand) -> Result<Option<Num>, u16>
    requires { OperandFits (operand_view operand.now) }
    ensures { result ≡ model.operand_read (model.values_in parameters.now) (operand_view operand.now) }
{
    match operand {
        Operand::Value(value) => Ok(Some(eval(value, parameters)?)),
        Operand::Text(_) => Ok(None),
        Operand::Axis(_) => Ok(None),
    }
}

/// The value of an auxiliary word, if it has one; the value in its brackets is found before it.
fn aux_read(
    parameters: &Parameters,
    index: &Option<Expr>,
    operand: &Operand,
) -> Result<Option<Num>, u16>
    requires index { OptionFits (tree_option index.now) }
    requires operand { OperandFits (operand_view operand.now) }
    ensures { result ≡ model.aux_read (model.values_in parameters.now) (tree_option index.now)
        (operand_view operand.now) }
{
    let _index = option_read(parameters, index)?;
    operand_read(parameters, operand)
}

impl WordsDone {
    /// Before the first word of a block, with this tool in use.
    #[tactic(auto, unfolding(crate::specs::Words::nothing_programmed, crate::specs::Words::no_arc))]
    pub(crate) fn nothing(tool: ToolInUse) -> WordsDone
        ensures targets { result.targets ≡ model.nothing_programmed }
        ensures arc { result.arc ≡ model.no_arc }
        ensures ends { result.ends ≡ false }
        ensures tool { result.tool ≡ tool }
        ensures told { TellsOfMoves result }
    {
        WordsDone {
            targets: Targets {
                slots: [None; 3],
                axes: [None; AXIS_LIMIT],
            },
            arc: ArcWords {
                centre: [None; 3],
                radius: None,
            },
            tool,
            moves: false,
            ends: false,
            motion: None,
        }
    }

    /// Programs what has this name: the centre of an arc, or an axis.
    fn program<S: Setup>(
        &mut self,
        setup: &S,
        axes: &ChannelAxes,
        name: &[u8],
        value: Programmed,
    ) -> Result<(), u16>
        ensures moves { self.new.moves ≡ self.old.moves }
        ensures tool { self.new.tool ≡ self.old.tool }
        ensures acts { (parameters : List ℤ) (choices : List Choice)
            → Acts (model.word_progress (equipment_of (S.names setup.now) (S.axis_named setup.now)
            (S.offset setup.now) (S.tools setup.now) axes.now)
            (progress_of parameters choices self.old) name.now (model.centre_named name.now) value) result
            (progress_of parameters choices self.new) }
    {
        match centre_named(name) {
            Some(axis) => program_centre(&mut self.arc, axis, value),
            None => program_axis(setup, axes, &mut self.targets, name, value),
        }
    }

    /// Does what a word says and answers how a parameter was before, if it gave one a value; or answers its alarm.
    #[tactic(auto, unfolding(crate::specs::Words::word_done))]
    pub(crate) fn act<S: Setup>(
        &mut self,
        setup: &S,
        axes: &ChannelAxes,
        parameters: &mut Parameters,
        word: &Word,
    ) -> Result<Option<Change>, u16>
        requires fits { WordFits (word_view word.now) }
        requires told { TellsOfMoves self.old }
        ensures told { TellsOfMoves self.new }
        ensures acts { (choices : List Choice) → let equipment = equipment_of (S.names setup.now)
            (S.axis_named setup.now) (S.offset setup.now) (S.tools setup.now) axes.now in
            self.old.tool ≡ in_use_after (edges_of equipment) choices
            → ActsOn (edges_of equipment) (model.word_done equipment (progress_of parameters.old choices self.old)
            (word_view word.now)) result parameters.new self.new }
        ensures undone { IsUndoneSome result parameters.old parameters.new }
    {
        match word {
            Word::Assign(index, value) => Ok(Some(parameters.give(*index, value)?)),
            Word::AssignAt(index, value) => Ok(Some(parameters.give_at(index, value)?)),
            Word::Axis(name, measure, value) => {
                self.moves = true;
                let value = Programmed {
                    measure: *measure,
                    value: eval(value, parameters)?,
                };
                self.program(setup, axes, name.as_slice(), value)?;
                Ok(None)
            }
            Word::Aux(name, index, operand) => {
                let value = aux_read(parameters, index, operand)?;
                self.tool = tool_after(setup, self.tool, name.as_slice(), value)?;
                Ok(None)
            }
            Word::End => {
                self.ends = true;
                Ok(None)
            }
            Word::Radius(value) => {
                self.moves = true;
                let value = eval(value, parameters)?;
                program_radius(&mut self.arc, value)?;
                Ok(None)
            }
            Word::G(_, _) => Ok(None),
        }
    }
}
