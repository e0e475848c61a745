//! Jumps, conditions, counted loops, repetitions and calls.

ghost use Rattle.std.specs.Prelude.{◌≡◌, ◌≤◌, List, ℤ, OnErr, option_copied};
ghost use Rattle.nc_blocks.specs.Indices.{FitsValues, OptionFits};
ghost use Rattle.nc_blocks.specs.Statement.{statement_view, tree_option};
ghost use Rattle.nc_control_flow.specs.Moves.{outcome_view};
ghost use Rattle.nc_expressions.specs.Tree.{tree_of, IndicesFit};
ghost use Rattle.nc_expressions.specs.Value as values;
ghost use Rattle.block_effects.specs.Words as words;
ghost use Rattle.block_effects.specs.Words.{IsGiven};
ghost use Rattle.block_effects.specs.Effects as model;
ghost use Rattle.block_effects.specs.Courses.{Leads, Turns};
ghost use Rattle.nc_expressions.specs.declared.limits.TheConstants.{LAST_PARAMETER};

use crate::course::{Course, Setup};
use crate::parameters::{Change, Parameters};
use fault_codes::alarms::{NO_SUCH_PROGRAM, REPETITION_COUNT};
use micro_units::Num;
use nc_blocks::{JumpTo, NameText, PASS_LIMIT, Stmt};
use nc_control_flow::Outcome;
use nc_expressions::{Expr, Names, eval};

/// Whether a value counts as true.
fn is_true(value: Num) -> bool
    ensures { result ≡ values.is_true value }
{
    value.millionths != 0
}

// ---- jumps

/// A jump.
pub(crate) fn jumped(jump: &JumpTo) -> Outcome<'_>
    ensures { outcome_view result ≡ model.jump_outcome jump.now }
{
    Outcome::Jump(jump.way, &jump.target)
}

/// A jump where a condition holds.
fn jumped_if(holds: bool, jump: &JumpTo) -> Outcome<'_>
    ensures { outcome_view result ≡ model.jumped_if holds jump.now }
{
    if holds { jumped(jump) } else { Outcome::Plain }
}

/// A jump, if there is one.
fn jumped_some(jump: Option<&JumpTo>) -> Outcome<'_>
    ensures { outcome_view result ≡ model.jumped_some (option_copied jump.entry) }
{
    match jump {
        Some(jump) => jumped(jump),
        None => Outcome::Plain,
    }
}

/// The jump of the first number that equals a value.
fn first_equal(value: Num, pairs: &[(Num, JumpTo)]) -> Option<&JumpTo>
    ensures { option_copied result ≡ model.first_equal value pairs.now }
{
    for pair in pairs {
        if value.millionths == pair.0.millionths {
            return Some(&pair.1);
        }
    }
    None
}

/// The jump of the first number that equals a value, or else that of DEFAULT.
fn chosen<'a>(value: Num, pairs: &'a [(Num, JumpTo)], default: &'a Option<JumpTo>) -> Outcome<'a>
    ensures { outcome_view result ≡ model.case_outcome value pairs.now default.now }
{
    match first_equal(value, pairs) {
        Some(jump) => jumped(jump),
        None => jumped_some(default.as_ref()),
    }
}

/// IF with a jump.
pub(crate) fn leap<'a>(
    parameters: &Parameters,
    condition: &Expr,
    jump: &'a JumpTo,
) -> Result<Course<'a>, u16>
    requires { IndicesFit (tree_of condition.now) }
    ensures { Leads (model.jump_course (words.values_in parameters.now) (tree_of condition.now) jump.now) result }
{
    let value = eval(condition, parameters)?;
    Ok(Course::Goes(jumped_if(is_true(value), jump)))
}

/// CASE.
pub(crate) fn choice<'a>(
    parameters: &Parameters,
    value: &Expr,
    pairs: &'a [(Num, JumpTo)],
    default: &'a Option<JumpTo>,
) -> Result<Course<'a>, u16>
    requires { IndicesFit (tree_of value.now) }
    ensures { Leads (model.choice (words.values_in parameters.now) (tree_of value.now) pairs.now default.now) result }
{
    let value = eval(value, parameters)?;
    Ok(Course::Goes(chosen(value, pairs, default)))
}

// ---- conditions

/// A block with a condition.
pub(crate) fn conditional<'a>(parameters: &Parameters, condition: &Expr) -> Result<Course<'a>, u16>
    requires { IndicesFit (tree_of condition.now) }
    ensures { Leads (model.condition_course (words.values_in parameters.now) (tree_of condition.now)) result }
{
    let value = eval(condition, parameters)?;
    Ok(Course::Goes(Outcome::Truth(is_true(value))))
}

/// Once more round a FOR, where its parameter is not above the bound.
fn bounded<'a>(parameters: &Parameters, index: u16, bound: &Expr) -> Result<Course<'a>, u16>
    requires index { index ≤ LAST_PARAMETER }
    requires fits { IndicesFit (tree_of bound.now) }
    ensures { Leads (model.bound_course (words.values_in parameters.now) index (tree_of bound.now)) result }
{
    let bound = eval(bound, parameters)?;
    let value = parameters.parameter(index);
    Ok(Course::Goes(Outcome::Truth(value.millionths <= bound.millionths)))
}

/// The same after a change of a parameter, which an alarm takes back.
fn bounded_after<'a>(
    parameters: &mut Parameters,
    change: Change,
    index: u16,
    bound: &Expr,
) -> Result<Course<'a>, u16>
    requires index { index ≤ LAST_PARAMETER }
    requires change { change.index ≤ LAST_PARAMETER }
    requires fits { IndicesFit (tree_of bound.now) }
    ensures turns { Turns (model.bound_turning parameters.old index (tree_of bound.now)) result parameters.new }
    ensures undone { OnErr result (parameters.new ≡ words.parameters_before parameters.old change) }
{
    match bounded(parameters, index, bound) {
        Ok(course) => Ok(course),
        Err(code) => {
            parameters.undo(change);
            Err(code)
        }
    }
}

/// FOR.
pub(crate) fn begin_for<'a>(
    parameters: &mut Parameters,
    index: u16,
    first: &Expr,
    bound: &Expr,
) -> Result<Course<'a>, u16>
    requires index { index ≤ LAST_PARAMETER }
    requires first { IndicesFit (tree_of first.now) }
    requires bound { IndicesFit (tree_of bound.now) }
    ensures turns { Turns (model.for_begun parameters.old index (tree_of first.now)
        (tree_of bound.now)) result parameters.new }
    ensures unchanged { OnErr result (parameters.new ≡ parameters.old) }
{
    let change = parameters.give(index, first)?;
    bounded_after(parameters, change, index, bound)
}

/// ENDFOR of a FOR with this parameter and bound.
fn once_more<'a>(parameters: &mut Parameters, index: u16, bound: &Expr) -> Result<Course<'a>, u16>
    requires index { index ≤ LAST_PARAMETER }
    requires bound { IndicesFit (tree_of bound.now) }
    ensures turns { Turns (model.once_more parameters.old index (tree_of bound.now)) result parameters.new }
    ensures unchanged { OnErr result (parameters.new ≡ parameters.old) }
{
    let change = parameters.count(index)?;
    bounded_after(parameters, change, index, bound)
}

/// ENDFOR, where this block begins the structure round it.
pub(crate) fn continue_for<'a>(
    parameters: &mut Parameters,
    opener: &Stmt,
) -> Result<Course<'a>, u16>
    requires { FitsValues (words.values_in parameters.old) (statement_view opener.now) }
    ensures turns { Turns (model.for_continued parameters.old (statement_view opener.now)) result parameters.new }
    ensures unchanged { OnErr result (parameters.new ≡ parameters.old) }
{
    match opener {
        Stmt::For(index, _, bound) => once_more(parameters, *index, bound),
        _ => Ok(Course::Goes(Outcome::Plain)),
    }
}

// ---- repetitions

/// The number of times that a value is.
#[tactic(auto, unfolding(crate::specs::Effects::times_in))]
fn times_in(value: Num) -> Result<u16, u16>
    ensures { result ≡ model.times_in value }
{
    let millionths = value.millionths;
    if 0 <= millionths
        && millionths < (i64::from(PASS_LIMIT) + 1) * 1_000_000
        && millionths % 1_000_000 == 0
    {
        Ok((millionths / 1_000_000) as u16)
    } else {
        Err(REPETITION_COUNT)
    }
}

/// How often a repetition repeats.
fn times_of(parameters: &Parameters, times: &Option<Expr>) -> Result<u16, u16>
    requires { OptionFits (tree_option times.now) }
    ensures { result ≡ model.times_of (words.values_in parameters.now) (tree_option times.now) }
{
    match times {
        Some(times) => times_in(eval(times, parameters)?),
        None => Ok(1),
    }
}

/// A repetition.
pub(crate) fn repeat<'a>(parameters: &Parameters, times: &Option<Expr>) -> Result<Course<'a>, u16>
    requires { OptionFits (tree_option times.now) }
    ensures { Leads (model.repetition_course (words.values_in parameters.now) (tree_option times.now)) result }
{
    let times = times_of(parameters, times)?;
    Ok(Course::Goes(Outcome::Again(times)))
}

// ---- calls

/// The number of the program of this name, or alarm 7.
pub(crate) fn called<S: Setup>(setup: &S, name: &NameText) -> Result<u16, u16>
    ensures { result ≡ model.library_number (model.number_of (S.names setup.now) name.now) }
{
    match setup.number_of(name) {
        Some(number) => Ok(number),
        None => Err(NO_SUCH_PROGRAM),
    }
}
