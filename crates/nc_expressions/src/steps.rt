//! Reading an expression symbol by symbol.

ghost use Rattle.std.specs.Prelude.{◌≡◌};
ghost use Rattle.nc_expressions.specs.Tree.{tree_of};
ghost use Rattle.nc_expressions.specs.Levels.{rank, joint_level, clash, kind};
ghost use Rattle.nc_expressions.specs.Limits.{all_limits};
ghost use Rattle.nc_expressions.specs.Machine.{On, state_with_tree, step, finish, next_in_bracket, on_sign, on_operand, on_index, on_argument, on_operator, on_close, on_close_bracket, on_other, on_ended, with_parameter, with_prefix, join, attach};
ghost use Rattle.nc_expressions.specs.Stack.{stack_of, state_of, Steps};

use crate::faults::SyntaxFault;
use crate::levels::{Level, clash, kind, rank, together};
use crate::limits::PARENTHESIS_LIMIT;
use crate::stack::{Bracket, Held, attach, depth, join, pop, push};
use crate::symbols::{Symbol, index_of, truth};
use crate::trees::{BinaryOp, Expr, UnaryOp};
use std::alloc::Global;

/// What the next symbol is to be.
#[derive(Drop)]
pub enum Mode {
    /// The beginning of an operand.
    Wants,
    /// What stands after R.
    WantsIndex,
    /// What stands after a function's name.
    WantsArgument(UnaryOp),
    /// What stands after an operand.
    Has(Expr),
}

/// What a symbol leads to.
#[derive(Drop)]
pub enum Step {
    /// The expression goes on.
    On(Mode, Level),
    /// It has ended before the symbol.
    Ends(Expr),
}

/// Takes one symbol.
#[tactic(auto, unfolding(crate::specs::Machine::step))]
pub fn take_symbol(
    alloc: Global,
    pending: &mut Vec<Held>,
    mode: Mode,
    level: Level,
    symbol: Symbol,
) -> Result<Step, SyntaxFault>
    ensures { Steps (step all_limits (state_of mode (stack_of pending.old.items) level) symbol) result
        (stack_of pending.new.items) }
{
    match mode {
        Mode::Wants => on_operand(alloc, pending, level, symbol),
        Mode::WantsIndex => on_index(alloc, pending, level, symbol),
        Mode::WantsArgument(function) => on_argument(pending, level, function, symbol),
        Mode::Has(operand) => on_ended(alloc, pending, level, operand, symbol),
    }
}

/// Ends at the end of the line.
#[tactic(auto, unfolding(crate::specs::Machine::finish))]
pub fn finish(
    alloc: Global,
    pending: &mut Vec<Held>,
    mode: Mode,
    level: Level,
) -> Result<Step, SyntaxFault>
    ensures { Steps (finish (state_of mode (stack_of pending.old.items) level)) result (stack_of pending.new.items) }
{
    match mode {
        Mode::Has(operand) => on_other(alloc, pending, operand),
        _ => Err(SyntaxFault::Refused(22)),
    }
}

/// Takes a symbol where an operand is wanted.
#[tactic(auto, unfolding(crate::specs::Machine::on_operand))]
fn on_operand(
    alloc: Global,
    pending: &mut Vec<Held>,
    level: Level,
    symbol: Symbol,
) -> Result<Step, SyntaxFault>
    ensures { Steps (on_operand all_limits (stack_of pending.old.items) level symbol) result
        (stack_of pending.new.items) }
{
    match symbol {
        Symbol::Number(number, _) => ended(alloc, pending, level, Expr::Number(number)),
        Symbol::Truth(holds) => ended(alloc, pending, level, Expr::Number(truth(holds))),
        Symbol::Operator(op) => on_sign(pending, level, op),
        Symbol::Not => on_not(pending, level),
        Symbol::Function(function) => Ok(Step::On(Mode::WantsArgument(function), level)),
        Symbol::Letter => Ok(Step::On(Mode::WantsIndex, level)),
        Symbol::Open => opened(pending, level, Bracket::Parentheses),
        _ => Err(SyntaxFault::Refused(22)),
    }
}

/// Goes on after an operand that has ended.
fn ended(
    alloc: Global,
    pending: &mut Vec<Held>,
    level: Level,
    operand: Expr,
) -> Result<Step, SyntaxFault>
    ensures { Steps (On (state_with_tree level (attach (tree_of operand) (stack_of pending.old.items)))) result
        (stack_of pending.new.items) }
{
    let operand = attach(alloc, pending, operand)?;
    Ok(Step::On(Mode::Has(operand), level))
}

/// Takes a sign before an operand.
#[tactic(auto, unfolding(crate::specs::Machine::on_sign))]
fn on_sign(pending: &mut Vec<Held>, level: Level, op: BinaryOp) -> Result<Step, SyntaxFault>
    ensures { Steps (on_sign op (stack_of pending.old.items) level) result (stack_of pending.new.items) }
{
    match op {
        BinaryOp::Add => Ok(Step::On(Mode::Wants, level)),
        BinaryOp::Sub => {
            push(pending, Held::Prefix(UnaryOp::Minus))?;
            Ok(Step::On(Mode::Wants, level))
        }
        _ => Err(SyntaxFault::Refused(22)),
    }
}

/// Takes a NOT before an operand.
fn on_not(pending: &mut Vec<Held>, level: Level) -> Result<Step, SyntaxFault>
    ensures { Steps (with_prefix (joint_level level Level.Connects) (clash level Level.Connects) UnaryOp.Not
        (stack_of pending.old.items)) result (stack_of pending.new.items) }
{
    match together(level, Level::Connects) {
        Some(level) => {
            push(pending, Held::Prefix(UnaryOp::Not))?;
            Ok(Step::On(Mode::Wants, level))
        }
        None => Err(SyntaxFault::Refused(clash(level, Level::Connects))),
    }
}

/// Opens a bracket that counts as a parenthesis.
#[tactic(auto, unfolding(crate::specs::Machine::next_in_bracket))]
fn opened(pending: &mut Vec<Held>, level: Level, bracket: Bracket) -> Result<Step, SyntaxFault>
    ensures { Steps (next_in_bracket all_limits bracket (stack_of pending.old.items) level) result
        (stack_of pending.new.items) }
{
    if PARENTHESIS_LIMIT <= depth(pending) {
        return Err(SyntaxFault::Refused(26));
    }
    push(pending, Held::Opened(bracket, level))?;
    Ok(Step::On(Mode::Wants, Level::Plain))
}

/// Takes a symbol after R.
#[tactic(auto, unfolding(crate::specs::Machine::on_index))]
fn on_index(
    alloc: Global,
    pending: &mut Vec<Held>,
    level: Level,
    symbol: Symbol,
) -> Result<Step, SyntaxFault>
    ensures { Steps (on_index (stack_of pending.old.items) level symbol) result (stack_of pending.new.items) }
{
    match symbol {
        Symbol::Number(number, digits) => match index_of(number) {
            Some(index) if digits => ended(alloc, pending, level, Expr::Parameter(index)),
            _ => Err(SyntaxFault::Refused(22)),
        },
        Symbol::OpenBracket => {
            push(pending, Held::Opened(Bracket::Index, level))?;
            Ok(Step::On(Mode::Wants, Level::Plain))
        }
        _ => Err(SyntaxFault::Refused(22)),
    }
}

/// Takes a symbol after a function's name.
#[tactic(auto, unfolding(crate::specs::Machine::on_argument))]
fn on_argument(
    pending: &mut Vec<Held>,
    level: Level,
    function: UnaryOp,
    symbol: Symbol,
) -> Result<Step, SyntaxFault>
    ensures { Steps (on_argument all_limits function (stack_of pending.old.items) level symbol) result
        (stack_of pending.new.items) }
{
    match symbol {
        Symbol::Open => opened(pending, level, Bracket::Argument(function)),
        _ => Err(SyntaxFault::Refused(22)),
    }
}

/// Takes a symbol after an operand.
#[tactic(auto, unfolding(crate::specs::Machine::on_ended))]
fn on_ended(
    alloc: Global,
    pending: &mut Vec<Held>,
    level: Level,
    operand: Expr,
    symbol: Symbol,
) -> Result<Step, SyntaxFault>
    ensures { Steps (on_ended all_limits (tree_of operand) (stack_of pending.old.items) level symbol) result
        (stack_of pending.new.items) }
{
    match symbol {
        Symbol::Operator(op) => on_operator(alloc, pending, level, op, operand),
        Symbol::Close => on_close(alloc, pending, operand),
        Symbol::CloseBracket => on_close_bracket(alloc, pending, operand),
        Symbol::Exponent => Err(SyntaxFault::Refused(22)),
        _ => on_other(alloc, pending, operand),
    }
}

/// Takes an operator between two operands.
#[tactic(auto, unfolding(crate::specs::Machine::on_operator))]
fn on_operator(
    alloc: Global,
    pending: &mut Vec<Held>,
    level: Level,
    op: BinaryOp,
    operand: Expr,
) -> Result<Step, SyntaxFault>
    ensures { Steps (on_operator all_limits op (join (rank op) (tree_of operand) (stack_of pending.old.items)) level)
        result (stack_of pending.new.items) }
{
    let left = join(alloc, pending, rank(op), operand)?;
    match together(level, kind(op)) {
        Some(level) => {
            push(pending, Held::Left(left, op))?;
            Ok(Step::On(Mode::Wants, level))
        }
        None => Err(SyntaxFault::Refused(clash(level, kind(op)))),
    }
}

/// Takes a closing parenthesis after an operand.
#[tactic(auto, unfolding(crate::specs::Machine::on_close))]
fn on_close(alloc: Global, pending: &mut Vec<Held>, operand: Expr) -> Result<Step, SyntaxFault>
    ensures { Steps (on_close (join 0 (tree_of operand) (stack_of pending.old.items))) result
        (stack_of pending.new.items) }
{
    let inner = join(alloc, pending, 0, operand)?;
    match pop(pending) {
        Some(Held::Opened(Bracket::Parentheses, level)) => ended(alloc, pending, level, inner),
        Some(Held::Opened(Bracket::Argument(function), level)) => {
            let call = Expr::Unary(function, Box::new(alloc, inner)?);
            ended(alloc, pending, level, call)
        }
        Some(_) => Err(SyntaxFault::Refused(22)),
        None => Ok(Step::Ends(inner)),
    }
}

/// Takes a closing bracket after an operand.
#[tactic(auto, unfolding(crate::specs::Machine::on_close_bracket))]
fn on_close_bracket(
    alloc: Global,
    pending: &mut Vec<Held>,
    operand: Expr,
) -> Result<Step, SyntaxFault>
    ensures { Steps (on_close_bracket (join 0 (tree_of operand) (stack_of pending.old.items))) result
        (stack_of pending.new.items) }
{
    let inner = join(alloc, pending, 0, operand)?;
    match pop(pending) {
        Some(Held::Opened(Bracket::Index, level)) => {
            let parameter = Expr::Indexed(Box::new(alloc, inner)?);
            ended(alloc, pending, level, parameter)
        }
        Some(_) => Err(SyntaxFault::Refused(22)),
        None => Ok(Step::Ends(inner)),
    }
}

/// Ends an expression where no bracket is open.
#[tactic(auto, unfolding(crate::specs::Machine::on_other))]
fn on_other(alloc: Global, pending: &mut Vec<Held>, operand: Expr) -> Result<Step, SyntaxFault>
    ensures { Steps (on_other (join 0 (tree_of operand) (stack_of pending.old.items))) result
        (stack_of pending.new.items) }
{
    let inner = join(alloc, pending, 0, operand)?;
    match pop(pending) {
        Some(_) => Err(SyntaxFault::Refused(22)),
        None => Ok(Step::Ends(inner)),
    }
}
