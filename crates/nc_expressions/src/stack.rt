//! What waits while an expression is read.

ghost use Rattle.std.specs.Prelude.{◌≡◌, ◌<◌, ◌∷◌, OnOk, OnSome, IfOk, vec_len, length, MatchBool};
ghost use Rattle.nc_expressions.specs.Tree.{tree_of, Tree};
ghost use Rattle.nc_expressions.specs.Machine.{attach, join, depth, is_parenthesis};
ghost use Rattle.nc_expressions.specs.Stack.{pending_of, stack_of, Pops};

use crate::levels::{Level, rank};
use crate::trees::{BinaryOp, Expr, UnaryOp};
use std::alloc::{AllocError, Global};

/// An open bracket.
#[derive(Clone, Copy)]
pub enum Bracket {
    /// Parentheses round an expression.
    Parentheses,
    /// The parentheses of a function.
    Argument(UnaryOp),
    /// The brackets after R.
    Index,
}

/// One thing that waits.
#[derive(Drop)]
pub enum Held {
    /// A minus sign or NOT, for its operand.
    Prefix(UnaryOp),
    /// A left operand and its operator, for the right operand.
    Left(Expr, BinaryOp),
    /// A bracket, to be closed, with the level around it.
    Opened(Bracket, Level),
}

/// Adds one thing that waits.
#[tactic(auto, using(crate::proofs::Stacks::stack_push))]
pub fn push(pending: &mut Vec<Held>, one: Held) -> Result<(), AllocError>
    ensures { OnOk result (stack_of pending.new.items ≡ pending_of one ∷ stack_of pending.old.items) }
{
    pending.push(one)?;
    Ok(())
}

/// Takes what was added last.
pub fn pop(pending: &mut Vec<Held>) -> Option<Held>
    ensures stack { Pops (stack_of pending.old.items) result (stack_of pending.new.items) }
    ensures shorter { OnSome result (vec_len pending.new < vec_len pending.old) }
{
    pending.pop()
}

/// Gives an operand to the signs that wait for it.
pub fn attach(alloc: Global, pending: &mut Vec<Held>, operand: Expr) -> Result<Expr, AllocError>
    ensures { IfOk result (λ e. attach (tree_of operand) (stack_of pending.old.items)
        ≡ (tree_of e, stack_of pending.new.items)) }
{
    let mut operand = operand;
    loop {
        match pop(pending) {
            Some(Held::Prefix(op)) => {
                operand = Expr::Unary(op, Box::new(alloc, operand)?);
            }
            Some(other) => {
                push(pending, other)?;
                return Ok(operand);
            }
            None => return Ok(operand),
        }
    }
}

/// Gives an operand to the operators before it that bind at least so tightly.
pub fn join(
    alloc: Global,
    pending: &mut Vec<Held>,
    least: u8,
    operand: Expr,
) -> Result<Expr, AllocError>
    ensures { IfOk result (λ e. join least (tree_of operand) (stack_of pending.old.items)
        ≡ (tree_of e, stack_of pending.new.items)) }
{
    let mut operand = operand;
    loop {
        match pop(pending) {
            Some(Held::Left(left, op)) => {
                if least <= rank(op) {
                    operand = Expr::Binary(op, Box::new(alloc, left)?, Box::new(alloc, operand)?);
                } else {
                    push(pending, Held::Left(left, op))?;
                    return Ok(operand);
                }
            }
            Some(other) => {
                push(pending, other)?;
                return Ok(operand);
            }
            None => return Ok(operand),
        }
    }
}

/// Whether this is an open parenthesis.
fn is_parenthesis(one: &Held) -> bool
    ensures { result ≡ is_parenthesis (pending_of one.now) }
{
    matches!(
        one,
        Held::Opened(Bracket::Parentheses | Bracket::Argument(_), _)
    )
}

/// How many parentheses are open.
#[tactic(auto, using(crate::proofs::Stacks::depths))]
pub fn depth(pending: &[Held]) -> usize
    ensures { result ≡ depth (stack_of pending.now) }
{
    let mut depth = 0;
    for one in pending {
        if is_parenthesis(one) {
            depth += 1;
        }
    }
    depth
}
