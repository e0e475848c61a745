//! Reading the expression at a place of a line.

ghost use Rattle.std.specs.Prelude.{◌≡◌, ℕ, ◌<◌, ◌≤◌, List, ◌++◌, length, drop, slice_get, IfOk, IfErr};
ghost use Rattle.block_scanner.specs.Scanned.{IsScanned};
ghost use Rattle.nc_expressions.specs.declared.symbols.Symbol.{Symbol};
ghost use Rattle.nc_expressions.specs.Fronts.{Found, Broken};
ghost use Rattle.nc_expressions.specs.Limits.{all_limits};
ghost use Rattle.nc_expressions.specs.Machine.{read};
ghost use Rattle.nc_expressions.specs.Parsing.{Reads, expr_at, GivesExpr, sign_of, is_exponent, plain_number, number_at, constant_at, GivesConstant};
ghost use Rattle.nc_expressions.specs.Symbols.{symbols_of};
ghost use Rattle.nc_expressions.specs.Syntax.{Syntax, spelling, tree, IsExpression, Follows};
ghost use Rattle.nc_expressions.specs.Tree.{tree_of, IndicesFit};

use crate::faults::SyntaxFault;
use crate::levels::Level;
use crate::steps::{Mode, Step, finish, take_symbol};
use crate::symbols::{Symbol, symbol_at};
use crate::trees::{BinaryOp, Expr};
use crate::values::negated;
use block_scanner::Words;
use micro_units::Num;
use std::alloc::Global;

/// Reads as the machine does.
#[tactic(auto, using(crate::proofs::Runs::run_steps))]
fn parse_exactly(
    alloc: Global,
    words: &Words<'_>,
    start: usize,
) -> Result<(Expr, usize), SyntaxFault>
    requires scanned { IsScanned words.now }
    requires within { start ≤ length words.now.tokens }
    ensures { Reads (symbols_of words.now) (read all_limits (drop start (symbols_of words.now))) result }
{
    let mut pending = Vec::new(alloc);
    let mut mode = Mode::Wants;
    let mut level = Level::Plain;
    let mut at = start;
    while at < words.tokens.len() {
        match take_symbol(alloc, &mut pending, mode, level, symbol_at(words, at))? {
            Step::On(next, inside) => {
                mode = next;
                level = inside;
            }
            Step::Ends(tree) => return Ok((tree, at)),
        }
        at += 1;
    }
    match finish(alloc, &mut pending, mode, level)? {
        Step::Ends(tree) => Ok((tree, at)),
        Step::On(_, _) => Err(SyntaxFault::Refused(22)),
    }
}

/// Reads the expression that begins with the token at `start`, as far as it goes: its tree, and the
/// place of the first token after it.
///
/// `Refused` comes where no expression begins there, or one begins that is not complete before the
/// first token at which no expression goes on. Its code is that of this place: 26 where one would
/// go on if there were no limit on parentheses, 23 where one would go on if a comparison could
/// stand beside AND, OR, XOR and NOT, else 22. The name of a function that is not supported is no
/// word of an expression here. `NoMemory` says nothing of the line.
#[tactic(auto, using(crate::proofs::Parsed::answers))]
pub fn parse_expr(
    alloc: Global,
    words: &Words<'_>,
    start: usize,
) -> Result<(Expr, usize), SyntaxFault>
    requires scanned { IsScanned words.now }
    requires within { start ≤ length words.now.tokens }

    // What is read is spelled so, and what is spelled so is read: one tree at most.
    ensures found { IfOk result (λ p. (start < p.1) × (p.1 ≤ length words.now.tokens)
        × Found (drop start (symbols_of words.now)) (tree_of p.0) (drop p.1 (symbols_of words.now))) }
    ensures only { (x : Syntax) (rest : List Symbol) → IsExpression x → Follows rest → drop start (symbols_of words.now)
        ≡ spelling x ++ rest → Reads (symbols_of words.now) (Ok (tree x, rest)) result }

    // What is refused breaks off at the first place at which no expression goes on, and why it
    // does there is the code.
    ensures broken { IfErr result (λ e. (code : ℕ) → e ≡ SyntaxFault.Refused code
        → Broken (drop start (symbols_of words.now)) code) }

    ensures exact { GivesExpr (expr_at (symbols_of words.now) start) result }
    ensures indices { IfOk result (λ p. IndicesFit (tree_of p.0)) }
{
    parse_exactly(alloc, words, start)
}

/// What stands at a place of a line, if anything does.
#[tactic(auto, using(crate::proofs::Beginnings::read_at))]
fn symbol_from(words: &Words<'_>, at: usize) -> Option<Symbol>
    requires { IsScanned words.now }
    ensures { result ≡ slice_get (symbols_of words.now) at }
{
    if at < words.tokens.len() {
        Some(symbol_at(words, at))
    } else {
        None
    }
}

/// Whether a plus or a minus sign stands there, and whether it is a minus sign.
fn sign_of(symbol: Option<Symbol>) -> Option<bool>
    ensures { result ≡ sign_of symbol }
{
    match symbol {
        Some(Symbol::Operator(BinaryOp::Add)) => Some(false),
        Some(Symbol::Operator(BinaryOp::Sub)) => Some(true),
        _ => None,
    }
}

/// Whether an exponent begins there.
fn is_exponent(symbol: Option<Symbol>) -> bool
    ensures { result ≡ is_exponent symbol }
{
    matches!(symbol, Some(Symbol::Exponent))
}

/// The number that a symbol is, before what stands after it.
fn plain_number(symbol: Symbol, following: Option<Symbol>) -> Result<Num, u16>
    ensures { result ≡ plain_number (Some symbol) following }
{
    match symbol {
        Symbol::Number(number, _) => {
            if is_exponent(following) {
                Err(22)
            } else {
                Ok(number)
            }
        }
        _ => Err(22),
    }
}

/// The number at a place, with no exponent after it.
#[tactic(auto, unfolding(crate::specs::Parsing::number_at))]
fn number_at(words: &Words<'_>, at: usize) -> Result<Num, u16>
    requires scanned { IsScanned words.now }
    requires small { at < 600 }
    ensures { result ≡ number_at (symbols_of words.now) at }
{
    match symbol_from(words, at) {
        Some(symbol) => plain_number(symbol, symbol_from(words, at + 1)),
        None => Err(22),
    }
}

/// Reads the constant at `start`, as it stands after an address without `=`: a number with its sign
/// if it has one, as a tree, and the place after it. 22 where no number stands there, or one with
/// an exponent.
#[tactic(auto, unfolding(crate::specs::Parsing::constant_at))]
pub fn parse_constant(words: &Words<'_>, start: usize) -> Result<(Expr, usize), u16>
    requires scanned { IsScanned words.now }
    requires within { start ≤ length words.now.tokens }
    ensures value { GivesConstant (constant_at (symbols_of words.now) start) result }
    ensures indices { IfOk result (λ p. IndicesFit (tree_of p.0)) }
{
    match sign_of(symbol_from(words, start)) {
        None => {
            let number = number_at(words, start)?;
            Ok((Expr::Number(number), start + 1))
        }
        Some(false) => {
            let number = number_at(words, start + 1)?;
            Ok((Expr::Number(number), start + 2))
        }
        Some(true) => {
            let number = number_at(words, start + 1)?;
            Ok((Expr::Number(negated(number)), start + 2))
        }
    }
}
