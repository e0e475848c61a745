//! Coordination.

ghost use Rattle.nc_blocks.specs.Indices.{OperandFits, StatementIndicesFit};
ghost use Rattle.std.specs.Prelude.{◌≡◌, ◌<◌, ◌≤◌, ◌+◌, ◌∷◌, [], map, length, IfOk, All};
ghost use Rattle.block_scanner.specs.Scanned.{IsScanned};
ghost use Rattle.nc_forms.specs.Coordination.{separator_at, value_argument_at, axis_at, axis_argument_at, argument_at, arguments_form, clear_form, quoted_at, is_wait, wait_at, last_of_init, third, opened_value, init_form, cprot_form, coordination_form};
ghost use Rattle.nc_blocks.specs.Lists.{list_at};
ghost use Rattle.nc_blocks.specs.Reading.{Gives};
ghost use Rattle.nc_blocks.specs.Statement.{statement_view, operand_view, operand_item, operand_items, placed_operand, placed_bytes, placed_bytes_option, bytes_option, bytes_of};

use crate::line_ends::alone;
use block_scanner::Words;
use nc_blocks::{
    CoordWord, Operand, Piece, Stmt, address, close_at, comma_at, expression_at, has_axis_name,
    open_at, piece_at, same_text, text_at, unquoted,
};
use nc_expressions::SyntaxFault;
use std::alloc::{AllocError, Global};

/// What an argument of a coordination word is.
#[derive(Clone, Copy)]
pub enum ArgumentKind {
    /// An expression.
    Value,
    /// An axis name or a slot letter.
    Axis,
}

/// Whether another argument follows, and the place where it begins or after `)`.
#[tactic(auto, unfolding(crate::specs::Coordination::separator_at))]
fn separator_at(words: &Words<'_>, at: usize) -> Result<(bool, usize), u16>
    requires { IsScanned words.now }
    ensures value { result ≡ separator_at words.now at }
    ensures within { IfOk result (λ p. (at < p.1) × (p.1 ≤ length words.now.tokens)) }
{
    match piece_at(words, at) {
        Piece::Comma => Ok((true, at + 1)),
        Piece::Close => Ok((false, at + 1)),
        _ => Err(22),
    }
}

/// An argument that is an expression.
#[tactic(auto, using(nc_blocks::proofs::Passing::passing), unfolding(crate::specs::Coordination::value_argument_at))]
fn value_argument_at(
    alloc: Global,
    words: &Words<'_>,
    at: usize,
) -> Result<(Operand, bool, usize), SyntaxFault>
    requires scanned { IsScanned words.now }
    requires within { at ≤ length words.now.tokens }
    ensures exact { Gives operand_item (value_argument_at words.now at) result }
    ensures indices { IfOk result (λ p. OperandFits (operand_view p.0)) }
    ensures within { IfOk result (λ p. (at < p.2) × (p.2 ≤ length words.now.tokens)) }
{
    let (value, end) = expression_at(alloc, words, at)?;
    match separator_at(words, end) {
        Ok((more, following)) => Ok((Operand::Value(value), more, following)),
        Err(code) => Err(SyntaxFault::Refused(code)),
    }
}

/// An axis name or a slot letter, and the place after it.
#[tactic(auto, unfolding(crate::specs::Coordination::axis_at))]
fn axis_at(alloc: Global, words: &Words<'_>, at: usize) -> Result<(Vec<u8>, usize), SyntaxFault>
    requires { IsScanned words.now }
    ensures exact { Gives placed_bytes (axis_at words.now at) result }
    ensures within { IfOk result (λ p. (at < p.1) × (p.1 ≤ length words.now.tokens)) }
{
    match piece_at(words, at) {
        Piece::Letter(letter) => {
            if has_axis_name(words, at) {
                Ok((address(alloc, letter, text_at(words, at + 1))?, at + 2))
            } else if letter == b'X' || letter == b'Y' || letter == b'Z' {
                Ok((address(alloc, letter, &[])?, at + 1))
            } else {
                Err(SyntaxFault::Refused(22))
            }
        }
        _ => Err(SyntaxFault::Refused(22)),
    }
}

/// An argument that is an axis.
#[tactic(auto, using(nc_blocks::proofs::Passing::passing), unfolding(crate::specs::Coordination::axis_argument_at))]
fn axis_argument_at(
    alloc: Global,
    words: &Words<'_>,
    at: usize,
) -> Result<(Operand, bool, usize), SyntaxFault>
    requires { IsScanned words.now }
    ensures exact { Gives operand_item (axis_argument_at words.now at) result }
    ensures indices { IfOk result (λ p. OperandFits (operand_view p.0)) }
    ensures within { IfOk result (λ p. (at < p.2) × (p.2 ≤ length words.now.tokens)) }
{
    let (axis, end) = axis_at(alloc, words, at)?;
    match separator_at(words, end) {
        Ok((more, following)) => Ok((Operand::Axis(axis), more, following)),
        Err(code) => Err(SyntaxFault::Refused(code)),
    }
}

/// An argument of this kind.
fn argument_at(
    alloc: Global,
    words: &Words<'_>,
    kind: ArgumentKind,
    at: usize,
) -> Result<(Operand, bool, usize), SyntaxFault>
    requires scanned { IsScanned words.now }
    requires within { at ≤ length words.now.tokens }
    ensures exact { Gives operand_item (argument_at words.now kind at) result }
    ensures indices { IfOk result (λ p. OperandFits (operand_view p.0)) }
    ensures within { IfOk result (λ p. (at < p.2) × (p.2 ≤ length words.now.tokens)) }
{
    match kind {
        ArgumentKind::Value => value_argument_at(alloc, words, at),
        ArgumentKind::Axis => axis_argument_at(alloc, words, at),
    }
}

/// Arguments of this kind, one at least, and the place after their `)`.
#[tactic(auto, using(nc_blocks::proofs::Listing::list_steps))]
fn arguments_at(
    alloc: Global,
    words: &Words<'_>,
    kind: ArgumentKind,
    start: usize,
) -> Result<(Vec<Operand>, usize), SyntaxFault>
    requires scanned { IsScanned words.now }
    requires within { start ≤ length words.now.tokens }
    ensures exact { Gives operand_items (list_at (λ _. argument_at words.now kind) words.now start) result }
    ensures indices { IfOk result (λ p. All OperandFits (map operand_view p.0.items)) }
{
    let mut list = Vec::new(alloc);
    let mut at = start;
    loop {
        let (argument, more, end) = argument_at(alloc, words, kind, at)?;
        list.push(argument)?;
        if !more {
            return Ok((list, end));
        }
        at = end;
    }
}

/// A coordination word with arguments of this kind, after its name.
#[tactic(auto, using(nc_blocks::proofs::Passing::passing), unfolding(crate::specs::Coordination::arguments_form))]
fn arguments_form(
    alloc: Global,
    words: &Words<'_>,
    kind: ArgumentKind,
    which: CoordWord,
    at: usize,
) -> Result<Stmt, SyntaxFault>
    requires { IsScanned words.now }
    ensures exact { Gives statement_view (arguments_form words.now kind which at) result }
    ensures indices { IfOk result (λ s. StatementIndicesFit (statement_view s)) }
{
    match open_at(words, at, 22) {
        Ok(first) => {
            let (list, end) = arguments_at(alloc, words, kind, first)?;
            alone(words, end, Stmt::Coord(which, list))
        }
        Err(code) => Err(SyntaxFault::Refused(code)),
    }
}

/// CLEARM, after its name: its parentheses may be empty.
#[tactic(auto, using(nc_blocks::proofs::Passing::passing), unfolding(crate::specs::Coordination::clear_form))]
fn clear_form(
    alloc: Global,
    words: &Words<'_>,
    which: CoordWord,
    at: usize,
) -> Result<Stmt, SyntaxFault>
    requires scanned { IsScanned words.now }
    requires within { at ≤ length words.now.tokens }
    ensures exact { Gives statement_view (clear_form words.now which at) result }
    ensures indices { IfOk result (λ s. StatementIndicesFit (statement_view s)) }
{
    match piece_at(words, at + 1) {
        Piece::Close => match open_at(words, at, 22) {
            Ok(_) => alone(words, at + 2, Stmt::Coord(which, Vec::new(alloc))),
            Err(code) => Err(SyntaxFault::Refused(code)),
        },
        _ => arguments_form(alloc, words, ArgumentKind::Value, which, at),
    }
}

/// The text at a place, without its quotes.
#[tactic(auto, unfolding(crate::specs::Coordination::quoted_at))]
fn quoted_at(alloc: Global, words: &Words<'_>, at: usize) -> Result<Vec<u8>, SyntaxFault>
    requires { IsScanned words.now }
    ensures exact { Gives bytes_of (quoted_at words.now at) result }
    ensures within { IfOk result (λ _. at < length words.now.tokens) }
{
    match piece_at(words, at) {
        Piece::Text => Ok(same_text(alloc, unquoted(text_at(words, at)))?),
        _ => Err(SyntaxFault::Refused(22)),
    }
}

/// Whether a text is N or S.
fn is_wait(text: &[u8]) -> bool
    ensures { result ≡ is_wait text.now }
{
    text == b"N".as_slice() || text == b"S".as_slice()
}

/// The third argument of INIT.
#[tactic(auto, using(nc_blocks::proofs::Passing::passing), unfolding(crate::specs::Coordination::wait_at))]
fn wait_at(alloc: Global, words: &Words<'_>, at: usize) -> Result<Vec<u8>, SyntaxFault>
    requires { IsScanned words.now }
    ensures exact { Gives bytes_of (wait_at words.now at) result }
    ensures within { IfOk result (λ _. at < length words.now.tokens) }
{
    let text = quoted_at(alloc, words, at)?;
    if is_wait(&text) {
        Ok(text)
    } else {
        Err(SyntaxFault::Refused(22))
    }
}

/// A third argument of INIT, if there is one, and the place after `)`.
#[tactic(auto, using(nc_blocks::proofs::Passing::passing), unfolding(crate::specs::Coordination::last_of_init))]
fn last_of_init(
    alloc: Global,
    words: &Words<'_>,
    at: usize,
) -> Result<(Option<Vec<u8>>, usize), SyntaxFault>
    requires { IsScanned words.now }
    ensures { Gives placed_bytes_option (last_of_init words.now at) result }
{
    match separator_at(words, at) {
        Ok((false, end)) => Ok((None, end)),
        Ok((true, next)) => {
            let text = wait_at(alloc, words, next)?;
            match close_at(words, next + 1, 22) {
                Ok(end) => Ok((Some(text), end)),
                Err(code) => Err(SyntaxFault::Refused(code)),
            }
        }
        Err(code) => Err(SyntaxFault::Refused(code)),
    }
}

/// `(`, an expression and a comma, and the place after.
#[tactic(auto, using(nc_blocks::proofs::Passing::passing), unfolding(crate::specs::Coordination::opened_value))]
fn opened_value(
    alloc: Global,
    words: &Words<'_>,
    at: usize,
) -> Result<(Operand, usize), SyntaxFault>
    requires { IsScanned words.now }
    ensures exact { Gives placed_operand (opened_value words.now at) result }
    ensures indices { IfOk result (λ p. OperandFits (operand_view p.0)) }
    ensures within { IfOk result (λ p. p.1 ≤ length words.now.tokens) }
{
    match open_at(words, at, 22) {
        Ok(first) => {
            let (value, end) = expression_at(alloc, words, first)?;
            match comma_at(words, end) {
                Ok(following) => Ok((Operand::Value(value), following)),
                Err(code) => Err(SyntaxFault::Refused(code)),
            }
        }
        Err(code) => Err(SyntaxFault::Refused(code)),
    }
}

/// Two arguments, and a text as a third one if there is one.
fn operands(
    alloc: Global,
    first: Operand,
    second: Operand,
    last: Option<Vec<u8>>,
) -> Result<Vec<Operand>, AllocError>
    requires first_fits { OperandFits (operand_view first) }
    requires second_fits { OperandFits (operand_view second) }
    ensures indices { IfOk result (λ v. All OperandFits (map operand_view v.items)) }
    ensures exact { IfOk result (λ v. map operand_view v.items ≡ operand_view first
        ∷ (operand_view second ∷ third (bytes_option last))) }
{
    let mut list = Vec::new(alloc);
    list.push(first)?;
    list.push(second)?;
    match last {
        Some(text) => {
            list.push(Operand::Text(text))?;
            Ok(list)
        }
        None => Ok(list),
    }
}

/// INIT, after its name.
#[tactic(auto, using(nc_blocks::proofs::Passing::passing), unfolding(crate::specs::Coordination::init_form))]
fn init_form(
    alloc: Global,
    words: &Words<'_>,
    which: CoordWord,
    at: usize,
) -> Result<Stmt, SyntaxFault>
    requires { IsScanned words.now }
    ensures exact { Gives statement_view (init_form words.now which at) result }
    ensures indices { IfOk result (λ s. StatementIndicesFit (statement_view s)) }
{
    let (channel, place) = opened_value(alloc, words, at)?;
    let program = quoted_at(alloc, words, place)?;
    let (more, end) = last_of_init(alloc, words, place + 1)?;
    let list = operands(alloc, channel, Operand::Text(program), more)?;
    alone(words, end, Stmt::Coord(which, list))
}

/// CPROT, after its name.
#[tactic(auto, using(nc_blocks::proofs::Passing::passing), unfolding(crate::specs::Coordination::cprot_form))]
fn cprot_form(
    alloc: Global,
    words: &Words<'_>,
    which: CoordWord,
    at: usize,
) -> Result<Stmt, SyntaxFault>
    requires { IsScanned words.now }
    ensures exact { Gives statement_view (cprot_form words.now which at) result }
    ensures indices { IfOk result (λ s. StatementIndicesFit (statement_view s)) }
{
    let (zone, place) = opened_value(alloc, words, at)?;
    let (state, following) = expression_at(alloc, words, place)?;
    match close_at(words, following, 22) {
        Ok(end) => {
            let list = operands(alloc, zone, Operand::Value(state), None)?;
            alone(words, end, Stmt::Coord(which, list))
        }
        Err(code) => Err(SyntaxFault::Refused(code)),
    }
}

/// The form of a coordination word, after its name.
#[tactic(auto, unfolding(crate::specs::Coordination::coordination_form))]
pub fn coordination_form(
    alloc: Global,
    words: &Words<'_>,
    which: CoordWord,
    at: usize,
) -> Result<Stmt, SyntaxFault>
    requires scanned { IsScanned words.now }
    requires within { at ≤ length words.now.tokens }
    ensures exact { Gives statement_view (coordination_form words.now which at) result }
    ensures indices { IfOk result (λ s. StatementIndicesFit (statement_view s)) }
{
    match which {
        CoordWord::WaitM
        | CoordWord::WaitMC
        | CoordWord::SetM
        | CoordWord::Start
        | CoordWord::WaitE => arguments_form(alloc, words, ArgumentKind::Value, which, at),
        CoordWord::Release | CoordWord::Get => {
            arguments_form(alloc, words, ArgumentKind::Axis, which, at)
        }
        CoordWord::ClearM => clear_form(alloc, words, which, at),
        CoordWord::Init => init_form(alloc, words, which, at),
        CoordWord::CProt => cprot_form(alloc, words, which, at),
    }
}
