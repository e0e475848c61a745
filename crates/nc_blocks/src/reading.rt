//! The expressions, numbers and names of a block.

ghost use Rattle.std.specs.Prelude.{◌≡◌, ◌<◌, ◌≤◌, ◌^◌, length, IfOk};
ghost use Rattle.std.specs.Int.RustNames.{unsigned_abs};
ghost use Rattle.block_scanner.specs.Scanned.{IsScanned};
ghost use Rattle.nc_expressions.specs.Tree.{tree_of, IndicesFit};
ghost use Rattle.nc_blocks.specs.declared.pieces.Piece.{Piece};
ghost use Rattle.nc_blocks.specs.Reading.{Gives, placed_tree, expression_at, value_at, after_sign, with_sign, constant_at, block_number, block_number_at, parameter_number, index_at, label_at};
ghost use Rattle.nc_expressions.specs.declared.limits.TheConstants.{LAST_PARAMETER};

use crate::marks::word_code;
use crate::pieces::{Piece, piece_at, text_at};
use block_scanner::Words;
use micro_units::Num;
use nc_expressions::{Expr, NameText, SyntaxFault, expr_stop, index_of, is_digits, parse_expr};
use std::alloc::Global;

/// The expression at a place, and the place after it; or the refusal of the leftmost place at which
/// no expression goes on, 22, 23 or 26. `NoMemory` says nothing of the line.
#[tactic(auto, unfolding(crate::specs::Reading::expression_at))]
pub fn expression_at(
    alloc: Global,
    words: &Words<'_>,
    at: usize,
) -> Result<(Expr, usize), SyntaxFault>
    requires scanned { IsScanned words.now }
    requires within { at ≤ length words.now.tokens }
    ensures exact { Gives placed_tree (expression_at words.now at) result }
    ensures within { IfOk result (λ p. (at < p.1) × (p.1 ≤ length words.now.tokens)) }
    ensures indices { IfOk result (λ p. IndicesFit (tree_of p.0)) }
{
    parse_expr(alloc, words, at)
}

/// The expression at a place of a word block, and the place after it.
#[tactic(auto, unfolding(crate::specs::Reading::value_at))]
pub(crate) fn value_at(
    alloc: Global,
    words: &Words<'_>,
    at: usize,
) -> Result<(Expr, usize), SyntaxFault>
    requires scanned { IsScanned words.now }
    requires within { at ≤ length words.now.tokens }
    ensures exact { Gives placed_tree (value_at words.now at) result }
    ensures within { IfOk result (λ p. (at < p.1) × (p.1 ≤ length words.now.tokens)) }
    ensures indices { IfOk result (λ p. IndicesFit (tree_of p.0)) }
{
    match expression_at(alloc, words, at) {
        Ok(read) => Ok(read),
        Err(SyntaxFault::NoMemory) => Err(SyntaxFault::NoMemory),
        Err(SyntaxFault::Refused(code)) => {
            let stop = expr_stop(alloc, words, at)?;
            if code == 22 {
                Err(SyntaxFault::Refused(word_code(words, stop)))
            } else {
                Err(SyntaxFault::Refused(code))
            }
        }
    }
}

/// The place after a sign, if one stands there.
#[tactic(auto, unfolding(crate::specs::Reading::after_sign))]
pub(crate) fn after_sign(words: &Words<'_>, at: usize) -> usize
    requires scanned { IsScanned words.now }
    requires within { at ≤ length words.now.tokens }
    ensures value { result ≡ after_sign words.now at }
    ensures within { (at ≤ result) × (result ≤ length words.now.tokens) }
{
    match piece_at(words, at) {
        Piece::Plus | Piece::Minus => at + 1,
        _ => at,
    }
}

/// The number after what may be its sign.
pub(crate) fn signed(first: Piece, number: Num) -> Num
    ensures { result ≡ with_sign first number }
{
    match first {
        Piece::Minus => Num {
            millionths: -number.millionths,
        },
        _ => number,
    }
}

/// The number at a place, with its sign if it has one, and the place after it; or this refusal.
#[tactic(auto, unfolding(crate::specs::Reading::constant_at))]
pub fn constant_at(words: &Words<'_>, at: usize, code: u16) -> Result<(Num, usize), u16>
    requires scanned { IsScanned words.now }
    requires within { at ≤ length words.now.tokens }
    ensures value { result ≡ constant_at words.now at code }
    ensures within { IfOk result (λ p. (at < p.1) × (p.1 ≤ length words.now.tokens)) }
{
    let place = after_sign(words, at);
    match piece_at(words, place) {
        Piece::Number(number) => Ok((signed(piece_at(words, at), number), place + 1)),
        _ => Err(code),
    }
}

/// The number of a block, from the text and the value of a number.
#[tactic(auto, unfolding(crate::specs::Reading::block_number))]
fn block_number(text: &[u8], number: Num) -> Result<u32, u16>
    ensures { result ≡ block_number text.now number }
{
    let whole = (number.millionths.unsigned_abs() / 1_000_000) as u32;
    if is_digits(text) && text.len() <= 8 {
        Ok(whole)
    } else {
        Err(22)
    }
}

/// The number of a block at a place, which has one to eight digits; or the refusal 22.
#[tactic(auto, unfolding(crate::specs::Reading::block_number_at))]
pub fn block_number_at(words: &Words<'_>, at: usize) -> Result<u32, u16>
    requires { IsScanned words.now }
    ensures value { result ≡ block_number_at words.now at }
    ensures within { IfOk result (λ _. at < length words.now.tokens) }
{
    match piece_at(words, at) {
        Piece::Number(number) => block_number(text_at(words, at), number),
        _ => Err(22),
    }
}

/// The number of a parameter, from the text and the value of a number.
#[tactic(auto, unfolding(crate::specs::Reading::parameter_number))]
fn parameter_number(text: &[u8], number: Num) -> Result<u16, u16>
    ensures value { result ≡ parameter_number text.now number }
    ensures within { IfOk result (λ i. i ≤ LAST_PARAMETER) }
{
    match index_of(number) {
        Some(index) if is_digits(text) => Ok(index),
        _ => Err(22),
    }
}

/// The parameter number at a place: digits, at most `LAST_PARAMETER` by their value. Another number is refused by
/// 22, and what is no number by the given code.
#[tactic(auto, unfolding(crate::specs::Reading::index_at))]
pub fn index_at(words: &Words<'_>, at: usize, code: u16) -> Result<u16, u16>
    requires { IsScanned words.now }
    ensures value { result ≡ index_at words.now at code }
    ensures within { IfOk result (λ i. (i ≤ LAST_PARAMETER) × (at < length words.now.tokens)) }
{
    match piece_at(words, at) {
        Piece::Number(number) => parameter_number(text_at(words, at), number),
        _ => Err(code),
    }
}

/// The name at a place, or the refusal 22.
#[tactic(auto, unfolding(crate::specs::Reading::label_at))]
pub fn label_at(words: &Words<'_>, at: usize) -> Result<NameText, u16>
    requires { IsScanned words.now }
    ensures value { result ≡ label_at words.now at }
    ensures within { IfOk result (λ _. at < length words.now.tokens) }
{
    match piece_at(words, at) {
        Piece::Name => Ok(NameText::of_word(text_at(words, at))),
        _ => Err(22),
    }
}
