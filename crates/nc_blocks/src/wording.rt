//! The words of a word block.

ghost use Rattle.nc_expressions.specs.Tree.{IndicesFit, tree_of};
ghost use Rattle.nc_blocks.specs.Indices.{OperandFits, OptionFits, StatementIndicesFit, WordFits};
ghost use Rattle.std.specs.Prelude.{◌≡◌, ◌<◌, ◌≤◌, ◌+◌, ◌∷◌, length, IfOk, All, map};
ghost use Rattle.std.specs.Bool.{OnTrue};
ghost use Rattle.block_scanner.specs.Scanned.{IsScanned};
ghost use Rattle.nc_blocks.specs.Lists.{list_at};
ghost use Rattle.nc_blocks.specs.Reading.{Gives, placed_tree};
ghost use Rattle.nc_blocks.specs.Statement.{statement_view, word_view, placed_word, placed_measure, placed_option, placed_operand, word_item, word_items, operand_view, tree_option};
ghost use Rattle.nc_blocks.specs.Wording.{assigned_at, bracketed_at, assignment_at, group_word, g_at, enclosed_value, measured_at, measured_word, letter_word, axis_word_at, slot_word_at, other_axis_at, is_program_end, plain_aux, aux_value, has_digits_assign, numbered_aux, aux_at, bracket_at, spindle_at, is_spindle_word, name_code, name_word, lettered_word, word_at, word_item_at, words_form};

use crate::axis_names::{has_axis_name, has_axis_word, has_digits};
use crate::blocks::{Measure, Operand, Stmt, Word};
use crate::marks::{
    assign_at, close_at, close_bracket_at, is_keyword, is_word, open_at, word_code,
};
use crate::pieces::{Piece, has_more, piece_at, text_at};
use crate::reading::{index_at, signed, value_at};
use crate::texts::{address, same_text, unquoted, upper_text};
use block_scanner::Words;
use g_groups::GWord;
use micro_units::Num;
use name_tables::is_first_name;
use nc_expressions::{Expr, SyntaxFault};
use std::alloc::{AllocError, Global};
use word_tables::{group_word_by_name, group_word_by_number};

/// `=` and an expression, and the place after.
#[tactic(auto, using(crate::proofs::Passing::passing), unfolding(crate::specs::Wording::assigned_at))]
fn assigned_at(alloc: Global, words: &Words<'_>, at: usize) -> Result<(Expr, usize), SyntaxFault>
    requires { IsScanned words.now }
    ensures exact { Gives placed_tree (assigned_at words.now at) result }
    ensures indices { IfOk result (λ p. IndicesFit (tree_of p.0)) }
    ensures within { IfOk result (λ p. (at < p.1) × (p.1 ≤ length words.now.tokens)) }
{
    match assign_at(words, at, word_code(words, at)) {
        Ok(following) => value_at(alloc, words, following),
        Err(code) => Err(SyntaxFault::Refused(code)),
    }
}

/// The expression in the brackets that open at a place, and the place after them.
#[tactic(auto, using(crate::proofs::Passing::passing), unfolding(crate::specs::Wording::bracketed_at))]
fn bracketed_at(alloc: Global, words: &Words<'_>, at: usize) -> Result<(Expr, usize), SyntaxFault>
    requires scanned { IsScanned words.now }
    requires within { at < length words.now.tokens }
    ensures exact { Gives placed_tree (bracketed_at words.now at) result }
    ensures indices { IfOk result (λ p. IndicesFit (tree_of p.0)) }
    ensures within { IfOk result (λ p. (at < p.1) × (p.1 ≤ length words.now.tokens)) }
{
    let (index, end) = value_at(alloc, words, at + 1)?;
    match close_bracket_at(words, end, word_code(words, end)) {
        Ok(following) => Ok((index, following)),
        Err(code) => Err(SyntaxFault::Refused(code)),
    }
}

/// An assignment to a parameter, after its R.
#[tactic(auto, using(crate::proofs::Passing::passing), unfolding(crate::specs::Wording::assignment_at))]
fn assignment_at(alloc: Global, words: &Words<'_>, at: usize) -> Result<(Word, usize), SyntaxFault>
    requires { IsScanned words.now }
    ensures exact { Gives placed_word (assignment_at words.now at) result }
    ensures indices { IfOk result (λ p. WordFits (word_view p.0)) }
    ensures within { IfOk result (λ p. (at < p.1) × (p.1 ≤ length words.now.tokens)) }
{
    match piece_at(words, at) {
        Piece::OpenBracket => {
            let (index, end) = bracketed_at(alloc, words, at)?;
            let (value, following) = assigned_at(alloc, words, end)?;
            Ok((Word::AssignAt(index, value), following))
        }
        _ => match index_at(words, at, word_code(words, at)) {
            Ok(index) => {
                let (value, following) = assigned_at(alloc, words, at + 1)?;
                Ok((Word::Assign(index, value), following))
            }
            Err(code) => Err(SyntaxFault::Refused(code)),
        },
    }
}

/// A word of a group, or this refusal where it is none.
fn group_word(word: Option<GWord>, next: usize, code: u16) -> Result<(Word, usize), SyntaxFault>
    ensures exact { Gives placed_word (group_word word next code) result }
    ensures indices { IfOk result (λ p. WordFits (word_view p.0)) }
    ensures within { IfOk result (λ p. p.1 ≡ next) }
{
    match word {
        Some(word) => Ok((Word::G(word.group, word.code), next)),
        None => Err(SyntaxFault::Refused(code)),
    }
}

/// A word G, after its letter.
#[tactic(auto, unfolding(crate::specs::Wording::g_at))]
fn g_at(words: &Words<'_>, at: usize) -> Result<(Word, usize), SyntaxFault>
    requires { IsScanned words.now }
    ensures exact { Gives placed_word (g_at words.now at) result }
    ensures indices { IfOk result (λ p. WordFits (word_view p.0)) }
    ensures within { IfOk result (λ p. (at < p.1) × (p.1 ≤ length words.now.tokens)) }
{
    match piece_at(words, at) {
        Piece::Number(number) => group_word(group_word_by_number(number), at + 1, 57),
        _ => Err(SyntaxFault::Refused(word_code(words, at))),
    }
}

/// An expression in parentheses, and the place after them.
#[tactic(auto, using(crate::proofs::Passing::passing), unfolding(crate::specs::Wording::enclosed_value))]
fn enclosed_value(alloc: Global, words: &Words<'_>, at: usize) -> Result<(Expr, usize), SyntaxFault>
    requires { IsScanned words.now }
    ensures exact { Gives placed_tree (enclosed_value words.now at) result }
    ensures indices { IfOk result (λ p. IndicesFit (tree_of p.0)) }
    ensures within { IfOk result (λ p. (at < p.1) × (p.1 ≤ length words.now.tokens)) }
{
    match open_at(words, at, word_code(words, at)) {
        Ok(first) => {
            let (value, end) = value_at(alloc, words, first)?;
            match close_at(words, end, word_code(words, end)) {
                Ok(following) => Ok((value, following)),
                Err(code) => Err(SyntaxFault::Refused(code)),
            }
        }
        Err(code) => Err(SyntaxFault::Refused(code)),
    }
}

/// The value after the `=` of an axis word, and how it is meant.
#[tactic(auto, using(crate::proofs::Passing::passing), unfolding(crate::specs::Wording::measured_at))]
fn measured_at(
    alloc: Global,
    words: &Words<'_>,
    at: usize,
) -> Result<(Measure, Expr, usize), SyntaxFault>
    requires scanned { IsScanned words.now }
    requires within { at ≤ length words.now.tokens }
    ensures exact { Gives placed_measure (measured_at words.now at) result }
    ensures indices { IfOk result (λ p. IndicesFit (tree_of p.1)) }
    ensures within { IfOk result (λ p. (at < p.2) × (p.2 ≤ length words.now.tokens)) }
{
    if is_keyword(words, at, b"AC") {
        let (value, end) = enclosed_value(alloc, words, at + 1)?;
        Ok((Measure::Absolute, value, end))
    } else if is_keyword(words, at, b"IC") {
        let (value, end) = enclosed_value(alloc, words, at + 1)?;
        Ok((Measure::Incremental, value, end))
    } else {
        let (value, end) = value_at(alloc, words, at)?;
        Ok((Measure::Modal, value, end))
    }
}

/// An axis word of this address, after its `=`.
#[tactic(auto, using(crate::proofs::Passing::passing), unfolding(crate::specs::Wording::measured_word))]
fn measured_word(
    alloc: Global,
    words: &Words<'_>,
    address: Vec<u8>,
    at: usize,
) -> Result<(Word, usize), SyntaxFault>
    requires scanned { IsScanned words.now }
    requires within { at ≤ length words.now.tokens }
    ensures exact { Gives placed_word (measured_word words.now address.items at) result }
    ensures indices { IfOk result (λ p. WordFits (word_view p.0)) }
    ensures within { IfOk result (λ p. (at < p.1) × (p.1 ≤ length words.now.tokens)) }
{
    let (measure, value, end) = measured_at(alloc, words, at)?;
    Ok((Word::Axis(address, measure, value), end))
}

/// A letter of an axis or a centre, after it.
#[tactic(auto, using(crate::proofs::Passing::passing), unfolding(crate::specs::Wording::letter_word, crate::specs::Reading::constant_at, crate::specs::Reading::after_sign))]
fn letter_word(
    alloc: Global,
    words: &Words<'_>,
    letter: u8,
    at: usize,
) -> Result<(Word, usize), SyntaxFault>
    requires scanned { IsScanned words.now }
    requires within { at ≤ length words.now.tokens }
    ensures exact { Gives placed_word (letter_word words.now letter at) result }
    ensures indices { IfOk result (λ p. WordFits (word_view p.0)) }
    ensures within { IfOk result (λ p. (at < p.1) × (p.1 ≤ length words.now.tokens)) }
{
    let address = address(alloc, letter, &[])?;
    let first = piece_at(words, at);
    match first {
        Piece::Assign => measured_word(alloc, words, address, at + 1),
        Piece::Number(number) => Ok((
            Word::Axis(address, Measure::Modal, Expr::Number(number)),
            at + 1,
        )),
        Piece::Plus | Piece::Minus => match piece_at(words, at + 1) {
            Piece::Number(number) => Ok((
                Word::Axis(address, Measure::Modal, Expr::Number(signed(first, number))),
                at + 2,
            )),
            _ => Err(SyntaxFault::Refused(word_code(words, at + 1))),
        },
        _ => Err(SyntaxFault::Refused(word_code(words, at))),
    }
}

/// An axis name of this letter with `=` after it.
#[tactic(auto, using(crate::proofs::Passing::passing), unfolding(crate::specs::Wording::axis_word_at))]
fn axis_word_at(
    alloc: Global,
    words: &Words<'_>,
    letter: u8,
    at: usize,
) -> Result<(Word, usize), SyntaxFault>
    requires scanned { IsScanned words.now }
    requires within { at + 2 < length words.now.tokens }
    ensures exact { Gives placed_word (axis_word_at words.now letter at) result }
    ensures indices { IfOk result (λ p. WordFits (word_view p.0)) }
    ensures within { IfOk result (λ p. (at < p.1) × (p.1 ≤ length words.now.tokens)) }
{
    let address = address(alloc, letter, text_at(words, at + 1))?;
    measured_word(alloc, words, address, at + 3)
}

/// X, Y or Z: an axis name, or the letter alone.
#[tactic(auto, unfolding(crate::specs::Wording::slot_word_at))]
fn slot_word_at(
    alloc: Global,
    words: &Words<'_>,
    letter: u8,
    at: usize,
) -> Result<(Word, usize), SyntaxFault>
    requires scanned { IsScanned words.now }
    requires within { at < length words.now.tokens }
    ensures exact { Gives placed_word (slot_word_at words.now letter at) result }
    ensures indices { IfOk result (λ p. WordFits (word_view p.0)) }
    ensures within { IfOk result (λ p. (at < p.1) × (p.1 ≤ length words.now.tokens)) }
{
    if has_axis_word(words, at) {
        axis_word_at(alloc, words, letter, at)
    } else {
        letter_word(alloc, words, letter, at + 1)
    }
}

/// Another letter of axes.
#[tactic(auto, unfolding(crate::specs::Wording::other_axis_at))]
fn other_axis_at(
    alloc: Global,
    words: &Words<'_>,
    letter: u8,
    at: usize,
) -> Result<(Word, usize), SyntaxFault>
    requires { IsScanned words.now }
    ensures exact { Gives placed_word (other_axis_at words.now letter at) result }
    ensures indices { IfOk result (λ p. WordFits (word_view p.0)) }
    ensures within { IfOk result (λ p. (at < p.1) × (p.1 ≤ length words.now.tokens)) }
{
    if has_axis_word(words, at) {
        axis_word_at(alloc, words, letter, at)
    } else if has_axis_name(words, at) {
        Err(SyntaxFault::Refused(word_code(words, at + 2)))
    } else {
        Err(SyntaxFault::Refused(27))
    }
}

/// Whether a letter with a number ends the program.
fn is_program_end(letter: u8, number: Num) -> bool
    ensures { result ≡ is_program_end letter number }
{
    let millionths = number.millionths;
    letter == b'M'
        && (millionths == 2_000_000 || millionths == 30_000_000 || millionths == 17_000_000)
}

/// A letter with a number.
fn plain_aux(alloc: Global, letter: u8, number: Num) -> Result<Word, AllocError>
    ensures exact { IfOk result (λ w. word_view w ≡ plain_aux letter number) }
    ensures indices { IfOk result (λ w. WordFits (word_view w)) }
{
    if is_program_end(letter, number) {
        Ok(Word::End)
    } else {
        let address = address(alloc, letter, &[])?;
        Ok(Word::Aux(address, None, Operand::Value(Expr::Number(number))))
    }
}

/// An expression or a text after `=`.
#[tactic(auto, using(crate::proofs::Passing::passing), unfolding(crate::specs::Wording::aux_value))]
fn aux_value(alloc: Global, words: &Words<'_>, at: usize) -> Result<(Operand, usize), SyntaxFault>
    requires scanned { IsScanned words.now }
    requires within { at ≤ length words.now.tokens }
    ensures exact { Gives placed_operand (aux_value words.now at) result }
    ensures indices { IfOk result (λ p. OperandFits (operand_view p.0)) }
    ensures within { IfOk result (λ p. (at < p.1) × (p.1 ≤ length words.now.tokens)) }
{
    match piece_at(words, at) {
        Piece::Text => {
            let text = same_text(alloc, unquoted(text_at(words, at)))?;
            Ok((Operand::Text(text), at + 1))
        }
        _ => {
            let (value, end) = value_at(alloc, words, at)?;
            Ok((Operand::Value(value), end))
        }
    }
}

/// Whether digits and `=` stand at a place.
#[tactic(auto, unfolding(crate::specs::Wording::has_digits_assign))]
fn has_digits_assign(words: &Words<'_>, at: usize) -> bool
    requires { IsScanned words.now }
    ensures value { result ≡ has_digits_assign words.now at }
    ensures within { OnTrue result (at + 1 < length words.now.tokens) }
{
    if has_digits(words, at) {
        matches!(piece_at(words, at + 1), Piece::Assign)
    } else {
        false
    }
}

/// M, S, T, D, F or H with a number at a place.
#[tactic(auto, using(crate::proofs::Passing::passing), unfolding(crate::specs::Wording::numbered_aux))]
fn numbered_aux(
    alloc: Global,
    words: &Words<'_>,
    letter: u8,
    number: Num,
    at: usize,
) -> Result<(Word, usize), SyntaxFault>
    requires scanned { IsScanned words.now }
    requires within { at < length words.now.tokens }
    ensures exact { Gives placed_word (numbered_aux words.now letter number at) result }
    ensures indices { IfOk result (λ p. WordFits (word_view p.0)) }
    ensures within { IfOk result (λ p. (at < p.1) × (p.1 ≤ length words.now.tokens)) }
{
    if has_digits_assign(words, at) {
        let address = address(alloc, letter, text_at(words, at))?;
        let (value, end) = value_at(alloc, words, at + 2)?;
        Ok((Word::Aux(address, None, Operand::Value(value)), end))
    } else {
        Ok((plain_aux(alloc, letter, number)?, at + 1))
    }
}

/// M, S, T, D, F or H, after the letter.
#[tactic(auto, using(crate::proofs::Passing::passing), unfolding(crate::specs::Wording::aux_at))]
fn aux_at(
    alloc: Global,
    words: &Words<'_>,
    letter: u8,
    at: usize,
) -> Result<(Word, usize), SyntaxFault>
    requires { IsScanned words.now }
    ensures exact { Gives placed_word (aux_at words.now letter at) result }
    ensures indices { IfOk result (λ p. WordFits (word_view p.0)) }
    ensures within { IfOk result (λ p. (at < p.1) × (p.1 ≤ length words.now.tokens)) }
{
    match piece_at(words, at) {
        Piece::Number(number) => numbered_aux(alloc, words, letter, number, at),
        Piece::Assign => {
            let address = address(alloc, letter, &[])?;
            let (value, end) = aux_value(alloc, words, at + 1)?;
            Ok((Word::Aux(address, None, value), end))
        }
        _ => Err(SyntaxFault::Refused(word_code(words, at))),
    }
}

/// An expression in brackets, if they stand there, and the place after.
#[tactic(auto, using(crate::proofs::Passing::passing), unfolding(crate::specs::Wording::bracket_at))]
fn bracket_at(
    alloc: Global,
    words: &Words<'_>,
    at: usize,
) -> Result<(Option<Expr>, usize), SyntaxFault>
    requires { IsScanned words.now }
    ensures exact { Gives placed_option (bracket_at words.now at) result }
    ensures indices { IfOk result (λ p. OptionFits (tree_option p.0)) }
    ensures within { IfOk result (λ p. at ≤ p.1) }
{
    match piece_at(words, at) {
        Piece::OpenBracket => {
            let (index, end) = bracketed_at(alloc, words, at)?;
            Ok((Some(index), end))
        }
        _ => Ok((None, at)),
    }
}

/// SPOS, SPOSA, LIMS or SF, after the name.
#[tactic(auto, using(crate::proofs::Passing::passing), unfolding(crate::specs::Wording::spindle_at))]
fn spindle_at(
    alloc: Global,
    words: &Words<'_>,
    text: &[u8],
    at: usize,
) -> Result<(Word, usize), SyntaxFault>
    requires { IsScanned words.now }
    ensures exact { Gives placed_word (spindle_at words.now text.now at) result }
    ensures indices { IfOk result (λ p. WordFits (word_view p.0)) }
    ensures within { IfOk result (λ p. (at < p.1) × (p.1 ≤ length words.now.tokens)) }
{
    let name = upper_text(alloc, text)?;
    let (index, end) = bracket_at(alloc, words, at)?;
    let (value, following) = assigned_at(alloc, words, end)?;
    Ok((Word::Aux(name, index, Operand::Value(value)), following))
}

/// Whether a name is SPOS, SPOSA, LIMS or SF.
#[tactic(auto, unfolding(crate::specs::Wording::is_spindle_word))]
fn is_spindle_word(text: &[u8]) -> bool
    ensures { result ≡ is_spindle_word text.now }
{
    is_word(text, b"SPOS")
        || is_word(text, b"SPOSA")
        || is_word(text, b"LIMS")
        || is_word(text, b"SF")
}

/// The refusal of a name that begins no word.
fn name_code(text: &[u8]) -> u16
    ensures { result ≡ name_code text.now }
{
    if is_first_name(text) { 24 } else { 27 }
}

/// A word that is a name of this text, after it.
#[tactic(auto, using(crate::proofs::Passing::passing), unfolding(crate::specs::Wording::name_word))]
fn name_word(
    alloc: Global,
    words: &Words<'_>,
    text: &[u8],
    at: usize,
) -> Result<(Word, usize), SyntaxFault>
    requires scanned { IsScanned words.now }
    requires within { at ≤ length words.now.tokens }
    ensures exact { Gives placed_word (name_word words.now text.now at) result }
    ensures indices { IfOk result (λ p. WordFits (word_view p.0)) }
    ensures within { IfOk result (λ p. (at ≤ p.1) × (p.1 ≤ length words.now.tokens)) }
{
    if is_word(text, b"CR") {
        let (value, end) = assigned_at(alloc, words, at)?;
        Ok((Word::Radius(value), end))
    } else if is_spindle_word(text) {
        spindle_at(alloc, words, text, at)
    } else {
        group_word(group_word_by_name(text), at, name_code(text))
    }
}

/// A word that begins with this letter at a place.
#[tactic(auto, unfolding(crate::specs::Wording::lettered_word))]
fn lettered_word(
    alloc: Global,
    words: &Words<'_>,
    letter: u8,
    at: usize,
) -> Result<(Word, usize), SyntaxFault>
    requires scanned { IsScanned words.now }
    requires within { at < length words.now.tokens }
    ensures exact { Gives placed_word (lettered_word words.now letter at) result }
    ensures indices { IfOk result (λ p. WordFits (word_view p.0)) }
    ensures within { IfOk result (λ p. (at < p.1) × (p.1 ≤ length words.now.tokens)) }
{
    match letter {
        b'R' => assignment_at(alloc, words, at + 1),
        b'G' => g_at(words, at + 1),
        b'X' | b'Y' | b'Z' => slot_word_at(alloc, words, letter, at),
        b'I' | b'J' | b'K' => letter_word(alloc, words, letter, at + 1),
        b'M' | b'S' | b'T' | b'D' | b'F' | b'H' => aux_at(alloc, words, letter, at + 1),
        b'A' | b'B' | b'C' | b'U' | b'V' | b'W' => other_axis_at(alloc, words, letter, at),
        _ => Err(SyntaxFault::Refused(27)),
    }
}

/// The word at a place, and the place after it.
#[tactic(auto, unfolding(crate::specs::Wording::word_at))]
fn word_at(alloc: Global, words: &Words<'_>, at: usize) -> Result<(Word, usize), SyntaxFault>
    requires { IsScanned words.now }
    ensures exact { Gives placed_word (word_at words.now at) result }
    ensures indices { IfOk result (λ p. WordFits (word_view p.0)) }
    ensures within { IfOk result (λ p. (at < p.1) × (p.1 ≤ length words.now.tokens)) }
{
    match piece_at(words, at) {
        Piece::Letter(letter) => lettered_word(alloc, words, letter, at),
        Piece::Name => name_word(alloc, words, text_at(words, at), at + 1),
        _ => Err(SyntaxFault::Refused(22)),
    }
}

/// The word at a place, whether another one follows, and the place after it.
#[tactic(auto, using(crate::proofs::Passing::passing), unfolding(crate::specs::Wording::word_item_at))]
fn word_item_at(
    alloc: Global,
    words: &Words<'_>,
    at: usize,
) -> Result<(Word, bool, usize), SyntaxFault>
    requires { IsScanned words.now }
    ensures exact { Gives word_item (word_item_at words.now at) result }
    ensures indices { IfOk result (λ p. WordFits (word_view p.0)) }
    ensures within { IfOk result (λ p. (at < p.2) × (p.2 ≤ length words.now.tokens)) }
{
    let (word, end) = word_at(alloc, words, at)?;
    let more = has_more(words, end);
    Ok((word, more, end))
}

/// How many words get room at once where so many tokens are left: one for two tokens, and four at most.
fn first_room(tokens: usize) -> usize
    ensures { result ≤ 4 }
{
    (tokens - tokens / 2).min(4)
}

/// The words that stand from a place on, one at least, and the place after them.
#[tactic(auto, using(crate::proofs::Listing::list_steps))]
fn words_at(
    alloc: Global,
    words: &Words<'_>,
    start: usize,
) -> Result<(Vec<Word>, usize), SyntaxFault>
    requires scanned { IsScanned words.now }
    requires within { start ≤ length words.now.tokens }
    ensures exact { Gives word_items (list_at (λ _. word_item_at words.now) words.now start) result }
    ensures indices { IfOk result (λ p. All WordFits (map word_view p.0.items)) }
{
    let mut list = Vec::with_capacity(alloc, first_room(words.tokens.len() - start))?;
    let mut at = start;
    loop {
        let (word, more, end) = word_item_at(alloc, words, at)?;
        list.push(word)?;
        if !more {
            return Ok((list, end));
        }
        at = end;
    }
}

/// The word block that stands from a place on to the end of the line, or the refusal of the leftmost
/// place at which it goes on no more. `NoMemory` says nothing of the line.
#[tactic(auto, using(crate::proofs::Passing::passing), unfolding(crate::specs::Wording::words_form))]
pub fn words_form(alloc: Global, words: &Words<'_>, at: usize) -> Result<Stmt, SyntaxFault>
    requires scanned { IsScanned words.now }
    requires within { at ≤ length words.now.tokens }
    ensures exact { Gives statement_view (words_form words.now at) result }
    ensures indices { IfOk result (λ s. StatementIndicesFit (statement_view s)) }
{
    let (list, _) = words_at(alloc, words, at)?;
    Ok(Stmt::Words(list))
}
