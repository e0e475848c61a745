//! Signs and names that a form wants at a place, and what comes at its end.

ghost use Rattle.std.specs.Prelude.{◌≡◌, ◌<◌, ◌≤◌, length, IfOk, IsTrue};
ghost use Rattle.std.specs.Bool.{OnTrue};
ghost use Rattle.block_scanner.specs.Scanned.{IsScanned};
ghost use Rattle.nc_expressions.specs.Symbols.{is_word};
ghost use Rattle.nc_blocks.specs.Marks.{code_at, word_code, end_at, assign_at, open_at, close_at, close_bracket_at, comma_at, is_keyword, keyword_at};

use crate::pieces::{Piece, piece_at, text_at};
use block_scanner::Words;
use name_tables::is_first_name;

/// Whether a text is a word, in upper or lower case.
pub fn is_word(text: &[u8], word: &[u8]) -> bool
    ensures { result ≡ is_word text.now word.now }
{
    text.eq_ignore_ascii_case(word)
}

/// The refusal at a place that no form takes: this one, but 22 where what stands there fits no form
/// at all.
#[tactic(auto, unfolding(crate::specs::Marks::code_at))]
pub fn code_at(words: &Words<'_>, at: usize, code: u16) -> u16
    requires { IsScanned words.now }
    ensures { result ≡ code_at words.now at code }
{
    match piece_at(words, at) {
        Piece::Broken => 22,
        _ => code,
    }
}

/// The refusal at a place that no word block takes: 24 at the first name of another form.
#[tactic(auto, unfolding(crate::specs::Marks::word_code))]
pub(crate) fn word_code(words: &Words<'_>, at: usize) -> u16
    requires { IsScanned words.now }
    ensures { result ≡ word_code words.now at }
{
    match piece_at(words, at) {
        Piece::Name => {
            if is_first_name(text_at(words, at)) {
                24
            } else {
                22
            }
        }
        _ => 22,
    }
}

/// The end of a form: `Ok` where the line has ended, else the refusal of what stands there, 22 where
/// it fits no form and 24 otherwise.
#[tactic(auto, unfolding(crate::specs::Marks::end_at))]
pub fn end_at(words: &Words<'_>, at: usize) -> Result<usize, u16>
    requires { IsScanned words.now }
    ensures { result ≡ end_at words.now at }
{
    match piece_at(words, at) {
        Piece::End => Ok(0),
        Piece::Broken => Err(22),
        _ => Err(24),
    }
}

/// The place after `=`, or this refusal where it does not stand at the place.
#[tactic(auto, unfolding(crate::specs::Marks::assign_at))]
pub fn assign_at(words: &Words<'_>, at: usize, code: u16) -> Result<usize, u16>
    requires { IsScanned words.now }
    ensures value { result ≡ assign_at words.now at code }
    ensures within { IfOk result (λ p. (at < p) × (p ≤ length words.now.tokens)) }
{
    match piece_at(words, at) {
        Piece::Assign => Ok(at + 1),
        _ => Err(code),
    }
}

/// The place after `(`, or this refusal.
#[tactic(auto, unfolding(crate::specs::Marks::open_at))]
pub fn open_at(words: &Words<'_>, at: usize, code: u16) -> Result<usize, u16>
    requires { IsScanned words.now }
    ensures value { result ≡ open_at words.now at code }
    ensures within { IfOk result (λ p. (at < p) × (p ≤ length words.now.tokens)) }
{
    match piece_at(words, at) {
        Piece::Open => Ok(at + 1),
        _ => Err(code),
    }
}

/// The place after `)`, or this refusal.
#[tactic(auto, unfolding(crate::specs::Marks::close_at))]
pub fn close_at(words: &Words<'_>, at: usize, code: u16) -> Result<usize, u16>
    requires { IsScanned words.now }
    ensures value { result ≡ close_at words.now at code }
    ensures within { IfOk result (λ p. (at < p) × (p ≤ length words.now.tokens)) }
{
    match piece_at(words, at) {
        Piece::Close => Ok(at + 1),
        _ => Err(code),
    }
}

/// The place after `]`, or this refusal.
#[tactic(auto, unfolding(crate::specs::Marks::close_bracket_at))]
pub(crate) fn close_bracket_at(words: &Words<'_>, at: usize, code: u16) -> Result<usize, u16>
    requires { IsScanned words.now }
    ensures value { result ≡ close_bracket_at words.now at code }
    ensures within { IfOk result (λ p. (at < p) × (p ≤ length words.now.tokens)) }
{
    match piece_at(words, at) {
        Piece::CloseBracket => Ok(at + 1),
        _ => Err(code),
    }
}

/// The place after a comma, or the refusal 22.
#[tactic(auto, unfolding(crate::specs::Marks::comma_at))]
pub fn comma_at(words: &Words<'_>, at: usize) -> Result<usize, u16>
    requires { IsScanned words.now }
    ensures value { result ≡ comma_at words.now at }
    ensures within { IfOk result (λ p. (at < p) × (p ≤ length words.now.tokens)) }
{
    match piece_at(words, at) {
        Piece::Comma => Ok(at + 1),
        _ => Err(22),
    }
}

/// Whether this name stands at a place, in upper or lower case.
#[tactic(auto, unfolding(crate::specs::Marks::is_keyword))]
pub fn is_keyword(words: &Words<'_>, at: usize, word: &[u8]) -> bool
    requires { IsScanned words.now }
    ensures value { result ≡ is_keyword words.now at word.now }
    ensures within { OnTrue result (at < length words.now.tokens) }
{
    match piece_at(words, at) {
        Piece::Name => is_word(text_at(words, at), word),
        _ => false,
    }
}

/// The place after this name, or the refusal 22.
#[tactic(auto, unfolding(crate::specs::Marks::keyword_at))]
pub fn keyword_at(words: &Words<'_>, at: usize, word: &[u8]) -> Result<usize, u16>
    requires { IsScanned words.now }
    ensures value { result ≡ keyword_at words.now at word.now }
    ensures within { IfOk result (λ p. (at < p) × (p ≤ length words.now.tokens)) }
{
    if is_keyword(words, at, word) {
        Ok(at + 1)
    } else {
        Err(22)
    }
}
