//! What a refused line would do.
ghost use Rattle.std.specs.Prelude.{◌≡◌, ◌==◌, ◌<◌, ◌≤◌, ◌^◌, IfOk, length};
ghost use Rattle.std.specs.List.{list_any, list_all};
ghost use Rattle.explain_refused.specs.Effects as model;

use crate::kinds::{depth_after, is_colon, is_letter, is_name, is_number, is_slash};
use crate::line_words::{LineWord, words_of};
use crate::names::NameClass;
use block_scanner::{Kind, Sign};
use out_of_memory::NoMemory;
use std::alloc::Global;

/// What a refused line would do.
#[derive(Clone, Copy, PartialEq, Eq)]
pub enum Effect {
    /// It would move an axis, branch or calculate; or it is not known to do neither.
    MayMove,
    /// It moves nothing here: without it each channel has the motions that it has with it.
    MovesNothing,
}

/// The codes of a block with a word that is not known: a statement that is not alone, an unknown address, a coupling, a call with
/// arguments.
pub(crate) static QUIET_CODES: [u16; 4] = [24, 27, 51, 58];

/// Whether a block is refused with this code where it has a word that is not known.
fn is_quiet_code(code: u16) -> bool
    ensures { result ≡ model.is_quiet_code code }
{
    QUIET_CODES.iter().any(|other| *other == code)
}

/// What follows the `/` of a block.
fn after_skip(words: &[LineWord]) -> &[LineWord]
    ensures { result.now ≡ model.after_skip words.now }
{
    match words {
        [skip, rest @ ..] => { if is_slash(skip.kind) { rest } else { words } }
        _ => words,
    }
}

/// What follows the number of a block.
fn after_number(words: &[LineWord]) -> &[LineWord]
    ensures { result.now ≡ model.after_number words.now }
{
    match words {
        [letter, number, rest @ ..] => {
            if is_letter(letter.kind, b'N') && is_number(number.kind) {
                rest
            } else {
                words
            }
        }
        _ => words,
    }
}

/// What follows the label of a block.
fn after_label(words: &[LineWord]) -> &[LineWord]
    ensures { result.now ≡ model.after_label words.now }
{
    match words {
        [name, colon, rest @ ..] => {
            if is_name(name.kind) && is_colon(colon.kind) {
                rest
            } else {
                words
            }
        }
        _ => words,
    }
}

/// What follows the `/`, the number and the label of a block.
fn body_of(words: &[LineWord]) -> &[LineWord]
    ensures { result.now ≡ model.body_of words.now }
{
    after_label(after_number(after_skip(words)))
}

/// Whether a name of this class moves no axis, or couples.
fn is_quiet_name(class: NameClass) -> bool
    ensures { result ≡ model.is_quiet_name class }
{
    matches!(class, NameClass::Quiet | NameClass::Coupling)
}

/// Whether a name of this class couples.
fn is_coupling(class: NameClass) -> bool
    ensures { result ≡ model.is_coupling class }
{
    matches!(class, NameClass::Coupling)
}

/// Whether a sign may stand outside parentheses and brackets of a line that moves nothing.
fn is_quiet_sign(sign: Sign) -> bool
    ensures { result ≡ model.is_quiet_sign sign }
{
    matches!(
        sign,
        Sign::Assign | Sign::OpenParenthesis | Sign::OpenBracket
    )
}

/// Whether a word may stand outside parentheses and brackets of a line that moves nothing.
fn is_quiet(word: &LineWord) -> bool
    ensures { result ≡ model.is_quiet word.now.kind word.now.class }
{
    match word.kind {
        Kind::Name => is_quiet_name(word.class),
        Kind::Letter(letter) => letter == b'F' || letter == b'S',
        Kind::Number => true,
        Kind::Sign(sign) => is_quiet_sign(sign),
        Kind::Text => false,
    }
}

/// Whether outside parentheses and brackets nothing stands but words that move nothing.
fn stands_quiet(words: &[LineWord]) -> bool
    requires { length words.now < 2 ^ 32 }
    ensures { result ≡ model.stands_quiet 0 words.now }
{
    let mut depth: usize = 0;
    for word in words {
        if depth == 0 && !is_quiet(word) {
            return false;
        }
        depth = depth_after(word.kind, depth);
    }
    depth == 0
}

/// Whether a word may stand in a line that couples spindles alone.
fn is_of_spindles(word: &LineWord) -> bool
    ensures { result ≡ model.is_of_spindles word.now.kind word.now.class }
{
    match word.kind {
        Kind::Name => is_quiet_name(word.class),
        Kind::Letter(letter) => letter == b'S',
        Kind::Number | Kind::Text | Kind::Sign(_) => true,
    }
}

/// Whether some word couples.
fn has_coupling(words: &[LineWord]) -> bool
    ensures { result ≡ list_any (λ word. model.is_coupling word.class) words.now }
{
    words.iter().any(|word| is_coupling(word.class))
}

/// Whether each word may stand in a line that couples spindles alone.
fn are_of_spindles(words: &[LineWord]) -> bool
    ensures { result ≡ list_all (λ word. model.is_of_spindles word.kind word.class) words.now }
{
    words.iter().all(|word| is_of_spindles(word))
}

/// Whether these words of a block move nothing.
#[tactic(auto, unfolding(crate::specs::Effects::moves_nothing))]
fn moves_nothing(words: &[LineWord]) -> bool
    requires { length words.now < 2 ^ 32 }
    ensures { result ≡ model.moves_nothing words.now }
{
    stands_quiet(words) && (!has_coupling(words) || are_of_spindles(words))
}

/// The place of the first word.
fn first_place(words: &[LineWord]) -> Option<usize>
    ensures { result ≡ model.first_place words.now }
{
    match words {
        [word, ..] => Some(usize::from(word.start)),
        [] => None,
    }
}

/// The place of the body of a block that is refused with this code and moves nothing.
#[tactic(auto, unfolding(crate::specs::Effects::quiet_place_in))]
pub(crate) fn quiet_place_in(code: u16, words: &[LineWord]) -> Option<usize>
    requires { length words.now < 2 ^ 32 }
    ensures { result ≡ model.quiet_place_in code words.now }
{
    let body = body_of(words);
    if is_quiet_code(code) && moves_nothing(body) {
        first_place(body)
    } else {
        None
    }
}

/// The place in a line at which the body of its block begins, counted from 0, where the line is refused with this code and moves
/// nothing; none elsewhere. A block keeps its motions without its body, and jumps still find its number and its label. `NoMemory`
/// where too little memory is found.
#[tactic(auto, unfolding(crate::specs::Effects::quiet_place))]
pub fn quiet_place(alloc: Global, code: u16, line: &[u8]) -> Result<Option<usize>, NoMemory>
    ensures { IfOk result (λ place. place ≡ model.quiet_place code line.now) }
{
    let words = words_of(alloc, line)?;
    Ok(quiet_place_in(code, words.as_slice()))
}
