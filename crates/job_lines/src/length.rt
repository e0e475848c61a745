//! Lengths, read from words.
ghost use Rattle.std.specs.Prelude.{◌≡◌, neg_ℤ, position};
ghost use Rattle.micro_units.specs.NumberText.{is_point};
ghost use Rattle.micro_units.specs.Rounding.{half_away};
ghost use Rattle.job_lines.specs.Length.{is_size, in_reach, size_of, signed_size_of, length_of};

use crate::code::Code;
use crate::numbers::is_digits;
use micro_units::{Num, Um, is_position};

/// The place of the first point.
fn point_in(text: &[u8]) -> Option<usize>
    ensures { result ≡ position is_point text.now }
{
    text.iter().position(|byte| *byte == b'.')
}

/// Whether the text is one to five digits, and after a point one to three.
#[tactic(auto, unfolding(crate::specs::Length::is_size))]
fn is_size(text: &[u8]) -> bool
    ensures { result ≡ is_size text.now }
{
    match point_in(text) {
        Some(place) => is_digits(1, 5, &text[..place]) && is_digits(1, 3, &text[place + 1..]),
        None => is_digits(1, 5, text),
    }
}

/// The number of millimetres in micrometres, where that is a position.
#[tactic(auto, unfolding(crate::specs::Length::in_reach))]
fn in_reach(number: Num) -> Option<Um>
    ensures { result ≡ in_reach (half_away number 1000) }
{
    match number.to_um() {
        Ok(um) if is_position(um.micrometres) => Some(um),
        _ => None,
    }
}

/// The size of a length, without its sign.
#[tactic(auto, unfolding(crate::specs::Length::size_of))]
fn size_in(text: &[u8]) -> Option<Um>
    ensures { result ≡ size_of text.now }
{
    if !is_size(text) {
        return None;
    }
    match Num::parse(text) {
        Ok(number) => in_reach(number),
        Err(_) => None,
    }
}

/// The length on the other side of 0.
fn negated(size: Um) -> Um
    ensures { result ≡ neg_ℤ size }
{
    Um {
        micrometres: -size.micrometres,
    }
}

/// A length with its sign.
#[tactic(auto, unfolding(crate::specs::Length::signed_size_of))]
fn signed_size_in(word: &[u8]) -> Option<Um>
    ensures { result ≡ signed_size_of word.now }
{
    match word {
        [b'-', text @ ..] => match size_in(text) {
            Some(size) => Some(negated(size)),
            None => None,
        },
        [b'+', text @ ..] => size_in(text),
        _ => size_in(word),
    }
}

/// The length that the word writes, in millimetres with at most three decimals.
#[tactic(auto, unfolding(crate::specs::Length::length_of))]
pub(crate) fn length_in(word: &[u8]) -> Result<Um, Code>
    ensures { result ≡ length_of word.now }
{
    match signed_size_in(word) {
        Some(size) => Ok(size),
        None => Err(Code::OutOfRange),
    }
}
