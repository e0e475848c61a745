//! Axis names.

ghost use Rattle.std.specs.Prelude.{◌≡◌, ◌<◌, ◌+◌, IfSome, length};
ghost use Rattle.std.specs.Bool.{OnTrue};
ghost use Rattle.block_scanner.specs.Scanned.{IsScanned};
ghost use Rattle.nc_blocks.specs.AxisNames.{is_axis_letter, is_axis_start, has_digits, has_axis_name, has_axis_word, slot_named};
ghost use Rattle.nc_blocks.specs.Pieces.{piece_at};

use crate::pieces::{Piece, piece_at, text_at};
use block_scanner::Words;
use nc_expressions::is_digits;

/// Whether a letter is that of axes.
fn is_axis_letter(letter: u8) -> bool
    ensures { result ≡ is_axis_letter letter }
{
    matches!(
        letter,
        b'A' | b'B' | b'C' | b'U' | b'V' | b'W' | b'X' | b'Y' | b'Z'
    )
}

/// Whether a number of digits alone stands at a place.
#[tactic(auto, unfolding(crate::specs::AxisNames::has_digits))]
pub(crate) fn has_digits(words: &Words<'_>, at: usize) -> bool
    requires { IsScanned words.now }
    ensures value { result ≡ has_digits words.now at }
    ensures within { OnTrue result (at < length words.now.tokens) }
{
    match piece_at(words, at) {
        Piece::Number(_) => is_digits(text_at(words, at)),
        _ => false,
    }
}

/// Whether the letter of an axis stands at a place.
fn has_axis_letter(words: &Words<'_>, at: usize) -> bool
    requires { IsScanned words.now }
    ensures value { result ≡ is_axis_start (piece_at words.now at) }
    ensures within { OnTrue result (at < length words.now.tokens) }
{
    match piece_at(words, at) {
        Piece::Letter(letter) => is_axis_letter(letter),
        _ => false,
    }
}

/// Whether an axis name stands at a place.
#[tactic(auto, unfolding(crate::specs::AxisNames::has_axis_name))]
pub fn has_axis_name(words: &Words<'_>, at: usize) -> bool
    requires { IsScanned words.now }
    ensures value { result ≡ has_axis_name words.now at }
    ensures within { OnTrue result (at + 1 < length words.now.tokens) }
{
    has_axis_letter(words, at) && has_digits(words, at + 1)
}

/// Whether an axis name and `=` stand at a place.
#[tactic(auto, unfolding(crate::specs::AxisNames::has_axis_word, crate::specs::AxisNames::has_axis_name))]
pub fn has_axis_word(words: &Words<'_>, at: usize) -> bool
    requires { IsScanned words.now }
    ensures value { result ≡ has_axis_word words.now at }
    ensures within { OnTrue result (at + 2 < length words.now.tokens) }
{
    if has_axis_letter(words, at) {
        match piece_at(words, at + 2) {
            Piece::Assign => has_digits(words, at + 1),
            _ => false,
        }
    } else {
        false
    }
}

/// The slot of a geometry axis with the letter `name`: 0, 1 and 2 for X, Y and Z.
pub fn slot_named(name: &[u8]) -> Option<u8>
    ensures slot { result ≡ slot_named name.now }
    ensures below { IfSome result (λ slot. slot < 3) }
{
    if name == b"X".as_slice() {
        Some(0)
    } else if name == b"Y".as_slice() {
        Some(1)
    } else if name == b"Z".as_slice() {
        Some(2)
    } else {
        None
    }
}
