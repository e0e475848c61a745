//! What stands at a place of a line.

ghost use Rattle.std.specs.Prelude.{◌≡◌, ◌<◌, length, position, IfSome};
ghost use Rattle.block_scanner.specs.Bytes.{is_quote};
ghost use Rattle.block_scanner.specs.Front.{front, word_front, text_front, FitsIn};

use crate::Kind;
use crate::bytes::{begins_with_digit, begins_with_name_start, is_blank, is_name_start};
use crate::numbers::{digits_at, name_parts_at, number_more};
use crate::signs::sign_front;

/// What stands at a place of a line.
#[derive(Clone, Copy)]
pub(crate) enum Front {
    /// A blank or a tab.
    Blank,
    /// A comment, up to the end of the line.
    Comment,
    /// A token of this kind: the first byte and so many more.
    Stands(Kind, usize),
    /// A byte with which no token begins.
    Forbidden,
    /// A quote that opens a text which nothing closes.
    Unclosed,
}

/// The place of the first quote.
fn quote_in(bytes: &[u8]) -> Option<usize>
    ensures value { result ≡ position is_quote bytes.now }
    ensures within { IfSome result (λ place. place < length bytes.now) }
{
    bytes.iter().position(|byte| *byte == b'"')
}

/// A text, whose opening quote stands before these bytes.
fn text_front(bytes: &[u8]) -> Front
    ensures value { result ≡ text_front (position is_quote bytes.now) }
    ensures fits { FitsIn result (length bytes.now) }
{
    match quote_in(bytes) {
        Some(place) => Front::Stands(Kind::Text, place + 1),
        None => Front::Unclosed,
    }
}

/// A name or a letter, from its first byte on.
#[tactic(auto, unfolding(crate::specs::Front::word_front))]
fn word_front(byte: u8, following: &[u8]) -> Front
    ensures value { result ≡ word_front byte following.now }
    ensures fits { FitsIn result (length following.now) }
{
    if begins_with_name_start(following) {
        Front::Stands(Kind::Name, name_parts_at(following))
    } else if byte.is_ascii_alphabetic() {
        Front::Stands(Kind::Letter(byte.to_ascii_uppercase()), 0)
    } else {
        Front::Forbidden
    }
}

/// What stands at a byte of a line, with those after it.
#[tactic(auto, unfolding(crate::specs::Front::front))]
pub(crate) fn front_of(byte: u8, following: &[u8]) -> Front
    ensures value { result ≡ front byte following.now }
    ensures fits { FitsIn result (length following.now) }
{
    if is_blank(byte) {
        Front::Blank
    } else if byte == b';' {
        Front::Comment
    } else if byte == b'"' {
        text_front(following)
    } else if is_name_start(byte) {
        word_front(byte, following)
    } else if byte.is_ascii_digit() {
        Front::Stands(Kind::Number, number_more(following))
    } else if byte == b'.' && begins_with_digit(following) {
        Front::Stands(Kind::Number, digits_at(following))
    } else {
        sign_front(byte, following)
    }
}
