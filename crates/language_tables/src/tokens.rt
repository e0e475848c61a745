//! The tokens of a line.

use block_scanner::{Kind, Words};
use std::io;

/// Writes what a token is: a letter by itself, a sign by its name, another by its kind.
fn print_kind(rt: &impl Print, kind: Kind) -> io::Result<()> {
    match kind {
        Kind::Sign(sign) => print!(rt; "{sign:?}"),
        Kind::Letter(letter) => print!(rt; "{}", char::from(letter)),
        Kind::Number => print!(rt; "number"),
        Kind::Name => print!(rt; "name"),
        Kind::Text => print!(rt; "text"),
    }
}

/// Tells each token of a line, with the places of its first byte and after its last.
pub(crate) fn tell_tokens(rt: &impl Print, words: &Words<'_>) -> io::Result<()> {
    for token in words.tokens.iter() {
        print_kind(rt, token.kind)?;
        print!(rt; " {} {}, ", token.start, token.end)?;
    }
    println!(rt; "end")
}
