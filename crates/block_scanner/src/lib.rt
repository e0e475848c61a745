//! The tokens of a line of a part program.
#![tactic(auto)]

ghost use Rattle.std.specs.Prelude.{◌≡◌, ◌<◌, length, slice_index_or};

mod beginnings;
mod bytes;
mod cutter;
mod laws;
mod limits;
mod numbers;
mod scanning;
mod signs;

pub use bytes::{is_blank, is_name_part, is_name_start};
pub use cutter::Cutter;
pub use laws::lines_say_one_thing;
pub use limits::LINE_LIMIT;
pub use scanning::scan;
use smallvec::SmallVec;
use std::alloc::AllocFailed;
use std::marker::Model;
use thiserror::Error;

/// A sign of the language.
#[derive(Clone, Copy, Debug, Default, PartialEq, Eq)]
pub enum Sign {
    /// `+`
    #[default]
    Plus,
    /// `-`
    Minus,
    /// `*`
    Times,
    /// `/`
    Slash,
    /// `=`
    Assign,
    /// `==`
    Equal,
    /// `<>`
    NotEqual,
    /// `<`
    Less,
    /// `>`
    Greater,
    /// `<=`
    LessEqual,
    /// `>=`
    GreaterEqual,
    /// `(`
    OpenParenthesis,
    /// `)`
    CloseParenthesis,
    /// `[`
    OpenBracket,
    /// `]`
    CloseBracket,
    /// `,`
    Comma,
    /// `:`
    Colon,
    /// `$`
    Dollar,
}

/// What a token is.
#[derive(Clone, Copy, Default, PartialEq, Eq)]
pub enum Kind {
    /// One letter, kept in upper case.
    Letter(u8),
    /// Two or more letters, digits and underscores, the first two of them no digits.
    #[default]
    Name,
    /// Digits with at most one point.
    Number,
    /// A text with its two quotes.
    Text,
    /// A sign.
    Sign(Sign),
}

/// A token: what it is, and where it stands in its line.
#[derive(Clone, Copy, Default, PartialEq, Eq)]
pub struct Token {
    /// What it is.
    pub kind: Kind,
    /// The place of its first byte, counted from 0.
    pub start: u16,
    /// The place after its last byte.
    pub end: u16,
}

/// A line and its tokens, in order.
#[derive(Drop)]
pub struct Words<'a> {
    /// The line.
    pub line: &'a [u8],
    /// Its tokens.
    pub tokens: SmallVec<Token, 24>,
}

impl<'a> Model for Words<'a> {
    ghost use Rattle.block_scanner.specs.WordsView.{WordsView};

    ghost Value = { WordsView };

    ghost view = { λ w. record { line = w.line.now; tokens = w.tokens.items } };
}

impl Words<'_> {
    ghost use Rattle.block_scanner.specs.Scanned.{IsScanned, IsTokenOf};
    ghost use Rattle.block_scanner.specs.Texts.{text_of};
    ghost use Rattle.block_scanner.specs.Tokenisation.{HasForm};

    /// The token with this number, counted from 0.
    pub fn token(&self, index: usize) -> Token
        requires scanned { IsScanned self.now }
        requires within { index < length self.now.tokens }
        ensures read { result ≡ slice_index_or self.now.tokens index result }
        ensures stands { IsTokenOf self.now.line result }
        ensures formed { HasForm result.kind (text_of self.now.line result) }
    {
        self.tokens[index]
    }

    /// The bytes of a token of this line.
    pub fn text(&self, token: &Token) -> &[u8]
        requires { IsTokenOf self.now.line token.now }
        ensures { result.now ≡ text_of self.now.line token.now }
    {
        &self.line[token.start as usize..token.end as usize]
    }
}

/// Why a line has no tokens. The place is counted from 0.
#[derive(Clone, Copy, Debug, PartialEq, Eq, Error)]
pub enum ScanFault {
    /// No token begins with the byte at this place, which is the first such place.
    #[error("byte {0} is not allowed")]
    BadByte(u16),
    /// A quote at this place opens a text that nothing closes.
    #[error("the text from byte {0} on is not closed")]
    OpenText(u16),
    /// Memory ran out.
    #[error("out of memory")]
    NoMemory,
}

impl<T: Drop> From<AllocFailed<T>> for ScanFault {
    ghost use Rattle.block_scanner.specs.declared.ScanFault.TheVariants.{NoMemory};

    ghost from_gives = { λ _ fault. fault ≡ NoMemory };

    fn from(_failed: AllocFailed<T>) -> ScanFault {
        ScanFault::NoMemory
    }
}
