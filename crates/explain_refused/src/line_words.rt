//! The words of a refused line.
ghost use Rattle.std.specs.Prelude.{◌≡◌, ◌<◌, ◌≤◌, IfOk, length, map, slice_index_or};
ghost use Rattle.block_scanner.specs.Scanned.{IsScanned, IsTokenOf};
ghost use Rattle.block_scanner.specs.Texts.{text_of};
ghost use Rattle.explain_refused.specs.LineWords.{class_in, word_of, words_of};

use crate::names::{NameClass, class_of};
use block_scanner::{Kind, LINE_LIMIT, ScanFault, Token, Words, scan};
use out_of_memory::NoMemory;
use std::alloc::Global;

/// A word of a line: a token, and what it is as a name.
#[derive(Clone, Copy)]
pub(crate) struct LineWord {
    /// What the token is.
    pub kind: Kind,
    /// What it is as a name; another one where it is no name.
    pub class: NameClass,
    /// The place of its first byte, counted from 0.
    pub start: u16,
    /// The place after its last byte.
    pub end: u16,
}

/// What a token of a line is as a name.
fn class_at(words: &Words<'_>, token: Token) -> NameClass
    requires { IsTokenOf words.now.line token }
    ensures { result ≡ class_in token.kind (text_of words.now.line token) }
{
    match token.kind {
        Kind::Name => class_of(words.text(&token)),
        Kind::Letter(_) | Kind::Number | Kind::Text | Kind::Sign(_) => NameClass::Other,
    }
}

/// The word that a token of a line is.
#[tactic(auto, unfolding(crate::specs::LineWords::word_of))]
fn word_of(words: &Words<'_>, token: Token) -> LineWord
    requires { IsTokenOf words.now.line token }
    ensures { result ≡ word_of words.now.line token }
{
    LineWord {
        kind: token.kind,
        class: class_at(words, token),
        start: token.start,
        end: token.end,
    }
}

/// The words that the tokens of a line are.
fn words_in(alloc: Global, words: &Words<'_>) -> Result<Vec<LineWord>, NoMemory>
    requires { IsScanned words.now }
    ensures exact { IfOk result (λ list. list.items ≡ map (word_of words.now.line) words.now.tokens) }
    ensures few { IfOk result (λ list. length list.items ≡ length words.now.tokens) }
{
    let mut list = Vec::new(alloc);
    for index in 0..words.tokens.len() {
        list.push(word_of(words, words.token(index)))?;
    }
    Ok(list)
}

/// The words of a line; none where it is too long, or has a byte or a text that cannot be read. `NoMemory` where too little
/// memory is found.
#[tactic(auto, unfolding(crate::specs::LineWords::words_of))]
pub(crate) fn words_of(alloc: Global, line: &[u8]) -> Result<Vec<LineWord>, NoMemory>
    ensures exact { IfOk result (λ list. list.items ≡ words_of line.now) }
    ensures few { IfOk result (λ list. length list.items ≤ LINE_LIMIT) }
{
    if line.len() > LINE_LIMIT {
        return Ok(Vec::new(alloc));
    }
    match scan(alloc, line) {
        Ok(words) => words_in(alloc, &words),
        Err(ScanFault::BadByte(_)) | Err(ScanFault::OpenText(_)) => Ok(Vec::new(alloc)),
        Err(ScanFault::NoMemory) => Err(NoMemory),
    }
}
