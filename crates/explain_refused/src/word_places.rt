//! At which word a line is refused.
ghost use Rattle.std.specs.Prelude.{◌≡◌, ◌==◌, ◌≤◌, IfOk, length, slice_range};
ghost use Rattle.explain_refused.specs.WordPlaces as model;

use crate::kinds::{is_number, is_parenthesis, is_slash, is_some_letter};
use crate::line_words::LineWord;
use block_scanner::{LINE_LIMIT, ScanFault, scan};
use out_of_memory::NoMemory;
use std::alloc::Global;
use word_tables::{has_large_number, refused_word};

/// The code of a number out of range.
const LARGE_NUMBER: u16 = 21;

/// The code of a call with arguments.
const ARGUMENTS: u16 = 58;

/// The code of a level of `/`.
const SKIP_LEVEL: u16 = 59;

/// Whether a word is refused with this code where it stands alone: a refused word, or a number out of range. `NoMemory` where too
/// little memory is found.
#[tactic(auto, unfolding(crate::specs::WordPlaces::is_refused_alone))]
fn is_refused_alone(alloc: Global, code: u16, text: &[u8]) -> Result<bool, NoMemory>
    ensures { IfOk result (λ refused. refused ≡ model.is_refused_alone code text.now) }
{
    if text.len() > LINE_LIMIT {
        return Ok(false);
    }
    match scan(alloc, text) {
        Ok(words) => Ok(if code == LARGE_NUMBER {
            has_large_number(&words)
        } else {
            refused_word(&words, false) == Some(code)
        }),
        Err(ScanFault::BadByte(_)) | Err(ScanFault::OpenText(_)) => Ok(false),
        Err(ScanFault::NoMemory) => Err(NoMemory),
    }
}

/// Where a word ends: a letter with the number after it.
fn end_of(word: &LineWord, following: &[LineWord]) -> u16
    ensures { result ≡ model.end_of word.now following.now }
{
    match following {
        [next, ..] => {
            if is_some_letter(word.kind) && is_number(next.kind) {
                next.end
            } else {
                word.end
            }
        }
        [] => word.end,
    }
}

/// A part of a line; nothing where it has no such part.
fn part(line: &[u8], start: u16, end: u16) -> &[u8]
    ensures { result.now ≡ model.part line.now start end }
{
    let start = usize::from(start);
    let end = usize::from(end);
    if start <= end && end <= line.len() {
        &line[start..end]
    } else {
        &[]
    }
}

/// The place of the first word that is refused with this code where it stands alone. `NoMemory` where too little memory is found.
fn refused_place(
    alloc: Global,
    code: u16,
    line: &[u8],
    words: &[LineWord],
) -> Result<Option<usize>, NoMemory>
    ensures { IfOk result (λ place. place ≡ model.refused_place code line.now words.now) }
{
    let mut rest = words;
    while let [word, following @ ..] = rest {
        let text = part(line, word.start, end_of(word, following));
        if is_refused_alone(alloc, code, text)? {
            return Ok(Some(usize::from(word.start)));
        }
        rest = following;
    }
    Ok(None)
}

/// The place of the first `(`.
fn parenthesis_place(words: &[LineWord]) -> Option<usize>
    ensures { result ≡ model.parenthesis_place words.now }
{
    for word in words {
        if is_parenthesis(word.kind) {
            return Some(usize::from(word.start));
        }
    }
    None
}

/// The place of the number after a `/` that begins a line.
fn level_place(words: &[LineWord]) -> Option<usize>
    ensures { result ≡ model.level_place words.now }
{
    match words {
        [skip, level, ..] => {
            if is_slash(skip.kind) {
                Some(usize::from(level.start))
            } else {
                None
            }
        }
        _ => None,
    }
}

/// Whether it is the code of a number out of range or of a refused word.
#[tactic(auto, unfolding(crate::specs::WordPlaces::is_word_code))]
fn is_word_code(code: u16) -> bool
    ensures { result ≡ model.is_word_code code }
{
    code == LARGE_NUMBER || (code >= 40 && code <= 57)
}

/// The place of the word at which a line is refused with this code, counted from 0, where the code tells it. `NoMemory` where too
/// little memory is found.
#[tactic(auto, unfolding(crate::specs::WordPlaces::word_place))]
pub(crate) fn word_place(
    alloc: Global,
    code: u16,
    line: &[u8],
    words: &[LineWord],
) -> Result<Option<usize>, NoMemory>
    ensures { IfOk result (λ place. place ≡ model.word_place code line.now words.now) }
{
    if is_word_code(code) {
        refused_place(alloc, code, line, words)
    } else if code == ARGUMENTS {
        Ok(parenthesis_place(words))
    } else if code == SKIP_LEVEL {
        Ok(level_place(words))
    } else {
        Ok(None)
    }
}
