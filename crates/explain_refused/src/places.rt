//! At which place a line is refused.
ghost use Rattle.std.specs.Prelude.{◌≡◌, ◌==◌, IfOk, slice_index};
ghost use Rattle.std.specs.List.{list_any, position};
ghost use Rattle.std.specs.Option.{option_or};
ghost use Rattle.explain_refused.specs.Places as model;

use block_scanner::{LINE_LIMIT, ScanFault, scan};
use out_of_memory::NoMemory;
use std::alloc::Global;

/// The code of a byte that may not stand there.
const BAD_BYTE: u16 = 3;

/// The code of a text that is not closed.
const OPEN_TEXT: u16 = 20;

/// The place in a line at which no word can begin, or at which a text begins that does not end. `NoMemory` where too little
/// memory is found.
#[tactic(auto, unfolding(crate::specs::Places::word_fault))]
fn word_fault(alloc: Global, line: &[u8]) -> Result<Option<usize>, NoMemory>
    ensures { IfOk result (λ place. place ≡ model.word_fault line.now) }
{
    if line.len() > LINE_LIMIT {
        return Ok(None);
    }
    match scan(alloc, line) {
        Ok(_) => Ok(None),
        Err(ScanFault::BadByte(place)) => Ok(Some(usize::from(place))),
        Err(ScanFault::OpenText(place)) => Ok(Some(usize::from(place))),
        Err(ScanFault::NoMemory) => Err(NoMemory),
    }
}

/// Whether a byte may not stand in a job line or a header.
fn is_strange(byte: u8) -> bool
    ensures { result ≡ model.is_strange byte }
{
    !(byte == b'\t' || (byte >= 32 && byte <= 126))
}

/// The place of the first byte that may not stand in a job line or a header.
fn strange_place(line: &[u8]) -> Option<usize>
    ensures { result ≡ position model.is_strange line.now }
{
    line.iter().position(|byte| is_strange(*byte))
}

/// Whether a line has a byte that may not stand in a job line or a header.
pub(crate) fn has_strange(line: &[u8]) -> bool
    ensures { result ≡ list_any model.is_strange line.now }
{
    line.iter().any(|byte| is_strange(*byte))
}

/// Whether a line begins with `%`.
pub(crate) fn begins_with_percent(line: &[u8]) -> bool
    ensures { result ≡ model.begins_with_percent line.now }
{
    !line.is_empty() && line[0] == b'%'
}

/// The first of two places that is known.
pub(crate) fn first_known(place: Option<usize>, other: Option<usize>) -> Option<usize>
    ensures { result ≡ option_or place other }
{
    match place {
        Some(place) => Some(place),
        None => other,
    }
}

/// The place of a byte that is not allowed, or of a text that is not closed, counted from 0; none at another code. `NoMemory`
/// where too little memory is found.
#[tactic(auto, unfolding(crate::specs::Places::byte_place))]
pub(crate) fn byte_place(alloc: Global, code: u16, line: &[u8]) -> Result<Option<usize>, NoMemory>
    ensures { IfOk result (λ place. place ≡ model.byte_place code line.now) }
{
    if code != BAD_BYTE && code != OPEN_TEXT {
        return Ok(None);
    }
    let word = word_fault(alloc, line)?;
    if begins_with_percent(line) {
        Ok(first_known(strange_place(line), word))
    } else {
        Ok(first_known(word, strange_place(line)))
    }
}
