//! The parts of a file that are no programs.
ghost use Rattle.std.specs.Prelude.{◌≡◌, IfOk, map};
ghost use Rattle.explain_joins.specs.Parts as model;

use crate::lines::{first_word, is_other_part, lines_of, trimmed, without_mark};
use out_of_memory::NoMemory;
use std::alloc::Global;

/// A part of a file that is no program.
#[derive(Clone, Copy)]
pub struct OtherPart<'a> {
    /// The first word of its header, as `%_N_TO_TOA`.
    pub header: &'a [u8],
    /// The line of the file that is its header, counted from 1.
    pub line: u64,
}

/// The parts among lines of which the first has the number 1. `NoMemory` where too little memory is found.
fn parts_in<'a>(alloc: Global, lines: &[&'a [u8]]) -> Result<Vec<OtherPart<'a>>, NoMemory>
    ensures { IfOk result (λ parts. map (λ part. (part.header.now, part.line)) parts.items
        ≡ model.parts_from 1 (map (λ line. line.now) lines.now)) }
{
    let mut parts = Vec::new(alloc);
    let mut number: u64 = 0;
    for line in lines {
        number += 1;
        let header = first_word(trimmed(line));
        if is_other_part(header) {
            parts.push(OtherPart {
                header,
                line: number,
            })?;
        }
    }
    Ok(parts)
}

/// The parts of a file that `joined_input` leaves out, in their order.
///
/// They are those whose header is `%_N_`, a name, and `_` with three letters that are neither `MPF` nor `SPF`. `NoMemory` where
/// too little memory is found.
#[tactic(auto, unfolding(crate::specs::Parts::parts_of))]
pub fn other_parts<'a>(alloc: Global, bytes: &'a [u8]) -> Result<Vec<OtherPart<'a>>, NoMemory>
    ensures { IfOk result (λ parts. map (λ part. (part.header.now, part.line)) parts.items ≡ model.parts_of bytes.now) }
{
    let lines = lines_of(alloc, without_mark(bytes))?;
    parts_in(alloc, lines.as_slice())
}
