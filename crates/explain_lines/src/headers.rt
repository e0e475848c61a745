//! The last header up to and with each line.
ghost use Rattle.std.specs.Prelude.{◌≡◌, ◌==◌, ◌<◌, ◌+◌, IfOk};
ghost use Rattle.std.specs.List.{slice_index};
ghost use Rattle.explain_lines.specs.Headers.{AreHeaders};
ghost use Rattle.explain_lines.specs.Origins.{header_of};

use crate::lines::Lines;
use out_of_memory::NoMemory;
use std::alloc::Global;

/// Whether a line is a header.
pub(crate) fn is_header(text: &[u8]) -> bool
    ensures { result ≡ (slice_index text.now 0 == 37) }
{
    !text.is_empty() && text[0] == b'%'
}

/// The last header up to and with the next line, by its number, where it is this one up to and with a line.
#[tactic(auto, using(crate::proofs::OriginLaws::header_stays, crate::proofs::OriginLaws::header_found))]
fn next_header(lines: &Lines, line: u32, header: u32) -> u32
    requires room { line < 4294967295 }
    requires here { header ≡ header_of lines.now line }
    ensures { result ≡ header_of lines.now (line + 1) }
{
    let next = line + 1;
    if is_header(lines.text(next)) {
        next
    } else {
        header
    }
}

/// The last header up to and with each line of an input, by its number; 0 where there is none. The first place is that of no line.
pub(crate) fn headers_of(alloc: Global, lines: &Lines) -> Result<Vec<u32>, NoMemory>
    ensures { IfOk result (λ headers. AreHeaders lines.now headers.items) }
{
    let mut headers = Vec::new(alloc);
    let mut header = 0;
    headers.push(header)?;
    for line in 0..lines.count() {
        header = next_header(lines, line, header);
        headers.push(header)?;
    }
    Ok(headers)
}
