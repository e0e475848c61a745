//! The lines of an input as they were written.
ghost use Rattle.std.specs.Prelude.{◌≡◌, ◌+◌, ◌-◌, ◌<◌, ◌≤◌, ◌^◌, IfOk, IfSome, length, slice_get, take, drop};
ghost use Rattle.std.specs.Option.{unwrap_or};
ghost use Rattle.explain_lines.specs.Lines.{line_starts, line_text, nth_line};
ghost use Rattle.explain_lines.specs.Origins.{header_of};

use crate::headers::headers_of;
use out_of_memory::NoMemory;
use std::alloc::Global;
use std::marker::Model;

/// The lines of an input. In clauses they are the input.
#[derive(Drop)]
pub struct Lines<'a> {
    input: &'a [u8],
    starts: Vec<usize>,
    /// The last header up to and with each line, by its number; 0 where there is none.
    headers: Vec<u32>,
}

impl<'a> Model for Lines<'a> {
    ghost use Rattle.std.specs.Prelude.{◌≡◌, List, ℕ};
    ghost use Rattle.explain_lines.specs.Headers.{AreHeaders};
    ghost use Rattle.explain_lines.specs.Lines.{line_starts};

    ghost Value = { List ℕ };

    ghost view = { λ l. l.input.now };

    ghost invariant = { λ l. (l.starts.items ≡ line_starts l.input.now) × AreHeaders l.input.now l.headers.items };
}

/// Where the lines of an input begin.
#[tactic(auto, using(crate::proofs::LineLaws::starts_at_feed, crate::proofs::LineLaws::starts_at_byte))]
fn starts_of(alloc: Global, input: &[u8]) -> Result<Vec<usize>, NoMemory>
    ensures { IfOk result (λ starts. starts.items ≡ line_starts input.now) }
{
    let mut starts = Vec::new(alloc);
    starts.push(0)?;
    for place in 0..input.len() {
        if input[place] == b'\n' {
            starts.push(place + 1)?;
        }
    }
    Ok(starts)
}

/// A part of a text.
fn part(text: &[u8], from: usize, upto: usize) -> &[u8]
    requires order { from ≤ upto }
    requires within { upto ≤ length text.now }
    ensures { result.now ≡ take (upto - from) (drop from text.now) }
{
    &text[from..upto]
}

impl<'a> Lines<'a> {
    /// The lines of an input. `NoMemory` where too little memory is found.
    pub fn of(alloc: Global, input: &'a [u8]) -> Result<Lines<'a>, NoMemory>
        ensures { IfOk result (λ lines. lines ≡ input.now) }
    {
        let starts = starts_of(alloc, input)?;
        let lines = Lines {
            input,
            starts,
            headers: Vec::new(alloc),
        };
        let headers = headers_of(alloc, &lines)?;
        Ok(Lines {
            input,
            starts: lines.starts,
            headers,
        })
    }

    /// How many lines there are, up to the greatest number of a line.
    pub(crate) fn count(&self) -> u32
        ensures { result < 4294967295 }
    {
        self.starts.len().min(4_294_967_294) as u32
    }

    /// The last header up to and with a line, by its number, or 0; nothing where the input has no such line.
    pub(crate) fn header(&self, line: u32) -> Option<u32>
        ensures { IfSome result (λ header. header ≡ header_of self.now line) }
    {
        self.headers.get(line as usize).copied()
    }

    /// The text of a line, counted from 1, without the white space around it; nothing where the input has no such line.
    pub fn text(&self, line: u32) -> &'a [u8]
        ensures { result.now ≡ line_text self.now line }
    {
        if line == 0 {
            return &[];
        }
        self.line((line - 1) as usize).trim_ascii()
    }

    /// Where a line begins, counted from 0.
    fn start(&self, place: usize) -> Option<usize>
        ensures { result ≡ slice_get (line_starts self.now) place }
    {
        self.starts.get(place).copied()
    }

    /// Where a line ends, counted from 0: where the next one begins, or at the end of the input.
    fn end(&self, place: usize) -> usize
        requires { place + 1 < 2 ^ 64 }
        ensures { result ≡ unwrap_or (slice_get (line_starts self.now) (place + 1)) (length self.now) }
    {
        match self.starts.get(place + 1) {
            Some(upto) => *upto,
            None => self.input.len(),
        }
    }

    /// The line before which so many line feeds stand.
    fn line(&self, place: usize) -> &'a [u8]
        requires { place + 1 < 2 ^ 64 }
        ensures { result.now ≡ nth_line place self.now }
    {
        let upto = self.end(place);
        match self.start(place) {
            Some(from) => part(self.input, from, upto),
            None => &[],
        }
    }
}
