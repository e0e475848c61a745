//! Lines of an input that comes in pieces.
ghost use Rattle.std.specs.Prelude.{◌≡◌, ◌+◌, ◌<◌, ◌≤◌, ◌++◌, length, min, take, position};
ghost use Rattle.block_scanner.specs.LineParts.{is_feed, first_of, without_end};

use crate::limits::LINE_LIMIT;
use std::marker::Model;

/// The place of the first line feed.
fn feed_in(bytes: &[u8]) -> Option<usize>
    ensures { result ≡ position is_feed bytes.now }
{
    bytes.iter().position(|byte| *byte == b'\n')
}

/// How many bytes of a piece belong to its first line, and whether the line ends there.
#[tactic(auto, unfolding(crate::specs::LineParts::first_of))]
fn first_in(piece: &[u8]) -> (usize, bool)
    requires { 0 < length piece.now }
    ensures value { result ≡ first_of piece.now }
    ensures some { 0 < result.0 }
    ensures within { result.0 ≤ length piece.now }
{
    match feed_in(piece) {
        Some(at) => (at + 1, true),
        None => (piece.len(), false),
    }
}

/// A line without its line feed and a carriage return before that.
#[tactic(auto, unfolding(crate::specs::LineParts::without_end))]
fn without_end(bytes: &[u8]) -> &[u8]
    ensures { result.now ≡ without_end bytes.now }
{
    match bytes {
        [front @ .., b'\n'] => match front {
            [text @ .., b'\r'] => text,
            _ => front,
        },
        _ => bytes,
    }
}

/// Puts bytes behind those that a buffer keeps, as many as it has room for, and answers how many it keeps then.
fn fill(buffer: &mut [u8], kept: usize, bytes: &[u8]) -> usize
    requires { kept ≤ length buffer.old }
    ensures front { take result buffer.new ≡ take (length buffer.old) (take kept buffer.old ++ bytes.now) }
    ensures number { result ≡ min (length buffer.old) (kept + length bytes.now) }
{
    let more = (buffer.len() - kept).min(bytes.len());
    buffer[kept..kept + more].copy_from_slice(&bytes[..more]);
    kept + more
}

/// Cuts an input that comes in pieces into its lines. It holds one line at a time, and takes no memory.
#[derive(Drop)]
pub struct Cutter {
    buffer: [u8; LINE_LIMIT],
    kept: usize,
    too_long: bool,
    ended: bool,
}

impl Model for Cutter {
    ghost use Rattle.std.specs.Prelude.{◌≤◌, take};
    ghost use Rattle.block_scanner.specs.LineParts.{LinePart};
    ghost use Rattle.block_scanner.specs.declared.limits.TheConstants.{LINE_LIMIT};

    ghost Value = { LinePart };

    ghost view = { λ c. record { front = take c.kept c.buffer; too_long = c.too_long; ended = c.ended } };

    ghost invariant = { λ c. c.kept ≤ LINE_LIMIT };
}

impl Cutter {
    ghost use Rattle.std.specs.Prelude.{◌≡◌, ◌<◌, ◌≤◌, ◌++◌, List, [], ℕ, true, false, length, take};
    ghost use Rattle.block_scanner.specs.LineParts.{first_of, part_of, line_of};

    /// A cutter that has taken nothing.
    #[tactic(auto, unfolding(crate::specs::LineParts::part_of))]
    pub fn new() -> Cutter
        ensures { result ≡ part_of [] false }
    {
        Cutter {
            buffer: [0; LINE_LIMIT],
            kept: 0,
            too_long: false,
            ended: false,
        }
    }

    /// Begins a new line.
    #[tactic(auto, unfolding(crate::specs::LineParts::part_of))]
    fn begin(&mut self)
        ensures { self.new ≡ part_of [] false }
    {
        self.kept = 0;
        self.too_long = false;
        self.ended = false;
    }

    /// Takes more bytes of the line.
    fn keep(&mut self, bytes: &[u8], ended: bool)
        ensures { (raw : List ℕ) → self.old ≡ part_of raw false → self.new ≡ part_of (raw ++ bytes.now) ended }
    {
        self.too_long = self.too_long || bytes.len() > LINE_LIMIT - self.kept;
        self.kept = fill(&mut self.buffer, self.kept, bytes);
        self.ended = ended;
    }

    /// Takes the bytes of a piece up to and with its first line feed, or all of it where it has none. Answers how many these
    /// are, and whether the line ends with them. The next call after the end of a line begins a new line. The piece has at
    /// least one byte.
    pub fn take(&mut self, piece: &[u8]) -> (usize, bool)
        requires { 0 < length piece.now }
        ensures first { result ≡ first_of piece.now }
        ensures some { 0 < result.0 }
        ensures within { result.0 ≤ length piece.now }
        ensures goes_on { (raw : List ℕ) → self.old ≡ part_of raw false
            → self.new ≡ part_of (raw ++ take result.0 piece.now) result.1 }
        ensures begins { (raw : List ℕ) → self.old ≡ part_of raw true
            → self.new ≡ part_of (take result.0 piece.now) result.1 }
    {
        if self.ended {
            self.begin();
        }
        let (length, ended) = first_in(piece);
        self.keep(&piece[..length], ended);
        (length, ended)
    }

    /// The line without its line end, which is a line feed and a carriage return before it, or its first `LINE_LIMIT` bytes
    /// where it is too long. Before its line feed was taken it is what was taken of it so far.
    #[tactic(auto, unfolding(crate::specs::LineParts::line_of))]
    pub fn line(&self) -> &[u8]
        ensures { result.now ≡ line_of self.now }
    {
        let front = &self.buffer[..self.kept];
        if self.too_long {
            front
        } else {
            without_end(front)
        }
    }

    /// Whether the line, as far as it was taken, has more than `LINE_LIMIT` bytes, with its line feed.
    pub fn too_long(&self) -> bool
        ensures { result ≡ self.now.too_long }
    {
        self.too_long
    }
}
