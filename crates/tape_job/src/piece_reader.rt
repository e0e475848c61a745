//! A reader of an input that comes in pieces.
use crate::JobFault;
use crate::lines::length_of_first;
use crate::numbered_reader::NumberedReader;
use block_scanner::Cutter;
use job_types::Job;
use std::alloc::Global;

/// A reader of lines whose bytes come in pieces.
#[derive(Drop)]
pub(crate) struct PieceReader {
    /// What the lines told whose line feed was taken.
    pub lines: NumberedReader,
    /// The line after them, as far as it was taken, where it was begun.
    pub cutter: Cutter,
    /// Whether it was begun.
    pub begun: bool,
}

impl PieceReader {
    ghost use Rattle.std.specs.Prelude.{◌≡◌, ◌+◌, ◌<◌, ◌^◌, List, ℕ, [], false, length, IfOk, IfErr};
    ghost use Rattle.job_types.specs.SoundJob.{BlocksFit};
    ghost use Rattle.tape_job.specs.Pieces.{IsReady, TakesFront, TakesPiece, outcome};
    ghost use Rattle.tape_job.specs.Read.{GivesRead, IsListed, read_of};

    /// A reader that has taken nothing.
    pub(crate) fn new(alloc: Global) -> PieceReader
        ensures ready { IsReady result }
        ensures none { result.lines.number ≡ 0 }
        ensures all { (input : List ℕ) → outcome result input ≡ read_of input }
    {
        PieceReader {
            lines: NumberedReader::new(alloc),
            cutter: Cutter::new(),
            begun: false,
        }
    }

    /// Takes the bytes of the piece that belong to its first line, through the cutter, and answers how many these are.
    fn cut(&mut self, alloc: Global, piece: &[u8]) -> Result<usize, JobFault>
        requires ready { IsReady self.old }
        requires some { 0 < length piece.now }
        requires room { self.old.lines.number + 1 < 2 ^ 32 }
        ensures exact { TakesFront self.old piece.now result self.new }
        ensures listed { IfErr result IsListed }
    {
        let (taken, ended) = self.cutter.take(piece);
        self.begun = !ended;
        if self.cutter.too_long() {
            return Err(self.lines.too_long(self.cutter.line()));
        }
        if !ended {
            return Ok(taken);
        }
        self.lines.line(alloc, self.cutter.line())?;
        Ok(taken)
    }

    /// Takes the bytes of the piece that belong to its first line, and answers how many these are. A line that lies whole in
    /// the piece is read there.
    fn front(&mut self, alloc: Global, piece: &[u8]) -> Result<usize, JobFault>
        requires ready { IsReady self.old }
        requires some { 0 < length piece.now }
        requires room { self.old.lines.number + 1 < 2 ^ 32 }
        ensures exact { TakesFront self.old piece.now result self.new }
        ensures listed { IfErr result IsListed }
    {
        if self.begun {
            return self.cut(alloc, piece);
        }
        match length_of_first(piece) {
            Some(length) => {
                self.lines.line(alloc, &piece[..length])?;
                Ok(length)
            }
            None => self.cut(alloc, piece),
        }
    }

    /// Takes a piece.
    pub(crate) fn feed(&mut self, alloc: Global, piece: &[u8]) -> Result<(), JobFault>
        requires ready { IsReady self.old }
        requires room { self.old.lines.number + length piece.now < 2 ^ 32 }
        ensures exact { TakesPiece self.old piece.now result self.new }
        ensures listed { IfErr result IsListed }
    {
        let mut rest = piece;
        while !rest.is_empty() {
            let taken = self.front(alloc, rest)?;
            rest = &rest[taken..];
        }
        Ok(())
    }

    /// The job that the lines told, with one that lacks its line feed, or what is refused.
    pub(crate) fn finish(self, alloc: Global) -> Result<Job, JobFault>
        requires ready { IsReady self }
        requires room { self.lines.number + 1 < 2 ^ 32 }
        ensures exact { GivesRead result (outcome self []) }
        ensures indices { IfOk result BlocksFit }
        ensures listed { IfErr result IsListed }
    {
        let PieceReader {
            mut lines,
            cutter,
            begun,
        } = self;
        if !begun {
            return lines.finish(alloc);
        }
        lines.line(alloc, cutter.line())?;
        lines.finish(alloc)
    }
}
