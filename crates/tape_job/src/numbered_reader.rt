//! A reader of lines that counts them.
use crate::JobFault;
use crate::reader::Reader;
use job_types::Job;
use std::alloc::Global;

/// A reader of lines, and how many it has taken.
#[derive(Drop)]
pub(crate) struct NumberedReader {
    /// What the lines told.
    pub reader: Reader,
    /// How many lines were taken.
    pub number: u32,
}

impl NumberedReader {
    ghost use Rattle.std.specs.Prelude.{◌≡◌, ◌+◌, ◌<◌, ◌^◌, List, ℕ, [], Err, length, IfOk, IfErr};
    ghost use Rattle.job_types.specs.SoundJob.{BlocksFit};
    ghost use Rattle.tape_job.specs.Lines.{begins_with_percent};
    ghost use Rattle.tape_job.specs.Pieces.{AreAlike, IsInOrder, TakesLine, nothing_taken, run_on};
    ghost use Rattle.tape_job.specs.Read.{GivesRead, IsListed};
    ghost use Rattle.tape_job.specs.Steps.{finish};

    /// A reader that has taken no line.
    pub(crate) fn new(alloc: Global) -> NumberedReader
        ensures none { result ≡ nothing_taken }
        ensures in_order { IsInOrder result }
    {
        NumberedReader {
            reader: Reader::new(alloc),
            number: 0,
        }
    }

    /// Takes the next line, or one that is read as it.
    pub(crate) fn line(&mut self, alloc: Global, raw: &[u8]) -> Result<(), JobFault>
        requires in_order { IsInOrder self.old }
        requires room { self.old.number + 1 < 2 ^ 32 }
        ensures exact { (line : List ℕ) → AreAlike line raw.now → TakesLine self.old line result self.new }
        ensures listed { IfErr result IsListed }
    {
        self.number += 1;
        self.reader.line(alloc, self.number, raw)
    }

    /// The refusal of a line that begins so and is too long.
    pub(crate) fn too_long(&self, front: &[u8]) -> JobFault
        requires room { self.now.number + 1 < 2 ^ 32 }
        ensures exact { (line : List ℕ) → 512 < length line → begins_with_percent line ≡ begins_with_percent front.now
            → TakesLine self.now line (Err result) self.now }
        ensures listed { IsListed result }
    {
        JobFault::Refused(self.reader.too_long(self.number + 1, front))
    }

    /// The job that the lines told, or what is refused after them.
    #[tactic(auto, using(crate::proofs::FitLemmas::given_fits), unfolding(crate::specs::Steps::finish))]
    pub(crate) fn finish(self, alloc: Global) -> Result<Job, JobFault>
        requires in_order { IsInOrder self }
        requires room { self.number < 2 ^ 32 }
        ensures exact { GivesRead result (finish (run_on self [])) }
        ensures indices { IfOk result BlocksFit }
        ensures listed { IfErr result IsListed }
    {
        self.reader.finish(alloc)
    }
}
