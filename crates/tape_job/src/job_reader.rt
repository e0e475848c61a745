//! A reader of a job whose input comes in pieces.
ghost use Rattle.std.specs.Prelude.{◌≡◌, ◌+◌, ◌<◌, ◌^◌, length, Err, IsErr, IfOk, IfErr, OnErr, OnOk};
ghost use Rattle.tape_job.specs.Input.{GoesOn};
ghost use Rattle.tape_job.specs.Pieces.{IsReady};
ghost use Rattle.tape_job.specs.Read.{IsListed};
ghost use Rattle.tape_job.specs.declared.fault.JobFault.TheVariants as faults;

use crate::JobFault;
use crate::piece_reader::PieceReader;
use job_lines::INPUT_LIMIT;
use job_types::Job;
use out_of_memory::NoMemory;
use std::alloc::Global;
use std::marker::Model;

/// Reads an input that comes in pieces: its job, or its first refusal.
///
/// It keeps what the lines so far told and the line that was begun, and nothing else of the input. A refusal is kept as soon
/// as it is met, and then nothing else is.
#[derive(Drop)]
pub struct JobReader {
    alloc: Global,
    given: usize,
    progress: Result<PieceReader, JobFault>,
}

impl Model for JobReader {
    ghost use Rattle.std.specs.Prelude.{◌+◌, ◌≤◌};
    ghost use Rattle.std.specs.Coded.{codes};
    ghost use Rattle.job_lines.specs.declared.limits.TheConstants.{INPUT_LIMIT};
    ghost use Rattle.job_types.specs.TreeCode.{tree_code};
    ghost use Rattle.tape_job.specs.Input.{ReaderView, CanGoOn};

    ghost Value = { ReaderView };

    ghost coded = { Prim.hlevel (codes, tree_code) };

    ghost view = { λ r. record { given = r.given; progress = r.progress } };

    ghost invariant = { λ r. (r.given ≤ INPUT_LIMIT + 1) × CanGoOn r.progress r.given };
}

/// Takes a piece, where nothing has stopped the reader.
fn go_on(
    progress: &mut Result<PieceReader, JobFault>,
    alloc: Global,
    piece: &[u8],
) -> Result<(), JobFault>
    requires ready { IfOk progress.old (λ pieces. IsReady pieces × (pieces.lines.number + length piece.now < 2 ^ 32)) }
    requires listed { IfErr progress.old IsListed }
    ensures exact { GoesOn progress.old piece.now result progress.new }
    ensures left { OnOk result (progress.new ≡ Err faults.NoMemory → ⊥) }
    ensures listed { IfErr result IsListed }
{
    match progress {
        Ok(pieces) => pieces.feed(alloc, piece),
        Err(fault) => Err(*fault),
    }
}

/// Whether memory is left after a fault.
fn memory_left(fault: JobFault) -> Result<(), NoMemory>
    ensures spent { OnErr result (fault ≡ faults.NoMemory) }
    ensures stays { fault ≡ faults.NoMemory → IsErr result }
    ensures left { OnOk result (fault ≡ faults.NoMemory → ⊥) }
{
    match fault {
        JobFault::Refused(_) => Ok(()),
        JobFault::NoMemory => Err(NoMemory),
    }
}

impl JobReader {
    ghost use Rattle.std.specs.Prelude.{◌≡◌, ◌+◌, ◌≤◌, ◌++◌, List, ℕ, [], length, Err, IsErr, IfOk, IfErr, OnErr, OnOk};
    ghost use Rattle.job_types.specs.SoundJob.{BlocksFit};
    ghost use Rattle.fault_codes.specs.declared.Refusal.{Refusal};
    ghost use Rattle.tape_job.specs.Input.{HasRefused, HasTaken, IsSpent};
    ghost use Rattle.tape_job.specs.Read.{GivesRead, IsListed, read_of};
    ghost use Rattle.tape_job.specs.declared.fault.JobFault.TheVariants as faults;

    /// A reader that has taken nothing.
    pub fn new(alloc: Global) -> Result<JobReader, NoMemory>
        ensures none { IfOk result (λ reader. reader.given ≡ 0) }
        ensures taken { IfOk result (λ reader. HasTaken reader []) }
    {
        Ok(JobReader {
            alloc,
            given: 0,
            progress: Ok(PieceReader::new(alloc)),
        })
    }

    /// Takes the next piece. All pieces together have at most one byte more than `INPUT_LIMIT`.
    ///
    /// `NoMemory` comes where memory runs out, and from then on with every later call.
    pub fn feed(&mut self, piece: &[u8]) -> Result<(), NoMemory>
        requires { self.old.given + length piece.now ≤ INPUT_LIMIT + 1 }
        ensures given { self.new.given ≡ self.old.given + length piece.now }
        ensures taken { (bytes : List ℕ) → HasTaken self.old bytes → HasTaken self.new (bytes ++ piece.now) }
        ensures spent { OnErr result (IsSpent self.new) }
        ensures stays { IsSpent self.old → IsErr result }
        ensures left { OnOk result (IsSpent self.new → ⊥) }
    {
        self.given += piece.len();
        match go_on(&mut self.progress, self.alloc, piece) {
            Ok(()) => Ok(()),
            Err(fault) => {
                self.progress = Err(fault);
                memory_left(fault)
            }
        }
    }

    /// The job of all the bytes, or the first refusal: those of `read_job` for these bytes. A refusal that was met is told without
    /// taking memory.
    pub fn finish(self) -> Result<Job, JobFault>
        ensures exact { (bytes : List ℕ) → HasTaken self bytes → GivesRead result (read_of bytes) }
        ensures spent { IsSpent self → result ≡ Err faults.NoMemory }
        ensures refused { (refusal : Refusal) → HasRefused self refusal → result ≡ Err (faults.Refused refusal) }
        ensures indices { IfOk result BlocksFit }
        ensures listed { IfErr result IsListed }
    {
        let JobReader {
            alloc,
            given: _,
            progress,
        } = self;
        match progress {
            Ok(pieces) => pieces.finish(alloc),
            Err(fault) => Err(fault),
        }
    }
}
