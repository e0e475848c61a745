//! A reader of lines, one after the other.
use crate::JobFault;
use crate::draft::Draft;
use crate::library::refusal;
use crate::lines::{begins_with_percent, has_token, is_bare};
use crate::reading::{LineFault, Reading, reading_in};
use fault_codes::Refusal;
use job_lines::Code;
use job_types::Job;
use std::alloc::Global;
use std::marker::Model;

/// What the lines so far told.
#[derive(Drop)]
pub(crate) struct Reader {
    seen: bool,
    in_programs: bool,
    draft: Draft,
}

impl Model for Reader {
    ghost use Rattle.std.specs.Coded.{codes};
    ghost use Rattle.job_types.specs.TreeCode.{tree_code};
    ghost use Rattle.tape_job.specs.Told.{Told};

    ghost Value = { Told };

    ghost coded = { Prim.hlevel (codes, tree_code) };

    ghost view = { λ r. record {
      seen = r.seen;
      in_programs = r.in_programs;
      options = r.draft.options;
      job = r.draft.job;
    } };
}

impl Reader {
    ghost use Rattle.std.specs.Prelude.{◌≡◌, ◌<◌, ◌≤◌, ◌+◌, ◌^◌, ℕ, List, [], length, Ok, None, Some, OnOk, IfOk, IfErr, IfSome};
    ghost use Rattle.fault_codes.specs.Codes.{IsRefusalCode};
    ghost use Rattle.tape_job.specs.Reading.{reading_view, reading_of, ReadingFits, FaultIsListed};
    ghost use Rattle.tape_job.specs.Rules.{last_count, rule_of};
    ghost use Rattle.job_types.specs.SoundJob.{BlocksFit};
    ghost use Rattle.tape_job.specs.Told.{facts_of};
    ghost use Rattle.tape_job.specs.Lines.{begins_with_percent};
    ghost use Rattle.tape_job.specs.Read.{answer, code_by, end_of_program, end_trial, trial, GivesRead, IsListed};
    ghost use Rattle.tape_job.specs.Steps.{tell, Adds, Admits, Tells};

    /// A reader to which no line is told.
    #[tactic(auto, using(crate::proofs::FitLemmas::nothing_fits, crate::proofs::FitLemmas::nothing_short), unfolding(crate::specs::Told::facts_of, crate::specs::Told::accept_compensation, crate::specs::Told::by_channel))]
    pub(crate) fn new(alloc: Global) -> Reader
        ensures value { result ≡ facts_of [] }
        ensures fits { BlocksFit result.job }
        ensures count { last_count result.job.programs ≡ 0 }
    {
        Reader {
            seen: false,
            in_programs: false,
            draft: Draft::new(alloc),
        }
    }

    /// The refusal of a structure that a line leaves open which ends its program.
    #[tactic(auto, unfolding(crate::specs::Read::end_of_program))]
    fn unmatched(&self, raw: &[u8]) -> Option<Refusal>
        ensures value { result ≡ end_of_program self.now.job raw.now }
        ensures listed { IfSome result (λ refused. IsRefusalCode refused.code) }
    {
        if begins_with_percent(raw) {
            self.draft.unmatched()
        } else {
            None
        }
    }

    /// What a line says that breaks no rule, or the refusal that it gives; of a block it is open whether it breaks the structures of its program.
    #[tactic(auto, using(crate::proofs::ReadingLemmas::rule_breaks), unfolding(crate::specs::Read::line_trial, crate::specs::Rules::refusal))]
    fn admit(&self, alloc: Global, number: u32, raw: &[u8]) -> Result<Reading, JobFault>
        ensures exact { Admits self.now (number, raw.now) result }
        ensures fits { IfOk result (λ reading. ReadingFits (reading_view reading)) }
        ensures listed { IfErr result IsListed }
    {
        match reading_in(
            alloc,
            self.seen,
            self.in_programs,
            self.draft.job.compensation,
            raw,
        ) {
            Ok(reading) => match self.draft.rule(&reading) {
                Some(code) => Err(JobFault::Refused(refusal(code, number))),
                None => Ok(reading),
            },
            Err(LineFault::Broken(code)) => Err(JobFault::Refused(Refusal { code, line: number })),
            Err(LineFault::NoMemory) => Err(JobFault::NoMemory),
        }
    }

    /// Tells what a line says that is admitted, unless it is a block that breaks the structures of its program.
    #[tactic(auto, unfolding(crate::specs::Steps::tell))]
    fn tell(
        &mut self,
        alloc: Global,
        number: u32,
        raw: &[u8],
        reading: Reading,
    ) -> Result<(), LineFault>
        requires said { reading_of self.old.seen self.old.in_programs self.old.job.compensation
            raw.now ≡ Ok (reading_view reading) }
        requires admitted { rule_of self.old.options self.old.job (reading_view reading) ≡ None }
        requires short { last_count self.old.job.programs < 2 ^ 32 }
        ensures exact { Adds (code_by self.old.options self.old.job number (Ok (reading_view reading)))
            (tell self.old (number, raw.now)) result self.new }
        ensures listed { IfErr result FaultIsListed }
    {
        self.draft.add(alloc, number, reading)?;
        self.seen = self.seen || has_token(raw);
        self.in_programs = self.in_programs || begins_with_percent(raw);
        Ok(())
    }

    /// Takes the next line. One of a program that is nothing but its line end tells nothing.
    #[tactic(auto, unfolding(crate::specs::Read::trial, crate::specs::Read::line_trial))]
    pub(crate) fn line(&mut self, alloc: Global, number: u32, raw: &[u8]) -> Result<(), JobFault>
        requires short { last_count self.old.job.programs < 2 ^ 32 }
        ensures exact { Tells self.old (number, raw.now) result self.new }
        ensures fits { BlocksFit self.old.job → OnOk result (BlocksFit self.new.job) }
        ensures count { OnOk result (last_count self.new.job.programs ≤ last_count self.old.job.programs + 1) }
        ensures listed { IfErr result IsListed }
    {
        if self.in_programs && is_bare(raw) {
            return Ok(());
        }
        if let Some(refused) = self.unmatched(raw) {
            return Err(JobFault::Refused(refused));
        }
        let reading = self.admit(alloc, number, raw)?;
        match self.tell(alloc, number, raw, reading) {
            Ok(()) => Ok(()),
            Err(LineFault::Broken(code)) => Err(JobFault::Refused(Refusal { code, line: number })),
            Err(LineFault::NoMemory) => Err(JobFault::NoMemory),
        }
    }

    /// The refusal of a line that begins so and has more bytes than a line may have.
    #[tactic(auto, using(crate::proofs::PieceLemmas::long_trial))]
    pub(crate) fn too_long(&self, number: u32, front: &[u8]) -> Refusal
        ensures exact { (line : List ℕ) → 512 < length line → begins_with_percent line ≡ begins_with_percent front.now
            → trial self.now (number, line) ≡ Some result }
        ensures listed { IsRefusalCode result.code }
    {
        match self.unmatched(front) {
            Some(refused) => refused,
            None => refusal(Code::LineTooLong, number),
        }
    }

    /// The job that the lines told, or what is refused after them.
    #[tactic(auto, unfolding(crate::specs::Read::end_trial))]
    pub(crate) fn finish(self, alloc: Global) -> Result<Job, JobFault>
        requires { last_count self.job.programs < 2 ^ 32 }
        ensures exact { GivesRead result (answer (end_trial self) self.job) }
        ensures listed { IfErr result IsListed }
    {
        let Reader {
            seen,
            in_programs: _,
            draft,
        } = self;
        if let Some(refused) = draft.unmatched() {
            return Err(JobFault::Refused(refused));
        }
        if let Some(refused) = draft.missing() {
            return Err(JobFault::Refused(refused));
        }
        if !seen {
            return Err(JobFault::Refused(refusal(Code::NoJobLine, 1)));
        }
        match draft.resolve(alloc) {
            Ok(job) => Ok(job),
            Err(_) => Err(JobFault::NoMemory),
        }
    }
}
