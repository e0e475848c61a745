//! The check of an input, from the words of the call to the bytes of the answer.
ghost use Rattle.std.specs.Prelude.{◌≡◌, ◌≢◌, ◌↔◌, ℕ, ◌-◌, ◌^◌, ◌<◌, ◌≤◌, All, List, None, IfOk, IfErr, Some, Ok, Err};
ghost use Rattle.job_report.specs.Channels.{IsListedEnd};
ghost use Rattle.job_types.specs.SoundJob.{BlocksFit, IsSoundJob};
ghost use Rattle.fault_codes.specs.Codes.{IsRefusalCode};
ghost use Rattle.tape_job.specs.Input.{HasTaken};
ghost use Rattle.tape_job.specs.Read.{read_of};
ghost use Rattle.turnmill.specs.Calls.{AnswersCall, sink_change, source_change};
ghost use Rattle.turnmill.specs.Input.{ReadsJob};
ghost use Rattle.turnmill.specs.declared.check.InputFault.TheVariants as faults;
ghost use Rattle.turnmill.specs.Output.{CallsForReport, IsAnswer, IsReadWhole, ReadingCallsFor, Writes, WritesFront};
ghost use Rattle.turnmill.specs.Words.{request_of, words_of};

use crate::judging::{Judgement, judge_in_order};
use crate::sample::answer_sample;
use crate::words::{Request, request_of};
use edge_io::{Failed, Sink, Source};
use exit_statuses::Status;
use fault_codes::Refusal;
use job_lines::INPUT_LIMIT;
use job_report::{refused, report};
use out_of_memory::NoMemory;
use std::alloc::Global;
use std::mem::forget;
use tape_job::{Job, JobFault, JobReader};

/// The number of bytes at which an input is too long.
const TOO_MANY: usize = INPUT_LIMIT + 1;

/// The most bytes that one read asks for.
const PIECE: usize = 4096;

/// Why an input was not read to its end.
#[derive(Clone, Copy, PartialEq, Eq)]
pub enum InputFault {
    /// A read failed.
    Failed,
    /// The source gave `TOO_MANY` bytes.
    TooLong,
    /// Memory was wanted and not found.
    NoMemory,
}

impl From<Failed> for InputFault {
    ghost use Rattle.std.specs.Prelude.{◌≡◌};
    ghost use Rattle.turnmill.specs.declared.check.InputFault.TheVariants as faults;

    ghost from_gives = { λ _ fault. fault ≡ faults.Failed };

    fn from(_: Failed) -> InputFault {
        InputFault::Failed
    }
}

impl From<NoMemory> for InputFault {
    ghost use Rattle.std.specs.Prelude.{◌≡◌};
    ghost use Rattle.turnmill.specs.declared.check.InputFault.TheVariants as faults;

    ghost from_gives = { λ _ fault. fault ≡ faults.NoMemory };

    fn from(_: NoMemory) -> InputFault {
        InputFault::NoMemory
    }
}

/// The job that an input is, or its refusal, after all its bytes were given to the reader.
fn read_whole(reader: JobReader) -> Result<Result<Job, Refusal>, InputFault>
    ensures exact { (bytes : List ℕ) → HasTaken reader bytes → IfOk result (λ read. read_of bytes ≡ read) }
    ensures memory { IfErr result (λ fault. fault ≡ faults.NoMemory) }
    ensures indices { IfOk result (λ read. IfOk read BlocksFit) }
    ensures listed { IfOk result (λ read. IfErr read (λ refusal. IsRefusalCode refusal.code)) }
{
    match reader.finish() {
        Ok(job) => Ok(Ok(job)),
        Err(JobFault::Refused(refusal)) => Ok(Err(refusal)),
        Err(JobFault::NoMemory) => Err(InputFault::NoMemory),
    }
}

/// Reads the job that an input is, or its refusal. The input is read to its end, or to its `TOO_MANY`th byte, a piece
/// after another, and no piece is kept. The first read that gives no byte or fails is the last one: what may be done
/// with a source allows no read after it.
pub(crate) fn read_job_from<S: Source>(
    alloc: Global,
    source: &mut S,
) -> Result<Result<Job, Refusal>, InputFault>
    requires few { S.faults source.old < 2 ^ 64 - 1 }
    requires readable { S.can_read source.old }
    ensures exact { ReadsJob result (S.left source.old) (S.left source.new)
        (S.faults source.old) (S.faults source.new) }
    ensures indices { IfOk result (λ read. IfOk read BlocksFit) }
    ensures listed { IfOk result (λ read. IfErr read (λ refusal. IsRefusalCode refusal.code)) }
{
    let mut reader = JobReader::new(alloc)?;
    let mut buffer = [0; PIECE];
    let mut given = 0;
    while given < TOO_MANY {
        let room = (TOO_MANY - given).min(PIECE);
        let taken = source.read(&mut buffer[..room])?;
        if taken == 0 {
            return read_whole(reader);
        }
        reader.feed(&buffer[..taken])?;
        given += taken;
    }
    Err(InputFault::TooLong)
}

/// Writes the report of a job that is judged, and answers with the status of the verdict.
pub(crate) fn write_report<K: Sink>(job: &Job, judgement: &Judgement, sink: &mut K) -> Status
    requires reported { CallsForReport job.now judgement.now.run judgement.now.verdict }
    requires listed { All IsListedEnd judgement.now.run.ends }
    requires few { K.faults sink.old < 2 ^ 64 - 1 }
    ensures whole { IsReadWhole result
        → Writes (ReadingCallsFor (Ok job.now)) result (K.written sink.old) (K.written sink.new) }
    ensures front { result ≡ Status.WriteFault
        → WritesFront (ReadingCallsFor (Ok job.now)) (K.written sink.old) (K.written sink.new) }
    ensures memory { result ≢ Status.NoMemory }
    ensures cause { (result ≡ Status.WriteFault) ↔ (K.faults sink.old < K.faults sink.new) }
    ensures never_fall { K.faults sink.old ≤ K.faults sink.new }
    ensures ends { IsAnswer result }
{
    match report(job, &judgement.run, &judgement.verdict, sink) {
        Ok(()) => Status::of_verdict(&judgement.verdict),
        Err(_) => Status::WriteFault,
    }
}

/// Answers an accepted job: judges its run in order, and then writes its report. No byte is written before all memory
/// is taken, and what was judged is left to the end of the process.
fn answer_job<K: Sink>(alloc: Global, job: &Job, sink: &mut K) -> Status
    requires accepted { IsSoundJob job.now }
    requires indices { BlocksFit job.now }
    requires few { K.faults sink.old < 2 ^ 64 - 1 }
    ensures whole { IsReadWhole result
        → Writes (ReadingCallsFor (Ok job.now)) result (K.written sink.old) (K.written sink.new) }
    ensures front { result ≡ Status.WriteFault
        → WritesFront (ReadingCallsFor (Ok job.now)) (K.written sink.old) (K.written sink.new) }
    ensures silent { result ≡ Status.NoMemory → sink.new ≡ sink.old }
    ensures cause { (result ≡ Status.WriteFault) ↔ (K.faults sink.old < K.faults sink.new) }
    ensures never_fall { K.faults sink.old ≤ K.faults sink.new }
    ensures ends { IsAnswer result }
{
    let Ok(judgement) = judge_in_order(alloc, job) else {
        return Status::NoMemory;
    };
    let status = write_report(job, &judgement, sink);
    forget(judgement);
    status
}

/// Answers a refused input: writes the line of its refusal.
pub(crate) fn answer_refusal<K: Sink>(refusal: &Refusal, sink: &mut K) -> Status
    requires listed { IsRefusalCode refusal.now.code }
    requires few { K.faults sink.old < 2 ^ 64 - 1 }
    ensures whole { IsReadWhole result
        → Writes (ReadingCallsFor (Err refusal.now)) result (K.written sink.old) (K.written sink.new) }
    ensures front { result ≡ Status.WriteFault
        → WritesFront (ReadingCallsFor (Err refusal.now)) (K.written sink.old) (K.written sink.new) }
    ensures silent { result ≡ Status.NoMemory → sink.new ≡ sink.old }
    ensures cause { (result ≡ Status.WriteFault) ↔ (K.faults sink.old < K.faults sink.new) }
    ensures never_fall { K.faults sink.old ≤ K.faults sink.new }
    ensures ends { IsAnswer result }
{
    match refused(refusal, sink) {
        Ok(()) => Status::Refused,
        Err(_) => Status::WriteFault,
    }
}

/// Answers an input that is not too long, as what it was read.
fn answer_read<K: Sink>(alloc: Global, read: &Result<Job, Refusal>, sink: &mut K) -> Status
    requires accepted { IfOk read.now IsSoundJob }
    requires indices { IfOk read.now BlocksFit }
    requires listed { IfErr read.now (λ refusal. IsRefusalCode refusal.code) }
    requires few { K.faults sink.old < 2 ^ 64 - 1 }
    ensures whole { IsReadWhole result
        → Writes (ReadingCallsFor read.now) result (K.written sink.old) (K.written sink.new) }
    ensures front { result ≡ Status.WriteFault
        → WritesFront (ReadingCallsFor read.now) (K.written sink.old) (K.written sink.new) }
    ensures silent { result ≡ Status.NoMemory → sink.new ≡ sink.old }
    ensures cause { (result ≡ Status.WriteFault) ↔ (K.faults sink.old < K.faults sink.new) }
    ensures never_fall { K.faults sink.old ≤ K.faults sink.new }
    ensures ends { IsAnswer result }
{
    match read {
        Ok(job) => answer_job(alloc, job, sink),
        Err(refusal) => answer_refusal(refusal, sink),
    }
}

/// Checks the input of the source, and writes what it calls for to the sink.
fn check_source<S: Source, K: Sink>(alloc: Global, source: &mut S, sink: &mut K) -> Status
    requires few_reads { S.faults source.old < 2 ^ 64 - 1 }
    requires few_writes { K.faults sink.old < 2 ^ 64 - 1 }
    requires readable { S.can_read source.old }

    ensures { AnswersCall (Some Request.Check) result
        (source_change S.left S.faults source.old source.new) (sink_change K.written K.faults sink.old sink.new) }
{
    let read = match read_job_from(alloc, source) {
        Ok(read) => read,
        Err(InputFault::Failed) => return Status::ReadFault,
        Err(InputFault::TooLong) => return Status::TooLong,
        Err(InputFault::NoMemory) => return Status::NoMemory,
    };
    let status = answer_read(alloc, &read, sink);
    forget(read);
    status
}

/// Answers the words of a call: checks the input of the source, or judges the sample that they ask for, and writes what
/// is called for to the sink. The words are those of the command line without the program's name.
pub fn check_words<S: Source, K: Sink>(
    alloc: Global,
    words: &[&str],
    source: &mut S,
    sink: &mut K,
) -> Status
    requires few_reads { S.faults source.old < 2 ^ 64 - 1 }
    requires few_writes { K.faults sink.old < 2 ^ 64 - 1 }
    requires readable { S.can_read source.old }

    ensures answer { AnswersCall (request_of (words_of words.now)) result
        (source_change S.left S.faults source.old source.new) (sink_change K.written K.faults sink.old sink.new) }

    // Words without an accepted form are USAGE, whatever memory there is.
    ensures usage { request_of (words_of words.now) ≡ None → result ≡ Status.Usage }
{
    match request_of(alloc, words) {
        Ok(Some(Request::Check)) => check_source(alloc, source, sink),
        Ok(Some(Request::Sample(number))) => answer_sample(alloc, number, sink),
        Ok(None) => Status::Usage,
        Err(_) => Status::NoMemory,
    }
}
