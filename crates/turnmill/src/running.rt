//! Words that may ask for a run of the job by threads.
ghost use Rattle.std.specs.Prelude.{◌≡◌, ◌↔◌, ◌-◌, ◌^◌, ◌<◌, ◌≤◌, All, length, None, IfOk, IfErr, Ok};
ghost use Rattle.channel_machine.specs.Scripts.{IsMaximalRunOf};
ghost use Rattle.channel_machine.specs.StartStates.{start_of};
ghost use Rattle.job_report.specs.Channels.{IsListedEnd};
ghost use Rattle.job_types.specs.SoundJob.{BlocksFit, IsSoundJob};
ghost use Rattle.fault_codes.specs.Codes.{IsRefusalCode};
ghost use Rattle.product_run.specs.RunLaws.{step_limit};
ghost use Rattle.turnmill.specs.Calls.{AnswersCall, sink_change, source_change};
ghost use Rattle.turnmill.specs.Output.{CallsForReport, IsAnswer, IsReadWhole, ReadingCallsFor, Writes, WritesFront};
ghost use Rattle.turnmill.specs.Words.{call_of, words_of};

use crate::check::{InputFault, answer_refusal, check_words, read_job_from, write_report};
use crate::judging::{Judgement, judge_by_threads, judge_in_order};
use crate::words::is_run;
use edge_io::{Gate, Sink, Source};
use exit_statuses::Status;
use fault_codes::Refusal;
use job_lines::INPUT_LIMIT;
use out_of_memory::NoMemory;
use parallel_run::run_threads;
use std::alloc::Global;
use std::mem::forget;
use std::sync::Wait;
use std::thread::Threads;
use sync_types::{Entry, Run};
use tape_job::Job;

/// Judges a run of the job after which no channel runs, with its pairs of zones shared out to threads. Where it has a
/// race the job calls for the run in order, and that is judged.
fn judge_made<R: Threads + Sync>(
    rt: &R,
    alloc: Global,
    job: &Job,
    run: Run,
) -> Result<Judgement, NoMemory>
    requires accepted { IsSoundJob job.now }
    requires indices { BlocksFit job.now }
    requires maximal { IsMaximalRunOf job.now (start_of job.now) run }
    ensures reported { IfOk result (λ j. CallsForReport job.now j.run j.verdict) }
    ensures listed { IfOk result (λ j. All IsListedEnd j.run.ends) }
    ensures few { IfOk result (λ j. length j.run.entries ≤ step_limit) }
{
    let judgement = judge_by_threads(rt, alloc, job, run)?;
    match judgement.clocks.first_race() {
        Some(_) => judge_in_order(alloc, job),
        None => Ok(judgement),
    }
}

/// Tells the gate the entries of a run, one after another: the channel of each, and its place. No clause says so, since
/// a gate tells nothing: tests show it.
fn tell<G: Gate>(gate: &G, entries: &[Entry])
    requires { length entries.now ≤ step_limit }
{
    for (place, entry) in entries.iter().enumerate() {
        gate.judged(entry.channel.number, place as u32);
    }
}

/// Answers an accepted job: judges the run that its threads make, tells the gate its entries, and then writes its
/// report. No byte is written before all memory is taken.
fn answer_run<R: Threads + Wait + Sync, K: Sink, G: Gate + Sync>(
    rt: &R,
    alloc: Global,
    job: &Job,
    sink: &mut K,
    gate: &G,
) -> Status
    requires accepted { IsSoundJob job.now }
    requires indices { BlocksFit job.now }
    requires few { K.faults sink.old < 2 ^ 64 - 1 }
    ensures whole { IsReadWhole result
        → Writes (ReadingCallsFor (Ok job.now)) result (K.written sink.old) (K.written sink.new) }
    ensures front { result ≡ Status.WriteFault
        → WritesFront (ReadingCallsFor (Ok job.now)) (K.written sink.old) (K.written sink.new) }
    ensures silent { result ≡ Status.NoMemory → sink.new ≡ sink.old }
    ensures cause { (result ≡ Status.WriteFault) ↔ (K.faults sink.old < K.faults sink.new) }
    ensures never_fall { K.faults sink.old ≤ K.faults sink.new }
    ensures ends { IsAnswer result }
{
    let Ok(run) = run_threads(rt, alloc, job, gate) else {
        return Status::NoMemory;
    };
    let Ok(judgement) = judge_made(rt, alloc, job, run) else {
        return Status::NoMemory;
    };
    tell(gate, judgement.run.entries());
    let status = write_report(job, &judgement, sink);
    forget(judgement);
    status
}

/// Answers an input that is not too long, as what it was read, by a run of threads where it is a job.
fn answer_read<R: Threads + Wait + Sync, K: Sink, G: Gate + Sync>(
    rt: &R,
    alloc: Global,
    read: &Result<Job, Refusal>,
    sink: &mut K,
    gate: &G,
) -> Status
    requires accepted { IfOk read.now IsSoundJob }
    requires indices { IfOk read.now BlocksFit }
    requires listed { IfErr read.now (λ refusal. IsRefusalCode refusal.code) }
    requires few { K.faults sink.old < 2 ^ 64 - 1 }
    ensures whole { IsReadWhole result
        → Writes (ReadingCallsFor read.now) result (K.written sink.old) (K.written sink.new) }
    ensures front { result ≡ Status.WriteFault
        → WritesFront (ReadingCallsFor read.now) (K.written sink.old) (K.written sink.new) }
    ensures silent { result ≡ Status.NoMemory → sink.new ≡ sink.old }
    ensures cause { (result ≡ Status.WriteFault) ↔ (K.faults sink.old < K.faults sink.new) }
    ensures never_fall { K.faults sink.old ≤ K.faults sink.new }
    ensures ends { IsAnswer result }
{
    match read {
        Ok(job) => answer_run(rt, alloc, job, sink, gate),
        Err(refusal) => answer_refusal(refusal, sink),
    }
}

/// Answers the words of a call as `check_words` does, and `run` too: it reads the input, and a worker thread for each
/// channel makes the run that is judged and reported. `run` ends and writes as `check` does. The words are those of the
/// command line without the program's name.
///
/// That the threads make the run, and that the gate is told each entry of the run that is reported before the first
/// byte is written, is in no clause: tests show it.
pub fn run_words<R: Threads + Wait + Sync, S: Source, K: Sink, G: Gate + Sync>(
    rt: &R,
    alloc: Global,
    words: &[&str],
    source: &mut S,
    sink: &mut K,
    gate: &G,
) -> Status
    requires few_reads { S.faults source.old < 2 ^ 64 - 1 }
    requires few_writes { K.faults sink.old < 2 ^ 64 - 1 }
    requires readable { S.can_read source.old }

    ensures answer { AnswersCall (call_of (words_of words.now)) result
        (source_change S.left S.faults source.old source.new) (sink_change K.written K.faults sink.old sink.new) }

    // Words without an accepted form are USAGE, whatever memory there is.
    ensures usage { call_of (words_of words.now) ≡ None → result ≡ Status.Usage }
{
    if !is_run(words) {
        return check_words(alloc, words, source, sink);
    }
    let read = match read_job_from(alloc, source) {
        Ok(read) => read,
        Err(InputFault::Failed) => return Status::ReadFault,
        Err(InputFault::TooLong) => return Status::TooLong,
        Err(InputFault::NoMemory) => return Status::NoMemory,
    };
    let status = answer_read(rt, alloc, &read, sink, gate);
    forget(read);
    status
}
