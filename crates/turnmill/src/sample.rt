//! The sample of a number: its job is judged, and told in two lines.
ghost use Rattle.std.specs.Prelude.{◌≡◌, ◌≢◌, ◌↔◌, ◌-◌, ◌^◌, ◌<◌, ◌≤◌, All, length, sum_by, IfSome, Ok};
ghost use Rattle.job_lines.specs.declared.limits.TheConstants.{INPUT_LIMIT};
ghost use Rattle.job_report.specs.Channels.{IsListedEnd};
ghost use Rattle.job_report.specs.Report.{report_bytes};
ghost use Rattle.job_types.specs.SoundJob.{BlocksFit, IsSoundJob};
ghost use Rattle.order_clocks.specs.Tells.{is_before_in};
ghost use Rattle.sample_jobs.specs.Samples.{sample_bytes};
ghost use Rattle.sample_jobs.specs.declared.TheConstants.{GREATEST_NUMBER};
ghost use Rattle.tape_job.specs.Read.{read_of};
ghost use Rattle.turnmill.specs.Judgements.{IsJudgedByClocks};
ghost use Rattle.turnmill.specs.Output.{IsAnswer, IsReadWhole, Writes, WritesFront};
ghost use Rattle.turnmill.specs.Summary.{IsSummaryBy, figures_of, move_count, moves_of};

use crate::judging::{Judgement, judge_job, pair_count};
use edge_io::{CountSink, Sink};
use exit_statuses::Status;
use job_report::{Figures, report, summary};
use sample_jobs::sample;
use std::alloc::Global;
use std::mem::forget;
use sync_types::{Item, Run, Verdict};
use tape_job::{Job, JobFault, read_job};

/// How many of these are motions.
fn moves_of(items: &[Item]) -> usize
    ensures value { result ≡ moves_of items.now }
    ensures few { result ≤ length items.now }
{
    let mut count = 0;
    for item in items {
        if item.is_motion() {
            count += 1;
        }
    }
    count
}

/// How many motions these are.
fn all_moves(rows: &[Vec<Item>]) -> usize
    requires { sum_by (λ items. length items.items) rows.now < 2 ^ 20 }
    ensures { result ≡ sum_by (λ items. moves_of items.items) rows.now }
{
    let mut count = 0;
    for items in rows {
        count += moves_of(items);
    }
    count
}

/// How many motions the channels make.
fn move_count(run: &Run) -> usize
    requires { sum_by length run.now.items < 2 ^ 20 }
    ensures { result ≡ move_count run.now }
{
    all_moves(run.items())
}

/// How many bytes the report of a job has; `None` where their number does not fit 64 bits.
fn report_length(job: &Job, run: &Run, verdict: &Verdict) -> Option<u64>
    requires { All IsListedEnd run.now.ends }
    ensures { IfSome result (λ bytes. bytes ≡ length (report_bytes job.now run.now verdict.now)) }
{
    let mut sink = CountSink::new();
    match report(job, run, verdict, &mut sink) {
        Ok(()) => sink.count(),
        Err(_) => None,
    }
}

/// The figures of a sample.
fn figures_of(number: u32, job: &Job, judgement: &Judgement) -> Option<Figures>
    requires accepted { IsSoundJob job.now }
    requires judged { IsJudgedByClocks job.now judgement.now.run judgement.now.clocks
        judgement.now.stretches judgement.now.verdict }
    ensures { IfSome result (λ figures. figures
        ≡ figures_of number job.now judgement.now.run judgement.now.verdict (is_before_in judgement.now.clocks.rows)) }
{
    let bytes = report_length(job, &judgement.run, &judgement.verdict)?;
    Some(Figures {
        number,
        moves: move_count(&judgement.run) as u64,
        steps: judgement.run.entries.len() as u64,
        count: pair_count(job, judgement),
        bytes,
    })
}

/// Answers with the job of a sample: judges it, and then writes its two lines. No byte is written before all memory is taken.
fn answer_job<K: Sink>(alloc: Global, number: u32, job: &Job, sink: &mut K) -> Status
    requires accepted { IsSoundJob job.now }
    requires indices { BlocksFit job.now }
    requires few { K.faults sink.old < 2 ^ 64 - 1 }
    ensures whole { IsReadWhole result
        → Writes (IsSummaryBy number (Ok job.now)) result (K.written sink.old) (K.written sink.new) }
    ensures front { result ≡ Status.WriteFault
        → WritesFront (IsSummaryBy number (Ok job.now)) (K.written sink.old) (K.written sink.new) }
    ensures silent { result ≡ Status.NoMemory → sink.new ≡ sink.old }
    ensures cause { (result ≡ Status.WriteFault) ↔ (K.faults sink.old < K.faults sink.new) }
    ensures never_fall { K.faults sink.old ≤ K.faults sink.new }
    ensures ends { IsAnswer result }
    ensures never_refused { result ≢ Status.Refused }
{
    let Ok(judgement) = judge_job(alloc, job) else {
        return Status::NoMemory;
    };
    let Some(figures) = figures_of(number, job, &judgement) else {
        return Status::NoMemory;
    };
    let verdict = judgement.verdict;
    forget(judgement);
    match summary(&figures, &verdict, sink) {
        Ok(()) => Status::of_verdict(&verdict),
        Err(_) => Status::WriteFault,
    }
}

/// Answers words that ask for a sample: judges the job of the number by the calls that check an input, and writes its two lines.
/// Each sample is a job, so none is refused.
pub(crate) fn answer_sample<K: Sink>(alloc: Global, number: u32, sink: &mut K) -> Status
    requires number { number ≤ GREATEST_NUMBER }
    requires few { K.faults sink.old < 2 ^ 64 - 1 }
    ensures whole { IsReadWhole result
        → Writes (IsSummaryBy number (read_of (sample_bytes number))) result (K.written sink.old) (K.written sink.new) }
    ensures short { IsReadWhole result → length (sample_bytes number) ≤ INPUT_LIMIT }
    ensures front { result ≡ Status.WriteFault
        → WritesFront (IsSummaryBy number (read_of (sample_bytes number))) (K.written sink.old) (K.written sink.new) }
    ensures silent { result ≡ Status.NoMemory → sink.new ≡ sink.old }
    ensures cause { (result ≡ Status.WriteFault) ↔ (K.faults sink.old < K.faults sink.new) }
    ensures never_fall { K.faults sink.old ≤ K.faults sink.new }
    ensures ends { IsAnswer result }
    ensures never_refused { result ≢ Status.Refused }
{
    let Ok(bytes) = sample(alloc, number) else {
        return Status::NoMemory;
    };
    match read_job(alloc, &bytes) {
        Ok(job) => {
            let status = answer_job(alloc, number, &job, sink);
            forget(job);
            status
        }
        Err(JobFault::Refused(_)) => unreachable!(),
        Err(JobFault::NoMemory) => Status::NoMemory,
    }
}
