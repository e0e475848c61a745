//! The report of a job: what each channel did, block by block, how each has stopped, and the verdict.
//!
//! The text is written as it is made, through a page of fixed room: it is never kept whole, and no memory is taken.
#![tactic(auto)]

ghost use Rattle.std.specs.Prelude.{◌≡◌, ◌-◌, ◌^◌, ◌<◌, All, OnOk, OnErr, length};
ghost use Rattle.edge_io.specs.Moves.{HasCause, Grows, Counts, GrowsByFront};
ghost use Rattle.job_report.specs.Channels.{IsListedEnd};
ghost use Rattle.job_report.specs.Report.{report_bytes, refusal_bytes};
ghost use Rattle.job_report.specs.Summary.{summary_bytes};
ghost use Rattle.fault_codes.specs.Codes.{IsRefusalCode};

mod actions;
mod channels;
mod lines;
mod motions;
mod page;
mod positions;
mod spans;
mod summaries;
mod verdicts;

use edge_io::{Failed, Sink};
use fault_codes::Refusal;
use job_types::Job;
use page::{Page, flush};
pub use summaries::Figures;
use summaries::push_summary;
use sync_types::{Run, Verdict};

/// Writes the report of a job, from its run and the verdict on it.
///
/// The run has one end for each channel of the job, the lowest channel first, and for each entry what its channel did
/// before that step. The first write that fails ends the call, and nothing is written after it.
pub fn report<K: Sink>(job: &Job, run: &Run, verdict: &Verdict, sink: &mut K) -> Result<(), Failed>
    requires listed { All IsListedEnd run.now.ends }
    requires few { K.faults sink.old < 2 ^ 64 - 1 }
    ensures whole { OnOk result (Grows (K.written sink.old) (K.written sink.new)
        (report_bytes job.now run.now verdict.now)) }
    ensures number { OnOk result (Counts (K.count sink.old) (K.count sink.new)
        (length (report_bytes job.now run.now verdict.now))) }
    ensures front { OnErr result (GrowsByFront (K.written sink.old) (K.written sink.new)
        (report_bytes job.now run.now verdict.now)) }
    ensures cause { HasCause (K.faults sink.old) (K.faults sink.new) result }
{
    let mut page = Page::new();
    lines::write_report(&mut page, sink, job, run, verdict)
}

/// Writes the line of a refused input.
///
/// The first write that fails ends the call, and nothing is written after it.
pub fn refused<K: Sink>(refusal: &Refusal, sink: &mut K) -> Result<(), Failed>
    requires listed { IsRefusalCode refusal.now.code }
    requires few { K.faults sink.old < 2 ^ 64 - 1 }
    ensures whole { OnOk result (Grows (K.written sink.old) (K.written sink.new) (refusal_bytes refusal.now)) }
    ensures number { OnOk result (Counts (K.count sink.old) (K.count sink.new) (length (refusal_bytes refusal.now))) }
    ensures front { OnErr result (GrowsByFront (K.written sink.old) (K.written sink.new) (refusal_bytes refusal.now)) }
    ensures cause { HasCause (K.faults sink.old) (K.faults sink.new) result }
{
    let mut page = Page::new();
    lines::push_refusal_line(&mut page, refusal);
    flush(&mut page, sink)
}

/// Writes the two lines of a sample: its figures, and the verdict on it.
///
/// The first write that fails ends the call, and nothing is written after it.
pub fn summary<K: Sink>(figures: &Figures, verdict: &Verdict, sink: &mut K) -> Result<(), Failed>
    requires { K.faults sink.old < 2 ^ 64 - 1 }
    ensures whole { OnOk result (Grows (K.written sink.old) (K.written sink.new)
        (summary_bytes figures.now verdict.now)) }
    ensures number { OnOk result (Counts (K.count sink.old) (K.count sink.new)
        (length (summary_bytes figures.now verdict.now))) }
    ensures front { OnErr result (GrowsByFront (K.written sink.old) (K.written sink.new)
        (summary_bytes figures.now verdict.now)) }
    ensures cause { HasCause (K.faults sink.old) (K.faults sink.new) result }
{
    let mut page = Page::new();
    push_summary(&mut page, figures, verdict);
    flush(&mut page, sink)
}
