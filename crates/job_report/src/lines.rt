//! The lines of a report, and the line of a refused input.
ghost use Rattle.std.specs.Prelude.{◌≡◌, ◌+◌, ◌-◌, ◌^◌, ◌<◌, ◌≤◌, [], ◌++◌, All, OnOk, length};
ghost use Rattle.edge_io.specs.Moves.{HasCause};
ghost use Rattle.job_report.specs.Channels.{IsListedEnd, channels_of};
ghost use Rattle.job_report.specs.Pages.{Puts, stage};
ghost use Rattle.job_report.specs.Report as model;
ghost use Rattle.job_report.specs.Spans.{AreSpans};
ghost use Rattle.job_report.specs.Verdicts.{verdict_line};
ghost use Rattle.fault_codes.specs.Codes.{IsRefusalCode};
ghost use Rattle.nc_faults.specs.Texts.{refusal_text_of};

use crate::channels::JobRun;
use crate::page::{LINE_ROOM, PAGE_ROOM, Page, TEXT_ROOM, begin_line, flush};
use crate::spans::StepSpans;
use crate::verdicts::push_verdict_line;
use arrayvec::ArrayVec;
use axis_sets::{CHANNEL_LIMIT, ChannelId};
use edge_io::{Failed, Sink};
use fault_codes::Refusal;
use job_types::Job;
use nc_faults::refusal_text;
use sync_types::{Run, Verdict};

/// The channels of a job, ascending.
#[tactic(auto, unfolding(crate::specs::Channels::channels_of))]
fn channels_of(job: &Job) -> ArrayVec<ChannelId, CHANNEL_LIMIT>
    ensures { result.items ≡ channels_of job.now }
{
    let mut channels = ArrayVec::new();
    for index in 0..CHANNEL_LIMIT as u8 {
        let channel = ChannelId { number: index + 1 };
        if job.has_channel(channel) {
            channels.push(channel);
        }
    }
    channels
}

impl<'a> JobRun<'a> {
    /// Puts the lines of a channel, by its place among the channels of the job.
    #[tactic(auto, unfolding(crate::specs::Report::lines_at))]
    fn put_channel_at<K: Sink>(
        &self,
        page: &mut Page,
        sink: &mut K,
        place: usize,
        channel: ChannelId,
    ) -> Result<(), Failed>
        requires spans { AreSpans self.now.run.now.entries self.now.spans.now }
        requires listed { All IsListedEnd self.now.run.now.ends }
        requires few { K.faults sink.old < 2 ^ 64 - 1 }
        ensures text { Puts (stage (K.written sink.old) (K.count sink.old) page.old)
            (stage (K.written sink.new) (K.count sink.new) page.new) result
            (model.lines_at self.now.job.now self.now.run.now (place, channel)) }
        ensures cause { HasCause (K.faults sink.old) (K.faults sink.new) result }
    {
        let run = self.run;
        match run.ends.get(place) {
            Some(end) => self.put_channel(page, sink, channel, end),
            None => Ok(()),
        }
    }

    /// Puts the lines of all channels.
    #[tactic(auto, unfolding(crate::specs::Report::all_lines))]
    fn put_channels<K: Sink>(&self, page: &mut Page, sink: &mut K) -> Result<(), Failed>
        requires spans { AreSpans self.now.run.now.entries self.now.spans.now }
        requires listed { All IsListedEnd self.now.run.now.ends }
        requires few { K.faults sink.old < 2 ^ 64 - 1 }
        ensures text { Puts (stage (K.written sink.old) (K.count sink.old) page.old)
            (stage (K.written sink.new) (K.count sink.new) page.new) result
            (model.all_lines self.now.job.now self.now.run.now) }
        ensures cause { HasCause (K.faults sink.old) (K.faults sink.new) result }
    {
        let channels = channels_of(self.job);
        for (place, channel) in channels.as_slice().iter().enumerate() {
            self.put_channel_at(page, sink, place, *channel)?;
        }
        Ok(())
    }
}

/// Puts the line of a job whose blocks may compensate the radius of a tool: its contour is judged.
#[tactic(auto, unfolding(crate::specs::Report::note_line))]
fn push_note(page: &mut Page, compensation: bool)
    requires { length page.old + 26 ≤ PAGE_ROOM }
    ensures { page.new ≡ page.old ++ model.note_line compensation }
{
    if compensation {
        page.push("NOTE COMPENSATION CONTOUR\n");
    }
}

/// Puts the first line, and the note.
#[tactic(auto, unfolding(crate::specs::Report::head_lines))]
pub(crate) fn push_head(page: &mut Page, compensation: bool)
    requires { length page.old + LINE_ROOM ≤ PAGE_ROOM }
    ensures { page.new ≡ page.old ++ model.head_lines compensation }
{
    page.push("TURNMILL 1\n");
    push_note(page, compensation);
}

/// Puts the verdict line.
fn put_verdict<K: Sink>(page: &mut Page, sink: &mut K, verdict: &Verdict) -> Result<(), Failed>
    requires few { K.faults sink.old < 2 ^ 64 - 1 }
    ensures text { Puts (stage (K.written sink.old) (K.count sink.old) page.old)
        (stage (K.written sink.new) (K.count sink.new) page.new) result (verdict_line verdict.now) }
    ensures cause { HasCause (K.faults sink.old) (K.faults sink.new) result }
{
    begin_line(page, sink)?;
    push_verdict_line(page, verdict);
    Ok(())
}

/// Puts the report of a job on an empty page, and writes it whole.
#[tactic(auto, unfolding(crate::specs::Report::report_bytes))]
pub(crate) fn write_report<K: Sink>(
    page: &mut Page,
    sink: &mut K,
    job: &Job,
    run: &Run,
    verdict: &Verdict,
) -> Result<(), Failed>
    requires empty { page.old ≡ [] }
    requires listed { All IsListedEnd run.now.ends }
    requires few { K.faults sink.old < 2 ^ 64 - 1 }
    ensures text { Puts (stage (K.written sink.old) (K.count sink.old) page.old)
        (stage (K.written sink.new) (K.count sink.new) page.new) result
        (model.report_bytes job.now run.now verdict.now) }
    ensures cause { HasCause (K.faults sink.old) (K.faults sink.new) result }
    ensures empty { OnOk result (page.new ≡ []) }
{
    push_head(page, job.compensation);
    let spans = StepSpans::of(&run.entries);
    JobRun {
        job,
        run,
        spans: &spans,
    }
    .put_channels(page, sink)?;
    put_verdict(page, sink, verdict)?;
    flush(page, sink)
}

/// What a refusal says.
#[tactic(auto, using(crate::proofs::TextLengths::refusal_text_short))]
fn text_of(refusal: &Refusal) -> &'static str
    requires { IsRefusalCode refusal.now.code }
    ensures text { result.now ≡ refusal_text_of refusal.now.code }
    ensures short { length result.now ≤ TEXT_ROOM }
{
    refusal_text(refusal.code)
}

/// Puts the line of a refused input.
#[tactic(auto, unfolding(crate::specs::Report::refusal_bytes))]
pub(crate) fn push_refusal_line(page: &mut Page, refusal: &Refusal)
    requires listed { IsRefusalCode refusal.now.code }
    requires room { length page.old + LINE_ROOM ≤ PAGE_ROOM }
    ensures { page.new ≡ page.old ++ model.refusal_bytes refusal.now }
{
    page.push("REFUSED ");
    page.push_number(u32::from(refusal.code));
    page.push(" ");
    page.push_number(refusal.line);
    page.push(" ");
    page.push(text_of(refusal));
    page.push("\n");
}
