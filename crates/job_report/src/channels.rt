//! The lines of a channel: what it did, in order, and how it has stopped.
ghost use Rattle.std.specs.Prelude.{◌≡◌, ◌==◌, ◌+◌, ◌-◌, ◌^◌, ◌<◌, ◌≤◌, ◌++◌, List, length, codes};
ghost use Rattle.std.specs.Fmt.{decimal};
ghost use Rattle.std.specs.List.{flat_map};
ghost use Rattle.edge_io.specs.Moves.{HasCause};
ghost use Rattle.job_report.specs.Actions.{step_line};
ghost use Rattle.job_report.specs.Channels as model;
ghost use Rattle.job_report.specs.Motions.{item_line};
ghost use Rattle.job_report.specs.Pages.{Puts, stage};
ghost use Rattle.job_report.specs.Spans.{AreSpans};
ghost use Rattle.fault_codes.specs.Codes.{IsAlarmCode};
ghost use Rattle.nc_faults.specs.Texts.{alarm_text_of};

use crate::actions::push_step_line;
use crate::motions::push_item_line;
use crate::page::{LINE_ROOM, PAGE_ROOM, Page, TEXT_ROOM, begin_line};
use crate::spans::StepSpans;
use axis_sets::ChannelId;
use edge_io::{Failed, Sink};
use fault_codes::Alarm;
use job_types::Job;
use nc_faults::alarm_text;
use sync_types::{ChannelEnd, Entry, Item, Run, Step};

/// The place of the last step of a channel.
#[tactic(auto, unfolding(crate::specs::Channels::last_place))]
fn last_place(entries: &[Entry], channel: ChannelId) -> Option<usize>
    ensures { result ≡ model.last_place entries.now channel }
{
    let mut last = None;
    for (place, entry) in entries.iter().enumerate() {
        if entry.is_of(channel) {
            last = Some(place);
        }
    }
    last
}

/// The place of the step whose block has no trace line, if there is one: that of the alarm.
#[tactic(auto, unfolding(crate::specs::Channels::silent_place))]
fn silent_place(entries: &[Entry], channel: ChannelId, end: &ChannelEnd) -> Option<usize>
    ensures { result ≡ model.silent_place entries.now channel end.now }
{
    match end {
        ChannelEnd::Alarmed(_) => last_place(entries, channel),
        ChannelEnd::Idle | ChannelEnd::Ended(_) | ChannelEnd::Holding(_) => None,
    }
}

/// Puts the trace line of an item.
fn put_item<K: Sink>(page: &mut Page, sink: &mut K, job: &Job, item: &Item) -> Result<(), Failed>
    requires few { K.faults sink.old < 2 ^ 64 - 1 }
    ensures text { Puts (stage (K.written sink.old) (K.count sink.old) page.old)
        (stage (K.written sink.new) (K.count sink.new) page.new) result (item_line job.now item.now) }
    ensures cause { HasCause (K.faults sink.old) (K.faults sink.new) result }
{
    begin_line(page, sink)?;
    push_item_line(page, job, item);
    Ok(())
}

/// Puts the trace lines of items.
fn put_items<K: Sink>(
    page: &mut Page,
    sink: &mut K,
    job: &Job,
    items: &[Item],
) -> Result<(), Failed>
    requires few { K.faults sink.old < 2 ^ 64 - 1 }
    ensures text { Puts (stage (K.written sink.old) (K.count sink.old) page.old)
        (stage (K.written sink.new) (K.count sink.new) page.new) result (flat_map (item_line job.now) items.now) }
    ensures cause { HasCause (K.faults sink.old) (K.faults sink.new) result }
{
    for item in items {
        put_item(page, sink, job, item)?;
    }
    Ok(())
}

/// Puts the trace line of a step, if it has one.
fn put_step<K: Sink>(page: &mut Page, sink: &mut K, job: &Job, step: &Step) -> Result<(), Failed>
    requires few { K.faults sink.old < 2 ^ 64 - 1 }
    ensures text { Puts (stage (K.written sink.old) (K.count sink.old) page.old)
        (stage (K.written sink.new) (K.count sink.new) page.new) result (step_line job.now step.now) }
    ensures cause { HasCause (K.faults sink.old) (K.faults sink.new) result }
{
    begin_line(page, sink)?;
    push_step_line(page, job, step);
    Ok(())
}

/// Whether the step at a place has no trace line.
fn is_silent(silent: Option<usize>, place: usize) -> bool
    ensures { result ≡ model.is_at place silent }
{
    silent == Some(place)
}

/// What an alarm says.
#[tactic(auto, using(crate::proofs::TextLengths::alarm_text_short))]
fn text_of(alarm: &Alarm) -> &'static str
    requires { IsAlarmCode alarm.now.code }
    ensures text { result.now ≡ alarm_text_of alarm.now.code }
    ensures short { length result.now ≤ TEXT_ROOM }
{
    alarm_text(alarm.code)
}

/// Puts the state of a channel that an alarm has stopped.
#[tactic(auto, unfolding(crate::specs::Channels::alarm_line))]
fn push_alarm_line(page: &mut Page, alarm: &Alarm)
    requires listed { IsAlarmCode alarm.now.code }
    requires room { length page.old + LINE_ROOM ≤ PAGE_ROOM }
    ensures { page.new ≡ page.old ++ model.alarm_line alarm.now }
{
    page.push("STATE ALARM ");
    page.push_number(alarm.line);
    page.push(" ");
    page.push_number(u32::from(alarm.code));
    page.push(" ");
    page.push(text_of(alarm));
    page.push("\n");
}

/// Puts the state of a channel that is at this line.
fn push_line_of_state(page: &mut Page, state: &str, line: u32)
    requires { length page.old + length state.now + 11 ≤ PAGE_ROOM }
    ensures { page.new ≡ page.old ++ (state.now ++ (decimal line ++ codes "\n")) }
{
    page.push(state);
    page.push_number(line);
    page.push("\n");
}

/// Puts how a channel has stopped.
#[tactic(auto, unfolding(crate::specs::Channels::state_line))]
fn push_state_line(page: &mut Page, end: &ChannelEnd)
    requires listed { model.IsListedEnd end.now }
    requires room { length page.old + LINE_ROOM ≤ PAGE_ROOM }
    ensures { page.new ≡ page.old ++ model.state_line end.now }
{
    match end {
        ChannelEnd::Idle => page.push("STATE IDLE 0\n"),
        ChannelEnd::Ended(line) => push_line_of_state(page, "STATE ENDED ", *line),
        ChannelEnd::Holding(line) => push_line_of_state(page, "STATE HOLDING ", *line),
        ChannelEnd::Alarmed(alarm) => push_alarm_line(page, alarm),
    }
}

/// Puts the first line of a channel.
#[tactic(auto, unfolding(crate::specs::Channels::channel_line))]
fn push_channel_line(page: &mut Page, channel: ChannelId)
    requires { length page.old + LINE_ROOM ≤ PAGE_ROOM }
    ensures { page.new ≡ page.old ++ model.channel_line channel }
{
    page.push("CHANNEL ");
    page.push_number(u32::from(channel.number));
    page.push("\n");
}

/// Puts the first line of a channel.
fn put_channel_line<K: Sink>(
    page: &mut Page,
    sink: &mut K,
    channel: ChannelId,
) -> Result<(), Failed>
    requires few { K.faults sink.old < 2 ^ 64 - 1 }
    ensures text { Puts (stage (K.written sink.old) (K.count sink.old) page.old)
        (stage (K.written sink.new) (K.count sink.new) page.new) result (model.channel_line channel) }
    ensures cause { HasCause (K.faults sink.old) (K.faults sink.new) result }
{
    begin_line(page, sink)?;
    push_channel_line(page, channel);
    Ok(())
}

/// Puts how a channel has stopped.
fn put_state<K: Sink>(page: &mut Page, sink: &mut K, end: &ChannelEnd) -> Result<(), Failed>
    requires listed { model.IsListedEnd end.now }
    requires few { K.faults sink.old < 2 ^ 64 - 1 }
    ensures text { Puts (stage (K.written sink.old) (K.count sink.old) page.old)
        (stage (K.written sink.new) (K.count sink.new) page.new) result (model.state_line end.now) }
    ensures cause { HasCause (K.faults sink.old) (K.faults sink.new) result }
{
    begin_line(page, sink)?;
    push_state_line(page, end);
    Ok(())
}

/// A run, the job whose run it is, and where the steps of its channels stand.
#[derive(Clone, Copy)]
pub(crate) struct JobRun<'a> {
    /// The job.
    pub(crate) job: &'a Job,
    /// The run.
    pub(crate) run: &'a Run,
    /// Between which places of the run the steps of each channel stand.
    pub(crate) spans: &'a StepSpans,
}

impl<'a> JobRun<'a> {
    /// Puts the trace lines of an entry, with its place.
    #[tactic(auto, unfolding(crate::specs::Channels::entry_lines))]
    fn put_entry<K: Sink>(
        &self,
        page: &mut Page,
        sink: &mut K,
        silent: Option<usize>,
        numbered: (usize, &Entry),
    ) -> Result<(), Failed>
        requires few { K.faults sink.old < 2 ^ 64 - 1 }
        ensures text { Puts (stage (K.written sink.old) (K.count sink.old) page.old)
            (stage (K.written sink.new) (K.count sink.new) page.new) result
            (model.entry_lines self.now.job.now self.now.run.now silent
            (numbered.entry.0, numbered.entry.1.now)) }
        ensures cause { HasCause (K.faults sink.old) (K.faults sink.new) result }
    {
        let job = self.job;
        let (place, entry) = numbered;
        put_items(page, sink, job, self.run.items_at(place))?;
        if is_silent(silent, place) {
            return Ok(());
        }
        put_step(page, sink, job, &entry.step)
    }

    /// Puts the trace lines of a channel.
    #[tactic(auto, unfolding(crate::specs::Channels::trace_lines, crate::specs::Channels::own_lines))]
    fn put_trace<K: Sink>(
        &self,
        page: &mut Page,
        sink: &mut K,
        channel: ChannelId,
        silent: Option<usize>,
    ) -> Result<(), Failed>
        requires spans { AreSpans self.now.run.now.entries self.now.spans.now }
        requires few { K.faults sink.old < 2 ^ 64 - 1 }
        ensures text { Puts (stage (K.written sink.old) (K.count sink.old) page.old)
            (stage (K.written sink.new) (K.count sink.new) page.new) result
            (model.trace_lines self.now.job.now self.now.run.now channel silent) }
        ensures cause { HasCause (K.faults sink.old) (K.faults sink.new) result }
    {
        let run = self.run;
        let entries: &[Entry] = &run.entries;
        let (first, end) = self.spans.span_of(channel);
        for place in first..end {
            let entry = &entries[place];
            if entry.is_of(channel) {
                self.put_entry(page, sink, silent, (place, entry))?;
            }
        }
        Ok(())
    }

    /// Puts the lines of a channel that has stopped so.
    #[tactic(auto, unfolding(crate::specs::Channels::channel_lines))]
    pub(crate) fn put_channel<K: Sink>(
        &self,
        page: &mut Page,
        sink: &mut K,
        channel: ChannelId,
        end: &ChannelEnd,
    ) -> Result<(), Failed>
        requires spans { AreSpans self.now.run.now.entries self.now.spans.now }
        requires listed { model.IsListedEnd end.now }
        requires few { K.faults sink.old < 2 ^ 64 - 1 }
        ensures text { Puts (stage (K.written sink.old) (K.count sink.old) page.old)
            (stage (K.written sink.new) (K.count sink.new) page.new) result
            (model.channel_lines self.now.job.now self.now.run.now channel end.now) }
        ensures cause { HasCause (K.faults sink.old) (K.faults sink.new) result }
    {
        let run = self.run;
        put_channel_line(page, sink, channel)?;
        let silent = silent_place(&run.entries, channel, end);
        self.put_trace(page, sink, channel, silent)?;
        put_state(page, sink, end)
    }
}
