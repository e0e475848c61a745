//! What is kept of the events of a run, as they are read one after another.
ghost use Rattle.std.specs.Prelude.{◌≡◌, ◌==◌, if◌then◌else◌, ℕ, ◌<◌, ◌≤◌, ◌^◌, ◌++◌, ◌∷◌, [], List, IfOk, OnOk, length, map};
ghost use Rattle.axis_sets.specs.declared.limits.TheConstants.{AXIS_LIMIT};
ghost use Rattle.job_types.specs.Job.{JobView};
ghost use Rattle.order_clocks.specs.Clocked.{moves_in};
ghost use Rattle.order_clocks.specs.Stops.{IsWhole};
ghost use Rattle.protection_zones.specs.Exchanges.{counts_in};
ghost use Rattle.protection_zones.specs.Logs.{IsLog};
ghost use Rattle.protection_zones.specs.Notes.{read_going, read_step, shown_note};
ghost use Rattle.sync_types.specs.Boards.{Board};
ghost use Rattle.zone_stretches.specs.Occurrences.{OccurrenceView, occurrences_of};

use crate::exchanges::{HandOver, add_exchange};
use crate::notes::{Occurrence, act_note, going_note};
use crate::spans::{SpanStart, add_outset, first_outsets};
use axis_sets::{CHANNEL_PLACES, ChannelId, Positions};
use job_types::Job;
use order_clocks::{ReadStep, StepReader};
use std::alloc::{AllocError, Global};
use step_deeds::StepEvents;
use sync_types::{ChannelEnd, Entry, Go};

/// What is kept of the events of a run.
#[derive(Drop)]
pub(crate) struct Log {
    /// For each channel, by its number, how its times begin.
    pub(crate) outsets: Vec<Vec<SpanStart>>,
    /// The events in which axes change hands, in order.
    pub(crate) exchanges: Vec<HandOver>,
    /// For each channel, by its number, how many events of it have been.
    counts: [usize; CHANNEL_PLACES],
}

/// Before the first event.
fn first_log(alloc: Global, job: &Job) -> Result<Log, AllocError>
    requires { length job.now.axes ≤ AXIS_LIMIT }
    ensures { IfOk result (λ log. IsLog job.now [] log) }
{
    let outsets = first_outsets(alloc, job)?;
    Ok(Log {
        outsets,
        exchanges: Vec::new(alloc),
        counts: [0; CHANNEL_PLACES],
    })
}

/// Writes how many events of a channel have been.
fn set_count(counts: &mut [usize; CHANNEL_PLACES], channel: ChannelId, count: usize)
    ensures { (c : ℕ) → counts_in counts.new c ≡ (if c == channel then count else counts_in counts.old c) }
{
    counts[usize::from(channel.number)] = count;
}

/// Adds an event in which axes of its channel stand so.
fn add_event(log: &mut Log, note: &Occurrence, at: &Positions) -> Result<(), AllocError>
    requires { (job : JobView) × (os : List OccurrenceView) × IsLog job os log.old }
    ensures { (job : JobView) (os : List OccurrenceView) → IsLog job os log.old
        → OnOk result (IsLog job (os ++ shown_note note.now at.now ∷ []) log.new) }
{
    let next = add_outset(&mut log.outsets, note, at)?;
    add_exchange(&mut log.exchanges, note, at, &log.counts, next)?;
    set_count(&mut log.counts, note.channel, next);
    Ok(())
}

/// Adds those that go on in the step of this place.
fn add_goings(log: &mut Log, place: u32, deed: &StepEvents, goes: &[Go]) -> Result<(), AllocError>
    requires { (job : JobView) × (os : List OccurrenceView) × IsLog job os log.old }
    ensures { (job : JobView) (os : List OccurrenceView) → IsLog job os log.old
        → OnOk result (IsLog job (os ++ map (read_going place deed.now) goes.now) log.new) }
{
    for go in goes {
        add_event(log, &going_note(place, deed, go), &go.grant.at)?;
    }
    Ok(())
}

/// Adds the events of the step of this place.
fn add_step(log: &mut Log, place: u32, read: &ReadStep, entry: &Entry) -> Result<(), AllocError>
    requires { (job : JobView) × (os : List OccurrenceView) × IsLog job os log.old }
    ensures { (job : JobView) (os : List OccurrenceView) → IsLog job os log.old
        → OnOk result (IsLog job (os ++ read_step place read.now entry.now) log.new) }
{
    let step = entry.step();
    add_event(log, &act_note(place, read, step), &step.at)?;
    add_goings(log, place, &read.deed, entry.goes())
}

/// What is kept of the events of a whole run. Each entry is read once.
pub(crate) fn log_of(
    alloc: Global,
    job: &Job,
    entries: &[Entry],
    ends: &[ChannelEnd],
) -> Result<Log, AllocError>
    requires axes { length job.now.axes ≤ AXIS_LIMIT }
    requires few { length entries.now < 2 ^ 32 }
    requires whole { (b : Board) × IsWhole b entries.now ends.now }
    ensures { (b : Board) → IsWhole b entries.now ends.now
        → IfOk result (IsLog job.now (occurrences_of b (moves_in entries.now))) }
{
    let mut reader = StepReader::new(entries, ends);
    let mut log = first_log(alloc, job)?;
    for place in 0..entries.len() {
        let read = reader.next(entries, place);
        add_step(&mut log, place as u32, &read, &entries[place])?;
    }
    Ok(log)
}
