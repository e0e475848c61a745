//! The time of a channel in a run.
ghost use Rattle.std.specs.Prelude.{◌≡◌, ◌==◌, ◌&&◌, ◌≤◌, ◌<◌, ◌++◌, ◌∷◌, [], ℕ, suc, List, IfOk, OnOk, length, map};
ghost use Rattle.std.specs.List.{list_any};
ghost use Rattle.axis_sets.specs.Sets.{has};
ghost use Rattle.axis_sets.specs.declared.limits.TheConstants.{AXIS_LIMIT, CHANNEL_PLACES};
ghost use Rattle.job_types.specs.Job.{JobView};
ghost use Rattle.protection_zones.specs.Beginnings.{AreOutsets, beginnings_from, shown_outset};
ghost use Rattle.protection_zones.specs.Exchanges.{count_in};
ghost use Rattle.protection_zones.specs.Notes.{shown_note};
ghost use Rattle.zone_stretches.specs.Occurrences.{OccurrenceView};
ghost use Rattle.zone_stretches.specs.Spans.{SpanStartView, first_beginning, starts_at_first};

use crate::AxisPositions;
use crate::notes::Occurrence;
use crate::rows::{put, start_row};
use axis_sets::{CHANNEL_PLACES, ChannelId, Positions, ZoneSet};
use job_types::{Job, ZoneLine};
use std::alloc::{AllocError, Global};
use sync_types::{EventId, StretchKind};

/// How a time of a channel begins.
#[derive(Clone, Copy)]
pub(crate) struct SpanStart {
    /// What the channel does in it.
    pub(crate) kind: StretchKind,
    /// The line of the channel's last act before it; 0 where there is none.
    pub(crate) line: u32,
    /// Where axes stand.
    pub(crate) at: AxisPositions,
    /// The zones that are on.
    pub(crate) on: ZoneSet,
    /// The event with which it begins; none where it begins with the job.
    pub(crate) first: Option<EventId>,
}

/// Whether the job's line of a channel starts it.
fn starts_at_first(job: &Job, channel: ChannelId) -> bool
    ensures { result ≡ starts_at_first job.now channel }
{
    job.channels
        .iter()
        .any(|line| line.channel == channel && line.starts)
}

/// The zones of a job.
pub(crate) fn zones_in(job: &Job) -> &[ZoneLine]
    ensures { result.now ≡ job.now.zones }
{
    job.zones.as_slice()
}

/// Those of these zones that are on at the start.
pub(crate) fn zones_on(zones: &[ZoneLine]) -> ZoneSet
    ensures { (z : ℕ) → has result z ≡ list_any (λ zone. (zone.zone == z) && zone.on) zones.now }
{
    let mut on = ZoneSet::empty();
    for zone in zones {
        if zone.on {
            on = on.with(zone.zone);
        }
    }
    on
}

/// How the only time of a channel begins that has had no event.
fn only_outset(alloc: Global, job: &Job, channel: ChannelId) -> Result<Vec<SpanStart>, AllocError>
    requires { length job.now.axes ≤ AXIS_LIMIT }
    ensures { IfOk result (λ outsets. map shown_outset outsets.items ≡ first_beginning job.now channel ∷ []) }
{
    let kind = if starts_at_first(job, channel) {
        StretchKind::Run
    } else {
        StretchKind::Idle
    };
    let first = SpanStart {
        kind,
        line: 0,
        at: start_row(job),
        on: zones_on(zones_in(job)),
        first: None,
    };
    let mut outsets = Vec::new(alloc);
    outsets.push(first)?;
    Ok(outsets)
}

/// For each channel, by its number, how its time begins with the job.
pub(crate) fn first_outsets(alloc: Global, job: &Job) -> Result<Vec<Vec<SpanStart>>, AllocError>
    requires { length job.now.axes ≤ AXIS_LIMIT }
    ensures size { IfOk result (λ outsets. length outsets.items ≡ CHANNEL_PLACES) }
    ensures outsets { IfOk result (λ outsets. AreOutsets job.now [] outsets.items) }
{
    let mut outsets = Vec::new(alloc);
    outsets.push(Vec::new(alloc))?;
    for number in 1..CHANNEL_PLACES as u8 {
        let own = only_outset(alloc, job, ChannelId { number })?;
        outsets.push(own)?;
    }
    Ok(outsets)
}

/// Adds how the time after an event begins to how the times of its channel begin, and says how many they were.
fn push_outset(
    own: &mut Vec<SpanStart>,
    note: &Occurrence,
    at: &Positions,
) -> Result<usize, AllocError>
    requires { 0 < length own.old.items }
    ensures count { IfOk result (λ count. count ≡ length own.old.items) }
    ensures outsets { (b : SpanStartView) (os : List OccurrenceView)
        → map shown_outset own.old.items ≡ beginnings_from b os
        → OnOk result (map shown_outset own.new.items ≡ beginnings_from b (os ++ shown_note note.now at.now ∷ [])) }
{
    let count = own.len();
    let last = &own[count - 1];
    let mut row = last.at;
    put(&mut row, at);
    let next = SpanStart {
        kind: note.kind,
        line: note.line.unwrap_or(last.line),
        at: row,
        on: note.on,
        first: Some(note.name),
    };
    own.push(next)?;
    Ok(count)
}

/// The place of a channel in a list that has one for each channel by its number.
fn place_of(channel: ChannelId) -> usize
    ensures place { result ≡ channel }
    ensures from { 1 ≤ result }
    ensures below { result < CHANNEL_PLACES }
{
    usize::from(channel.number)
}

/// Adds how the time after an event begins, and says the number of that time among those of its channel.
pub(crate) fn add_outset(
    outsets: &mut Vec<Vec<SpanStart>>,
    note: &Occurrence,
    at: &Positions,
) -> Result<usize, AllocError>
    requires size { length outsets.old.items ≡ CHANNEL_PLACES }
    requires begun { (job : JobView) × (os : List OccurrenceView) × AreOutsets job os outsets.old.items }
    ensures number { (job : JobView) (os : List OccurrenceView) → AreOutsets job os outsets.old.items
        → IfOk result (λ number. number ≡ suc (count_in os note.now.channel)) }
    ensures outsets { (job : JobView) (os : List OccurrenceView) → AreOutsets job os outsets.old.items
        → OnOk result (AreOutsets job (os ++ shown_note note.now at.now ∷ []) outsets.new.items) }
    ensures size { length outsets.new.items ≡ CHANNEL_PLACES }
{
    let place = place_of(note.channel);
    let number = push_outset(&mut outsets[place], note, at)?;
    Ok(number)
}
