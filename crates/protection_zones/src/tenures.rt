//! Who holds a zone in a run, one after another.
ghost use Rattle.std.specs.Prelude.{◌≡◌, ◌∷◌, [], ◌≤◌, true, IfOk, None, Some, if◌then◌else◌, length, map};
ghost use Rattle.std.specs.Option.{option_map_or};
ghost use Rattle.axis_sets.specs.Sets.{has};
ghost use Rattle.axis_sets.specs.declared.limits.TheConstants.{AXIS_LIMIT};
ghost use Rattle.protection_zones.specs.Exchanges.{counts_in, shown_exchange, tenure_from, tenures_then};
ghost use Rattle.protection_zones.specs.Notes.{shown_note};
ghost use Rattle.protection_zones.specs.Terms.{changes, shown_term};
ghost use Rattle.zone_stretches.specs.Tenures.{first_tenure, is_carried_by, tenure_until};

use crate::AxisPositions;
use crate::exchanges::HandOver;
use crate::notes::Occurrence;
use crate::rows::{row_of, start_row};
use crate::spans::{zones_in, zones_on};
use axis_sets::{AxisId, AxisSet, CHANNEL_PLACES, ChannelId, ZoneSet};
use job_types::{Job, ZoneLine};
use std::alloc::{AllocError, Global};
use sync_types::EventId;

/// A tenure of a zone.
#[derive(Clone, Copy)]
pub(crate) struct Tenure {
    /// The channel that holds the zone, or none.
    pub(crate) owner: Option<ChannelId>,
    /// The number of its first span in the tenure.
    pub(crate) from: usize,
    /// The number of the last; none where it lasts.
    pub(crate) upto: Option<usize>,
    /// The line of the act with which it begins; 0 where there is none.
    pub(crate) line: u32,
    /// Where the axes of the zone stand as it begins.
    pub(crate) at: AxisPositions,
    /// The zones that are on as it begins.
    pub(crate) on: ZoneSet,
    /// The event with which it begins; none where it begins with the job.
    pub(crate) first: Option<EventId>,
    /// The event that ends it; none where it lasts.
    pub(crate) last: Option<EventId>,
}

/// Whether a direction is carried by one of these axes.
fn is_carried_by(axes: &AxisSet, carrier: Option<(AxisId, bool)>) -> bool
    ensures { result ≡ is_carried_by (has axes.now) carrier }
{
    match carrier {
        None => false,
        Some((axis, _)) => axes.contains(axis),
    }
}

/// Whether axes of the zone change hands in an event.
fn changes(zone: &ZoneLine, note: &Occurrence) -> bool
    ensures { result ≡ changes zone.now note.now }
{
    zone.sides
        .iter()
        .any(|side| is_carried_by(&note.axes, side.carrier))
}

/// How a zone stands as the job begins.
fn first_term(job: &Job, zone: &ZoneLine) -> Tenure
    requires { length job.now.axes ≤ AXIS_LIMIT }
    ensures { shown_term result ≡ first_tenure job.now zone.now }
{
    Tenure {
        owner: zone.holder,
        from: 0,
        upto: None,
        line: 0,
        at: start_row(job),
        on: zones_on(zones_in(job)),
        first: None,
        last: None,
    }
}

/// The channel that holds a zone whose axes change hands in an event.
fn owner_after(note: &Occurrence) -> Option<ChannelId>
    ensures { result ≡ (if note.now.name.go then Some note.now.channel else None) }
{
    if note.name.go {
        Some(note.channel)
    } else {
        None
    }
}

/// How many events of the channel that holds a zone have been; 0 where nobody holds it.
fn count_of_owner(counts: &[usize; CHANNEL_PLACES], owner: Option<ChannelId>) -> usize
    ensures { result ≡ option_map_or (counts_in counts.now) owner 0 }
{
    match owner {
        None => 0,
        Some(channel) => counts[usize::from(channel.number)],
    }
}

/// The tenure that begins with an event in which axes of the zone change hands.
fn term_after(zone: &ZoneLine, exchange: &HandOver) -> Tenure
    requires { changes zone.now exchange.now.note ≡ true }
    ensures { shown_term result ≡ tenure_from zone.now (shown_exchange exchange.now) }
{
    let note = &exchange.note;
    Tenure {
        owner: owner_after(note),
        from: exchange.next,
        upto: None,
        line: note.line.unwrap_or(0),
        at: row_of(&exchange.at),
        on: note.on,
        first: Some(note.name),
        last: None,
    }
}

/// The tenure up to an event.
fn term_until(term: &Tenure, exchange: &HandOver) -> Tenure
    ensures { shown_term result ≡ tenure_until (counts_in exchange.now.counts) (shown_term term.now)
        (shown_note exchange.now.note exchange.now.at) }
{
    Tenure {
        upto: Some(count_of_owner(&exchange.counts, term.owner)),
        last: Some(exchange.note.name),
        ..*term
    }
}

/// The tenures of a zone in a run with these events in which axes change hands, in order.
pub(crate) fn terms_of(
    alloc: Global,
    job: &Job,
    exchanges: &[HandOver],
    zone: &ZoneLine,
) -> Result<Vec<Tenure>, AllocError>
    requires { length job.now.axes ≤ AXIS_LIMIT }
    ensures { IfOk result (λ terms. map shown_term terms.items
        ≡ tenures_then zone.now (λ t. t ∷ []) (first_tenure job.now zone.now) (map shown_exchange exchanges.now)) }
{
    let mut terms = Vec::new(alloc);
    let mut current = first_term(job, zone);
    for exchange in exchanges {
        if changes(zone, &exchange.note) {
            terms.push(term_until(&current, exchange))?;
            current = term_after(zone, exchange);
        }
    }
    terms.push(current)?;
    Ok(terms)
}
