//! The events of a run in which axes change hands.
ghost use Rattle.std.specs.Prelude.{◌≡◌, ℕ, suc, ◌++◌, ◌∷◌, [], List, OnOk, map};
ghost use Rattle.protection_zones.specs.Exchanges.{AreExchanges, count_in, counts_in, shown_exchange};
ghost use Rattle.protection_zones.specs.Notes.{shown_note};
ghost use Rattle.zone_stretches.specs.Occurrences.{OccurrenceView};

use crate::notes::Occurrence;
use axis_sets::{CHANNEL_PLACES, Positions};
use std::alloc::AllocError;

/// An event in which axes change hands.
#[derive(Clone, Copy)]
pub(crate) struct HandOver {
    /// The event.
    pub(crate) note: Occurrence,
    /// Where axes of its channel stand.
    pub(crate) at: Positions,
    /// How many events of each channel have been before it.
    pub(crate) counts: [usize; CHANNEL_PLACES],
    /// The number of the span of its channel that begins with it.
    pub(crate) next: usize,
}

/// Adds an event, where axes change hands in it. So many events of each channel have been before it, and the span of this number
/// begins with it.
pub(crate) fn add_exchange(
    exchanges: &mut Vec<HandOver>,
    note: &Occurrence,
    at: &Positions,
    counts: &[usize; CHANNEL_PLACES],
    next: usize,
) -> Result<(), AllocError>
    ensures { (os : List OccurrenceView) → ((c : ℕ) → counts_in counts.now c ≡ count_in os c)
        → next ≡ suc (count_in os note.now.channel)
        → AreExchanges os (map shown_exchange exchanges.old.items)
        → OnOk result (AreExchanges (os ++ shown_note note.now at.now ∷ [])
        (map shown_exchange exchanges.new.items)) }
{
    if note.axes.is_empty() {
        return Ok(());
    }
    exchanges.push(HandOver {
        note: *note,
        at: *at,
        counts: *counts,
        next,
    })?;
    Ok(())
}
