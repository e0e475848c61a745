//! The search for the first race of a run.
ghost use Rattle.order_clocks.specs.Clocked.{moves_in};
ghost use Rattle.order_clocks.specs.CourseOf.{course_of};
ghost use Rattle.order_clocks.specs.LastPlaces.{AreLast};
ghost use Rattle.order_clocks.specs.Pairs.{AreEvents, AreWaits, IsKnownStep, IsLeastWith, IsRaceBetween};
ghost use Rattle.order_clocks.specs.Races.{IsRace};
ghost use Rattle.order_clocks.specs.Reading.{IsReadAt, IsReaderAt, IsSearched};
ghost use Rattle.order_clocks.specs.Tracks.{IsEarlierRace, tracks_of};
ghost use Rattle.step_deeds.specs.declared.deed.StepEvents.{StepEvents};
ghost use Rattle.counter_rows.specs.declared.table.StepClocks.{StepClocks};
ghost use Rattle.order_clocks.specs.declared.pairs.RaceTiming.TheVariants.{Together, Waiting};
ghost use Rattle.std.specs.Prelude.{◌≡◌, ℕ, suc, ◌<◌, ◌≤◌, ◌^◌, ◌⊎◌, List, None, length, IfOk, IsOk};
ghost use Rattle.sync_types.specs.Boards.{Board};
ghost use Rattle.sync_types.specs.Turns.{Move};
ghost use Rattle.step_deeds.specs.Holds.{BeginsAtMark, DepartsFromMark, departure_of};

use crate::events::{EVENT_PLACES, Event, put_events, put_waits};
use crate::pairs::{RaceTiming, least_between};
use crate::places::LastTouches;
use crate::reader::{ClockedStep, Replay};
use crate::watch::BoardReplay;
use out_of_memory::NoMemory;
use std::alloc::Global;
use sync_types::Race;

/// The first race so far; and the last events that left a trace, as long as there is none.
#[derive(Drop)]
pub(crate) struct RaceSearch {
    pub(crate) places: LastTouches,
    pub(crate) race: Option<Race>,
    // Room for the events of a step, and for the waits after it: nothing is kept there from step to step.
    events: [Option<Event>; EVENT_PLACES],
    waits: [Option<Event>; EVENT_PLACES],
}

/// The least of the races of one step alone: c, d and f.
pub(crate) fn least_within(
    events: &[Option<Event>; EVENT_PLACES],
    waits: &[Option<Event>; EVENT_PLACES],
) -> Option<Race>
    ensures { IsLeastWith (λ race. IsRaceBetween Waiting events.now waits.now EVENT_PLACES race ⊎ IsRaceBetween Together
        events.now events.now EVENT_PLACES race) None result }
{
    let waiting = least_between(&RaceTiming::Waiting, events, waits, None);
    least_between(&RaceTiming::Together, events, events, waiting)
}

/// The least of the races so far and those of a step with the steps before it. `NoMemory` where there is too
/// little to read these once more.
pub(crate) fn least_before(
    replay: &Replay<'_>,
    place: usize,
    lates: &[Option<Event>; EVENT_PLACES],
    start: Option<Race>,
) -> Result<Option<Race>, NoMemory>
    requires place { place ≤ length replay.now.entries.now }
    requires few { length replay.now.entries.now < 2 ^ 32 }
    requires reader { (b : Board) × IsReaderAt b replay.now.entries.now 0 replay.now.first.now }
    ensures { (b : Board) (late : StepEvents) (rows : StepClocks)
        → IsReaderAt b replay.now.entries.now 0 replay.now.first.now
        → IsKnownStep (course_of b (moves_in replay.now.entries.now))
        (tracks_of b (moves_in replay.now.entries.now)) place late rows
        → AreEvents late rows lates.now
        → IfOk result (IsLeastWith (IsEarlierRace (course_of b (moves_in replay.now.entries.now))
        (tracks_of b (moves_in replay.now.entries.now)) place place) start) }
{
    let mut reader = replay.first.copied()?;
    let mut least = start;
    let mut earlies = [None; EVENT_PLACES];
    let mut read = ClockedStep::none();
    for j in 0..place {
        reader.next(replay.entries, j, &mut read);
        put_events(&read.deed, &read.rows, &mut earlies);
        least = least_between(&RaceTiming::Later, &earlies, lates, least);
    }
    Ok(least)
}

impl RaceSearch {
    /// Before the first step. `NoMemory` where there is too little.
    pub(crate) fn new(alloc: Global) -> Result<RaceSearch, NoMemory>
        ensures { (b : Board) (moves : List Move) → IfOk result (IsSearched b moves 0) }
    {
        let places = LastTouches::new(alloc)?;
        Ok(RaceSearch {
            places,
            race: None,
            events: [None; EVENT_PLACES],
            waits: [None; EVENT_PLACES],
        })
    }

    /// The least race of a step, where there was none before it. The steps before it are read once more only
    /// where there is one with them: `NoMemory` where there is too little for that. The events and the waits are
    /// put in the room that is kept for them.
    fn least_at(
        &mut self,
        replay: &Replay<'_>,
        place: usize,
        read: &ClockedStep,
        watch: &BoardReplay,
    ) -> Result<Option<Race>, NoMemory>
        requires place { place ≤ length replay.now.entries.now }
        requires few { length replay.now.entries.now < 2 ^ 32 }
        requires reader { (b : Board) × IsReaderAt b replay.now.entries.now 0 replay.now.first.now }
        requires departures { (c : ℕ) → DepartsFromMark (departure_of read.now.deed c) }
        requires begins { BeginsAtMark read.now.deed.begins }
        ensures places { self.new.places ≡ self.old.places }
        ensures race { (b : Board) → IsReaderAt b replay.now.entries.now 0 replay.now.first.now
            → IsReadAt b (moves_in replay.now.entries.now) place read.now watch.now
            → AreLast (course_of b (moves_in replay.now.entries.now))
            (tracks_of b (moves_in replay.now.entries.now)) place self.old.places
            → place < length replay.now.entries.now
            → IfOk result (IsLeastWith (IsRace b (moves_in replay.now.entries.now) place) None) }
    {
        put_events(&read.deed, &read.rows, &mut self.events);
        put_waits(&watch.holds, &mut self.waits);
        let within = least_within(&self.events, &self.waits);
        if self.places.is_racy(&read.deed, &read.rows) {
            least_before(replay, place, &self.events, within)
        } else {
            Ok(within)
        }
    }

    /// Searches the next step. `NoMemory` where there is too little to read the steps before it once more.
    pub(crate) fn look(
        &mut self,
        replay: &Replay<'_>,
        place: usize,
        read: &ClockedStep,
        watch: &BoardReplay,
    ) -> Result<(), NoMemory>
        requires place { place < length replay.now.entries.now }
        requires few { length replay.now.entries.now < 2 ^ 32 }
        requires reader { (b : Board) × IsReaderAt b replay.now.entries.now 0 replay.now.first.now }
        requires departures { (c : ℕ) → DepartsFromMark (departure_of read.now.deed c) }
        requires begins { BeginsAtMark read.now.deed.begins }
        ensures { (b : Board) → IsReaderAt b replay.now.entries.now 0 replay.now.first.now
            → IsReadAt b (moves_in replay.now.entries.now) place read.now watch.now
            → IsSearched b (moves_in replay.now.entries.now) place self.old
            → IsOk result → IsSearched b (moves_in replay.now.entries.now) (suc place) self.new }
    {
        match self.race {
            Some(_) => Ok(()),
            None => {
                // A step that leaves no trace and minds none is in no race.
                if read.deed.is_traceless() {
                    return Ok(());
                }
                self.race = self.least_at(replay, place, read, watch)?;
                self.places.note(&read.deed, &read.rows);
                Ok(())
            }
        }
    }
}
