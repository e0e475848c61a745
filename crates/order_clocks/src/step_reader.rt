//! Reads what happens in the steps of a run, one after another.
ghost use Rattle.std.specs.Prelude.{◌≡◌, ℕ, suc, ◌<◌, ◌^◌, length};
ghost use Rattle.order_clocks.specs.Clocked.{moves_in};
ghost use Rattle.order_clocks.specs.StepReading.{IsAtStep, IsReadStep};
ghost use Rattle.order_clocks.specs.Stops.{IsWhole};
ghost use Rattle.sync_types.specs.Boards.{Board};

use crate::stops::{Stops, stops_of};
use crate::watch::BoardReplay;
use step_deeds::StepEvents;
use sync_types::{ChannelEnd, Entry};

/// What happens in a step, and whether it alarms.
#[derive(Clone, Copy)]
pub struct ReadStep {
    /// What happens; a step that alarms changes nothing.
    pub deed: StepEvents,
    /// Whether it alarms.
    pub alarms: bool,
}

/// What is known of a run up to some step.
#[derive(Clone, Copy)]
pub struct StepReader {
    pub(crate) stops: Stops,
    pub(crate) watch: BoardReplay,
}

impl StepReader {
    /// Before the first step of a run.
    pub fn new(entries: &[Entry], ends: &[ChannelEnd]) -> StepReader
        ensures { (b : Board) → IsWhole b entries.now ends.now → IsAtStep b entries.now 0 result }
    {
        StepReader {
            stops: stops_of(entries, ends),
            watch: BoardReplay::new(),
        }
    }

    /// Reads the step of this place, and goes on to the next.
    pub fn next(&mut self, entries: &[Entry], place: usize) -> ReadStep
        requires place { place < length entries.now }
        requires few { length entries.now < 2 ^ 32 }
        requires reader { (b : Board) × IsAtStep b entries.now place self.old }
        ensures next { (b : Board) → IsAtStep b entries.now place self.old
            → IsAtStep b entries.now (suc place) self.new }
        ensures read { (b : Board) → IsAtStep b entries.now place self.old
            → IsReadStep b (moves_in entries.now) place result }
    {
        let entry = &entries[place];
        let alarms = self.stops.is_at(entry, place);
        let mut deed = StepEvents::none();
        self.watch.tell(entry, alarms, &mut deed);
        ReadStep { deed, alarms }
    }
}
