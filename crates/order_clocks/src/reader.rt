//! Reads a run step by step: what happens in each, and the counters of its events.
ghost use Rattle.order_clocks.specs.Clocked.{moves_in};
ghost use Rattle.order_clocks.specs.Reading.{IsReadAt, IsReaderAt};
ghost use Rattle.order_clocks.specs.Stops.{IsWhole};
ghost use Rattle.std.specs.Prelude.{◌≡◌, ℕ, suc, ◌<◌, ◌^◌, false, length, IfOk};
ghost use Rattle.sync_types.specs.Boards.{Board};
ghost use Rattle.step_deeds.specs.Holds.{BeginsAtMark, DepartsFromMark, departure_of, goes_in};

use crate::LastClocks;
use crate::stops::{Stops, stops_of};
use crate::watch::BoardReplay;
use counter_rows::{StepClocks, VectorClock};
use out_of_memory::NoMemory;
use std::alloc::Global;
use step_deeds::StepEvents;
use sync_types::{ChannelEnd, Entry};

/// What happens in a step, and the counters of its events.
#[derive(Clone, Copy)]
pub(crate) struct ClockedStep {
    /// What happens.
    pub(crate) deed: StepEvents,
    /// The counters.
    pub(crate) rows: StepClocks,
}

impl ClockedStep {
    /// Nothing: a place for what is read.
    pub(crate) fn none() -> ClockedStep
        ensures { (c : ℕ) → goes_in result.deed c ≡ false }
    {
        ClockedStep {
            deed: StepEvents::none(),
            rows: StepClocks::none(),
        }
    }
}

/// What is known of a run up to some step.
#[derive(Drop)]
pub(crate) struct ClockReader {
    pub(crate) stops: Stops,
    pub(crate) watch: BoardReplay,
    pub(crate) times: LastClocks,
}

/// A run that can be read once more: its entries, and a reader before the first of them.
#[derive(Drop)]
pub(crate) struct Replay<'a> {
    /// The entries.
    pub(crate) entries: &'a [Entry],
    /// The reader.
    pub(crate) first: &'a ClockReader,
}

impl ClockReader {
    /// Before the first step of a run. `NoMemory` where there is too little.
    pub(crate) fn new(
        alloc: Global,
        entries: &[Entry],
        ends: &[ChannelEnd],
    ) -> Result<ClockReader, NoMemory>
        ensures { (b : Board) → IsWhole b entries.now ends.now → IfOk result (IsReaderAt b entries.now 0) }
    {
        let times = LastClocks::new(alloc)?;
        Ok(ClockReader {
            stops: stops_of(entries, ends),
            watch: BoardReplay::new(),
            times,
        })
    }

    /// The same, to go on apart. `NoMemory` where there is too little.
    pub(crate) fn copied(&self) -> Result<ClockReader, NoMemory>
        ensures { IfOk result (λ reader. reader ≡ self.now) }
    {
        let times = self.times.copied()?;
        Ok(ClockReader {
            stops: self.stops,
            watch: self.watch,
            times,
        })
    }

    /// Reads the next step, and puts it in the place of an earlier one.
    pub(crate) fn next(&mut self, entries: &[Entry], place: usize, read: &mut ClockedStep)
        requires place { place < length entries.now }
        requires few { length entries.now < 2 ^ 32 }
        requires reader { (b : Board) × IsReaderAt b entries.now place self.old }
        ensures next { (b : Board) → IsReaderAt b entries.now place self.old
            → IsReaderAt b entries.now (suc place) self.new }
        ensures read { (b : Board) → IsReaderAt b entries.now place self.old
            → IsReadAt b (moves_in entries.now) place read.new self.new.watch }
        ensures departures { (c : ℕ) → DepartsFromMark (departure_of read.new.deed c) }
        ensures begins { BeginsAtMark read.new.deed.begins }
    {
        let _zero = VectorClock::zero();
        let entry = &entries[place];
        let alarms = self.stops.is_at(entry, place);
        self.watch.tell(entry, alarms, &mut read.deed);
        self.times.step(&read.deed, &mut read.rows);
    }
}
