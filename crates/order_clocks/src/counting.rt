//! Reads a whole run.
ghost use Rattle.order_clocks.specs.Clocked.{IsOrderOf, moves_in};
ghost use Rattle.order_clocks.specs.Races.{IsFirst};
ghost use Rattle.order_clocks.specs.Stops.{IsWhole};
ghost use Rattle.order_clocks.specs.Tells.{is_before_in};
ghost use Rattle.std.specs.Prelude.{◌<◌, ◌^◌, length, IfOk};
ghost use Rattle.sync_types.specs.Boards.{Board};

use crate::clocks::Clocks;
use crate::reader::{ClockReader, ClockedStep, Replay};
use crate::search::RaceSearch;
use counter_rows::{ClockTable, VectorClock};
use out_of_memory::NoMemory;
use std::alloc::Global;
use step_deeds::goers;
use sync_types::{ChannelEnd, Entry};

/// The counters of the events of a whole run, and its first race.
pub(crate) fn read_run(
    alloc: Global,
    entries: &[Entry],
    ends: &[ChannelEnd],
) -> Result<Clocks, NoMemory>
    requires few { length entries.now < 2 ^ 32 }
    requires whole { (b : Board) × IsWhole b entries.now ends.now }
    ensures order { (b : Board) → IsWhole b entries.now ends.now
        → IfOk result (λ clocks. IsOrderOf b (moves_in entries.now) (is_before_in clocks.rows)) }
    ensures race { (b : Board) → IsWhole b entries.now ends.now
        → IfOk result (λ clocks. IsFirst b (moves_in entries.now) (length entries.now) clocks.race) }
{
    let _zero = VectorClock::zero();
    let first = ClockReader::new(alloc, entries, ends)?;
    let replay = Replay {
        entries,
        first: &first,
    };
    let mut reader = first.copied()?;
    let mut search = RaceSearch::new(alloc)?;
    let mut read = ClockedStep::none();
    // Room for the acts. It grows for those that go on.
    let mut table = ClockTable::new(alloc, entries.len(), entries.len())?;
    for place in 0..entries.len() {
        reader.next(entries, place, &mut read);
        search.look(&replay, place, &read, &reader.watch)?;
        table.push(&read.rows, &goers(&read.deed.goes))?;
    }
    Ok(Clocks::of(table, search.race))
}
