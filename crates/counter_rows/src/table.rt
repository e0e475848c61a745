//! The rows of the events of many steps.
ghost use Rattle.axis_sets.specs.Sets.{has};
ghost use Rattle.axis_sets.specs.declared.limits.TheConstants.{CHANNEL_PLACES};
ghost use Rattle.counter_rows.specs.Rows.{count_of};
ghost use Rattle.counter_rows.specs.Tables.{act_in, go_in, place_in, row_at};
ghost use Rattle.std.specs.Prelude.{◌≡◌, ℕ, ◌+◌, ◌<◌, ◌≤◌, true, false, List, [], length, slice_index, slice_index_or, IfOk, IsOk, if◌then◌else◌};

use crate::VectorClock;
use axis_sets::CHANNEL_PLACES;
use out_of_memory::NoMemory;
use std::alloc::Global;
use std::marker::Model;

/// The rows of the events of one step.
#[derive(Clone, Copy)]
pub struct StepClocks {
    /// Of the act.
    pub act: VectorClock,
    /// By channel: of the channel that goes on.
    pub goes: [VectorClock; CHANNEL_PLACES],
}

impl StepClocks {
    /// No event: a place for the rows of a step.
    pub fn none() -> StepClocks
        ensures act { (c : ℕ) → count_of result.act c ≡ 0 }
        ensures goes { (d c : ℕ) → count_of (slice_index_or result.goes d []) c ≡ 0 }
    {
        let zero = VectorClock::zero();
        StepClocks {
            act: zero,
            goes: [zero; CHANNEL_PLACES],
        }
    }
}

/// Where the rows of one step stand among all.
#[derive(Clone, Copy)]
pub struct StepPlaces {
    /// The place of the act's.
    pub first: usize,
    /// By channel: how far after it that of the channel stands.
    pub goes: [u8; CHANNEL_PLACES],
}

/// The rows of the events of steps, one after another. A channel that does not go on in a step takes no room.
#[derive(Drop)]
pub struct ClockTable {
    rows: Vec<VectorClock>,
    steps: Vec<StepPlaces>,
}

impl Model for ClockTable {
    ghost use Rattle.counter_rows.specs.Tables.{TableView, IsWhole};

    ghost Value = { TableView };

    ghost view = { λ t. record { rows = t.rows.items; steps = t.steps.items } };

    ghost invariant = { λ t. IsWhole (record { rows = t.rows.items; steps = t.steps.items }) };
}

/// Puts the rows of a step after the others, and tells where they stand.
pub(crate) fn push_rows(
    list: &mut Vec<VectorClock>,
    rows: &StepClocks,
    goes: &[bool; CHANNEL_PLACES],
) -> Result<StepPlaces, NoMemory>
    ensures kept { IfOk result (λ places. (k : ℕ) → k < length list.old.items → slice_index_or list.new.items k []
        ≡ slice_index_or list.old.items k []) }
    ensures more { length list.old.items ≤ length list.new.items }
    ensures within { IfOk result (λ places. (c : ℕ) → place_in places c < length list.new.items) }
    ensures act { IfOk result (λ places. slice_index_or list.new.items places.first [] ≡ rows.now.act) }
    ensures goes { IfOk result (λ places. (c : ℕ) → has goes.now c ≡ true
        → slice_index_or list.new.items (place_in places c) [] ≡ slice_index_or rows.now.goes c []) }
{
    let first = list.len();
    list.push(rows.act)?;
    let mut places = [0; CHANNEL_PLACES];
    let mut next = 1u8;
    for c in 0..CHANNEL_PLACES {
        if goes[c] {
            places[c] = next;
            list.push(rows.goes[c])?;
            next += 1;
        }
    }
    Ok(StepPlaces {
        first,
        goes: places,
    })
}

impl ClockTable {
    /// A table of no step, with room for so many steps and events. `NoMemory` where there is too little.
    pub fn new(alloc: Global, steps: usize, events: usize) -> Result<ClockTable, NoMemory>
        ensures { IfOk result (λ table. length table.steps ≡ 0) }
    {
        Ok(ClockTable {
            rows: Vec::with_capacity(alloc, events)?,
            steps: Vec::with_capacity(alloc, steps)?,
        })
    }

    /// Adds the rows of a step. `NoMemory` where there is too little.
    pub fn push(&mut self, rows: &StepClocks, goes: &[bool; CHANNEL_PLACES]) -> Result<(), NoMemory>
        ensures size { IsOk result → length self.new.steps ≡ length self.old.steps + 1 }
        ensures kept { IsOk result → (i c : ℕ) → i < length self.old.steps → (act_in self.new i ≡ act_in self.old i)
            × (go_in self.new i c ≡ go_in self.old i c) }
        ensures act { IsOk result → act_in self.new (length self.old.steps) ≡ rows.now.act }
        ensures goes { IsOk result → (c : ℕ) → has goes.now c ≡ true → go_in self.new (length self.old.steps) c
            ≡ slice_index_or rows.now.goes c [] }
    {
        let places = push_rows(&mut self.rows, rows, goes)?;
        self.steps.push(places)?;
        Ok(())
    }

    /// How many events of a channel are counted in the row of an event of a step; none past the end.
    pub fn count(&self, step: usize, channel: usize, go: bool, of: usize) -> u64
        requires { channel < CHANNEL_PLACES }
        ensures { result ≡ count_of (row_at self.now step channel go) of }
    {
        if step >= self.steps.len() {
            return 0;
        }
        let places = &self.steps[step];
        if go {
            self.rows[places.first + usize::from(places.goes[channel])].at(of)
        } else {
            self.rows[places.first].at(of)
        }
    }
}
