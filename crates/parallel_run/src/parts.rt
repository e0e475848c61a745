//! What the workers leave: for each channel what it did before each of its steps, and what is kept of it.
ghost use Rattle.std.specs.Prelude.{◌≡◌, ℕ, ◌<◌, List, [], false, length, map, slice_index_or, All, IfOk};
ghost use Rattle.axis_sets.specs.declared.limits.TheConstants.{CHANNEL_PLACES};
ghost use Rattle.channel_machine.specs.Locals.{IsNothingKept};
ghost use Rattle.job_types.specs.Job.{JobView};
ghost use Rattle.parallel_run.specs.Joining.{HasNothingAt, HasPlaces, HasPut, LeavesOf, nobody};
ghost use Rattle.parallel_run.specs.Workers.{HasMade};
ghost use Rattle.sync_types.specs.Boards.{among};
ghost use Rattle.sync_types.specs.Views.{EntryView, StartView};

use crate::worked::Worked;
use axis_sets::CHANNEL_PLACES;
use channel_machine::{Locals, no_locals};
use out_of_memory::NoMemory;
use std::alloc::{AllocError, Global};
use std::collections::VecDeque;
use std::marker::Model;
use sync_types::Item;

/// What the workers leave, each list by the numbers of channels. A contract sees plain lists.
#[derive(Drop)]
pub(crate) struct Parts {
    /// What each channel did before each of its steps.
    pub rows: Vec<VecDeque<Vec<Item>>>,
    /// What is kept of each channel after its last segment.
    pub locals: Locals,
}

impl Model for Parts {
    ghost use Rattle.std.specs.Prelude.{map};
    ghost use Rattle.parallel_run.specs.Joining.{PartsView};

    ghost Value = { PartsView };

    ghost view = { λ p. record {
      rows = map (λ rows. map (λ items. items.items) rows.items)
          p.rows.items;
      locals = p.locals.items;
    } };
}

/// No rows, for each number of a channel.
fn no_rows(alloc: Global) -> Result<Vec<VecDeque<Vec<Item>>>, AllocError>
    ensures places { IfOk result (λ rows. length rows.items ≡ CHANNEL_PLACES) }
    ensures none { IfOk result (λ rows. (c : ℕ)
        → slice_index_or (map (λ rows. map (λ items. items.items) rows.items) rows.items) c [] ≡ []) }
{
    let mut rows = Vec::new(alloc);
    for _ in 0..CHANNEL_PLACES {
        rows.push(VecDeque::new(alloc))?;
    }
    Ok(rows)
}

impl Parts {
    /// Of no workers.
    fn none(alloc: Global) -> Result<Parts, AllocError>
        ensures places { IfOk result HasPlaces }
        ensures nothing { IfOk result (λ parts. (c : ℕ) → HasNothingAt c parts) }
    {
        Ok(Parts {
            rows: no_rows(alloc)?,
            locals: no_locals(alloc)?,
        })
    }

    /// Puts what a worker leaves at its channel.
    fn put(&mut self, worked: Worked)
        requires places { HasPlaces self.old }
        ensures places { HasPlaces self.new }
        ensures number { worked.channel < CHANNEL_PLACES }
        ensures put { HasPut self.old worked self.new }
    {
        let Worked {
            channel,
            items,
            last,
        } = worked;
        let place = usize::from(channel.number);
        self.rows[place] = items;
        self.locals[place] = last;
    }
}

/// What these workers leave of each channel.
pub(crate) fn parts_of(alloc: Global, workers: Vec<Worked>) -> Result<Parts, NoMemory>
    ensures places { IfOk result HasPlaces }
    ensures leaves { (job : JobView) → (start : StartView) → (entries : List EntryView)
        → All (HasMade job start entries) workers.items
        → ((c : ℕ) → among (map (λ w. w.channel) workers.items) c ≡ false → HasMade job start entries (nobody c))
        → IfOk result (λ parts. (c : ℕ) → LeavesOf job start entries c parts) }
{
    let mut parts = Parts::none(alloc)?;
    for worked in workers {
        parts.put(worked);
    }
    Ok(parts)
}
