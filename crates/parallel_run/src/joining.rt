//! What the workers have made is put together.
ghost use Rattle.std.specs.Prelude.{◌≡◌, ℕ, ◌≤◌, false, All, length, map, IfOk, Ok};
ghost use Rattle.channel_machine.specs.Scripts.{IsMaximalRunOf};
ghost use Rattle.job_lines.specs.declared.limits.TheConstants.{PROGRAM_LIMIT};
ghost use Rattle.job_types.specs.SoundJob.{BlocksFit};
ghost use Rattle.parallel_run.specs.Joining.{dealt, first_row, rows_at, without_first};
ghost use Rattle.parallel_run.specs.ThreadRuns.{IsBegunBy};
ghost use Rattle.parallel_run.specs.Workers.{HasMade};
ghost use Rattle.sync_types.specs.Boards.{among};
ghost use Rattle.sync_types.specs.Starts.{has_channel};

use crate::going::RunSoFar;
use crate::parts::{Parts, parts_of};
use crate::worked::Worked;
use axis_sets::ChannelId;
use coord_core::Board;
use job_types::Job;
use out_of_memory::NoMemory;
use std::alloc::Global;
use std::collections::VecDeque;
use std::sync::Wait;
use sync_types::{Entry, Item, Run, StartState};

/// The passes that workers bring back, and what the workers have made, both in the order of the workers. The only error is want
/// of memory, of a worker too.
pub(crate) fn passes_and_workers<P: Drop>(
    alloc: Global,
    back: Vec<(P, Result<Worked, NoMemory>)>,
) -> Result<(Vec<P>, Vec<Worked>), NoMemory>
    ensures passes { IfOk result (λ made. made.0.items ≡ map (λ one. one.0) back.items) }
    ensures workers { IfOk result (λ made. map (λ worked. Ok worked) made.1.items ≡ map (λ one. one.1) back.items) }
{
    let mut passes = Vec::new(alloc);
    let mut workers = Vec::new(alloc);
    for (pass, worked) in back {
        passes.push(pass)?;
        workers.push(worked?)?;
    }
    Ok((passes, workers))
}

/// Takes the next row of a channel; an empty one, where there is none.
fn take_row(alloc: Global, rows: &mut Vec<VecDeque<Vec<Item>>>, channel: ChannelId) -> Vec<Item>
    ensures row { result.items ≡ first_row (rows_at
        (map (λ rows. map (λ items. items.items) rows.items) rows.old.items) channel) }
    ensures rest { (c : ℕ) → rows_at (map (λ rows. map (λ items. items.items) rows.items) rows.new.items) c
        ≡ without_first (rows_at (map (λ rows. map (λ items. items.items) rows.items) rows.old.items)) channel c }
{
    match rows.get_mut(usize::from(channel.number)) {
        Some(rows) => match rows.pop_front() {
            Some(items) => items,
            None => Vec::new(alloc),
        },
        None => Vec::new(alloc),
    }
}

/// The items before each of these entries: each the next row of its channel.
fn deal(
    alloc: Global,
    rows: Vec<VecDeque<Vec<Item>>>,
    entries: &[Entry],
) -> Result<Vec<Vec<Item>>, NoMemory>
    ensures { IfOk result (λ items. map (λ items. items.items) items.items
        ≡ dealt (rows_at (map (λ rows. map (λ items. items.items) rows.items) rows.items)) entries.now) }
{
    let mut rows = rows;
    let mut items = Vec::new(alloc);
    for entry in entries {
        items.push(take_row(alloc, &mut rows, entry.channel))?;
    }
    Ok(items)
}

/// Puts together what workers have made at a board, one for each channel of its start, now that the board is back: the run begins
/// with the history of that board, as it stands. There each worker's steps are the entries of its channel, in order, and nothing is
/// held against anything. What still runs after it goes on, the lowest channel first, until no channel runs.
pub fn join_workers<R: Wait>(
    rt: &R,
    alloc: Global,
    job: &Job,
    start: &StartState,
    board: Board,
    workers: Vec<Worked>,
) -> Result<Run, NoMemory>
    requires blocks { BlocksFit job.now }
    requires programs { length job.now.programs ≤ PROGRAM_LIMIT }
    requires start { board.start ≡ start.now }
    requires made { All (HasMade job.now start.now board.entries) workers.items }
    requires all { (c : ℕ) → among (map (λ worked. worked.channel) workers.items) c ≡ false
        → has_channel start.now c ≡ false }
    ensures maximal { IfOk result (IsMaximalRunOf job.now start.now) }
    ensures begun { IfOk result (IsBegunBy job.now start.now board.entries) }
{
    let parts = parts_of(alloc, workers)?;
    let Parts { rows, locals } = parts;
    let items = deal(alloc, rows, board.entries())?;
    let run = RunSoFar {
        board,
        locals,
        items,
    };
    run.go_on(rt, alloc, job, start)
}
