//! The run of a job in which each time the lowest running channel goes on.
ghost use Rattle.std.specs.Prelude.{◌≡◌, ◌≤◌, length, IfOk};
ghost use Rattle.channel_machine.specs.StartStates.{start_of};
ghost use Rattle.job_lines.specs.declared.limits.TheConstants.{PROGRAM_LIMIT};
ghost use Rattle.job_types.specs.SoundJob.{BlocksFit, IsSoundJob};
ghost use Rattle.product_run.specs.RunLaws.{step_limit};
ghost use Rattle.channel_machine.specs.Scripts.{IsRunInOrder};
ghost use Rattle.sync_types.specs.Starts.{IsSound};

use channel_machine::{Segment, next_segment, no_locals, start_state};
use coord_core::{Board, ends_of};
use job_types::Job;
use out_of_memory::NoMemory;
use std::alloc::Global;
use sync_types::{Run, StartState};

/// The run of a job from this start.
fn run_from(alloc: Global, job: &Job, start: &StartState) -> Result<Run, NoMemory>
    requires blocks { BlocksFit job.now }
    requires programs { length job.now.programs ≤ PROGRAM_LIMIT }
    requires sound { IsSound start.now }
    ensures { IfOk result (λ run. IsRunInOrder job.now start.now run) }
{
    let mut board = Board::new(alloc, start)?;
    let mut locals = no_locals(alloc)?;
    let mut items = Vec::new(alloc);
    while let Some(channel) = board.lowest_running() {
        let Some(grant) = board.grant_of(channel) else {
            unreachable!()
        };
        let place = usize::from(channel.number);
        let local = locals[place].take();
        let Segment {
            items: done,
            step,
            after,
        } = next_segment(alloc, job, channel, local, &grant)?;
        board.act(channel, step)?;
        items.push(done)?;
        locals[place] = Some(after);
    }
    let ends = ends_of(&board, start);
    Ok(Run {
        entries: board.into_entries(),
        items,
        ends,
    })
}

/// Runs a job: each time the lowest channel that runs makes its segment and its step, until none runs. An alarm of a channel
/// is an entry of the run; the only error is want of memory. It always returns, since each channel may execute so many blocks.
pub fn run_in_order(alloc: Global, job: &Job) -> Result<Run, NoMemory>
    requires sound { IsSoundJob job.now }
    requires blocks { BlocksFit job.now }
    ensures run { IfOk result (λ run. IsRunInOrder job.now (start_of job.now) run) }
    ensures few { IfOk result (λ run. length run.entries ≤ step_limit) }
{
    let start = start_state(job);
    run_from(alloc, job, &start)
}
