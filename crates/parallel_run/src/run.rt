//! A worker for each channel of a job, in a thread of its own.
ghost use Rattle.std.specs.Prelude.{◌≡◌, ℕ, ◌<◌, ◌≤◌, All, length, slice_index_or, IfOk};
ghost use Rattle.channel_machine.specs.Scripts.{IsMaximalRunOf};
ghost use Rattle.channel_machine.specs.StartStates.{start_of};
ghost use Rattle.job_lines.specs.declared.limits.TheConstants.{PROGRAM_LIMIT};
ghost use Rattle.job_types.specs.SoundJob.{BlocksFit, IsSoundJob};
ghost use Rattle.parallel_run.specs.Returns.{BackView, IsBack, IsFirstPass};
ghost use Rattle.parallel_run.specs.ThreadRuns.{IsBegunByWorkers};
ghost use Rattle.ticket_board.specs.Passes.{TicketPassView};

use crate::joining::{join_workers, passes_and_workers};
use crate::meeting::Meeting;
use crate::worked::Worked;
use crate::worker::{JobChannel, work};
use channel_machine::start_state;
use edge_io::Gate;
use job_types::Job;
use out_of_memory::NoMemory;
use std::alloc::Global;
use std::sync::Wait;
use std::thread;
use std::thread::Threads;
use sync_types::Run;
use ticket_board::{TicketBoard, TicketPass};

/// Something that lends the job that all workers read.
///
/// The threads share it by this bound: that a job may be shared is then asked of the type alone.
trait Lends {
    ghost use Rattle.job_types.specs.Job.{JobView};

    /// The job that it lends.
    ghost lent: { Self → JobView };

    /// Lends the job.
    fn lend(&self) -> &Job
        ensures { result.now ≡ lent self.now };
}

impl Lends for Job {
    ghost lent = { λ job. job };

    fn lend(&self) -> &Job {
        self
    }
}

/// What a worker brings back: its pass, and what it has made.
type Back = (TicketPass, Result<Worked, NoMemory>);

/// A worker for each pass, each in a thread of its own, until all of them are joined: they begin once all have come. Each
/// brings its pass back.
fn work_all<R: Threads + Wait + Sync, J: Lends + Sync, G: Gate + Sync>(
    rt: &R,
    alloc: Global,
    lender: &J,
    board: &TicketBoard,
    gate: &G,
    passes: Vec<TicketPass>,
) -> Result<Vec<Back>, NoMemory>
    requires blocks { BlocksFit (J.lent lender.now) }
    requires programs { length (J.lent lender.now).programs ≤ PROGRAM_LIMIT }
    requires passes { All (IsFirstPass board.now) passes.items }
    ensures len { IfOk result (λ back. length back.items ≡ length passes.items) }
    ensures back { IfOk result (λ back. (k : ℕ) (p : TicketPassView) (d : BackView) → k < length passes.items
        → IsBack (J.lent lender.now) board.now (slice_index_or passes.items k p) (slice_index_or back.items k d)) }
{
    let meeting = Meeting::new(alloc, passes.len())?;
    let meeting = &meeting;
    Ok(thread::map_vec(
        rt,
        passes,
        &|pass: TicketPass| -> (TicketPass, Result<Worked, NoMemory>)
            requires blocks { BlocksFit (J.lent lender.now) }
            requires programs { length (J.lent lender.now).programs ≤ PROGRAM_LIMIT }
            requires first { IsFirstPass board.now pass }
            ensures { IsBack (J.lent lender.entry.now) board.entry.now pass result }
        {
            let mut pass = pass;
            let channel = pass.channel();
            let (all_come, seat) = meeting.all_come();
            drop(seat);
            if all_come {
                let own = JobChannel {
                    job: lender.lend(),
                    channel,
                };
                let worked = work(rt, alloc, &own, board, gate, &mut pass);
                (pass, worked)
            } else {
                (pass, Ok(Worked::new(alloc, channel)))
            }
        },
    )?)
}

/// Runs a job with a worker for each channel, each in a thread of its own. They meet at a board of tickets and are joined; each
/// has a pass of the board and brings it back, and with all of them the board gives its one history. The run is what
/// [`join_workers`] makes of that history and of the workers. The only error is want of memory, of a worker too.
///
/// Where a thread cannot be made, or comes too late, no worker begins, and the whole run is made after they are joined.
///
/// Not proved: that the workers run beside each other, that the history is that of their board and not another such history,
/// that no worker begins where another does not, and that a call returns.
pub fn run_threads<R: Threads + Wait + Sync, G: Gate + Sync>(
    rt: &R,
    alloc: Global,
    job: &Job,
    gate: &G,
) -> Result<Run, NoMemory>
    requires sound { IsSoundJob job.now }
    requires blocks { BlocksFit job.now }
    ensures maximal { IfOk result (IsMaximalRunOf job.now (start_of job.now)) }
    ensures workers { IfOk result (IsBegunByWorkers job.now) }
{
    let start = start_state(job);
    let (board, passes) = TicketBoard::new(alloc, &start)?;
    let back = work_all(rt, alloc, job, &board, gate, passes)?;
    let (passes, workers) = passes_and_workers(alloc, back)?;
    let board = board.finish(passes);
    join_workers(rt, alloc, job, &start, board, workers)
}
