//! Workers at a board under a lock, of which no clause says what is made there, and at a desk that one has for itself.
ghost use Rattle.std.specs.Prelude.{◌≡◌, ◌≤◌, length};
ghost use Rattle.job_lines.specs.declared.limits.TheConstants.{PROGRAM_LIMIT};
ghost use Rattle.job_types.specs.SoundJob.{BlocksFit, IsSoundJob};

use crate::jobs::{ONE, THREE, job_of};
use axis_sets::ChannelId;
use channel_machine::start_state;
use coord_core::{Board, Desk, Locked, Outcome};
use edge_io::OpenGate;
use job_types::Job;
use out_of_memory::NoMemory;
use parallel_run::{JobChannel, Worked, work};
use product_run::run_in_order;
use shared_board::{MemoryDesk, MemoryPass, Pass, SharedBoard};
use std::alloc::{AllocError, Global};
use std::sync::Wait;
use std::test::Fail;
use std::thread;
use std::thread::Threads;
use sync_types::{Entry, Run, Step};

/// The steps of a channel in these entries.
fn own_steps(
    alloc: Global,
    entries: &[Entry],
    channel: ChannelId,
) -> Result<Vec<Step>, AllocError> {
    let mut steps = Vec::new(alloc);
    for entry in entries {
        if entry.channel == channel {
            steps.push(entry.step)?;
        }
    }
    Ok(steps)
}

/// Whether a worker has kept what its channel does in this run before each of its steps, no more and no less.
fn has_kept(worked: &Worked, run: &Run) -> bool {
    let mut place = 0usize;
    for (entry, items) in run.entries.iter().zip(run.items.iter()) {
        if entry.channel == worked.channel {
            let Some(kept) = worked.items.get(place) else {
                return false;
            };
            if kept.as_slice() != items.as_slice() {
                return false;
            }
            place = place.saturating_add(1);
        }
    }
    place == worked.items.len()
}

/// Whether a worker has made at a board with these entries what its channel does in this run: no step was dropped or repeated.
fn has_made(
    alloc: Global,
    worked: &Worked,
    entries: &[Entry],
    run: &Run,
) -> Result<bool, AllocError> {
    let made = own_steps(alloc, entries, worked.channel)?;
    let wanted = own_steps(alloc, run.entries.as_slice(), worked.channel)?;
    Ok(made.as_slice() == wanted.as_slice() && has_kept(worked, run))
}

/// Something that lends the job that all workers read. The threads share it by this bound.
trait Lends {
    ghost use Rattle.job_types.specs.Job.{JobView};

    /// The job that it lends.
    ghost lent: { Self → JobView };

    /// Lends the job.
    fn lend(&self) -> &Job
        ensures { result.now ≡ lent self.now };
}

impl Lends for Job {
    ghost lent = { λ job. job };

    fn lend(&self) -> &Job {
        self
    }
}

/// What the workers of these passes have made at a board under a lock, each in a thread of its own.
fn work_all<R: Threads + Wait + Sync, J: Lends + Sync>(
    rt: &R,
    alloc: Global,
    lender: &J,
    board: &SharedBoard,
    passes: Vec<Pass>,
) -> Result<Vec<Result<Worked, NoMemory>>, AllocError>
    requires blocks { BlocksFit (J.lent lender.now) }
    requires programs { length (J.lent lender.now).programs ≤ PROGRAM_LIMIT }
{
    thread::map_vec(
        rt,
        passes,
        &|pass: Pass| -> Result<Worked, NoMemory>
            requires blocks { BlocksFit (J.lent lender.now) }
            requires programs { length (J.lent lender.now).programs ≤ PROGRAM_LIMIT }
        {
            let mut pass = pass;
            let channel = pass.channel;
            let own = JobChannel {
                job: lender.lend(),
                channel,
            };
            work(rt, alloc, &own, board, &OpenGate, &mut pass)
        },
    )
}

/// What the workers of a job have made at a board under a lock, and that board.
fn work_at_plain_board<R: Threads + Wait + Sync>(
    rt: &R,
    alloc: Global,
    job: &Job,
) -> Result<(Vec<Result<Worked, NoMemory>>, Board), Fail>
    requires sound { IsSoundJob job.now }
    requires blocks { BlocksFit job.now }
{
    let start = start_state(job);
    let Ok((board, passes)) = SharedBoard::new(alloc, &start) else {
        return Err(Fail::from("no memory"));
    };
    let made = work_all(rt, alloc, job, &board, passes)?;
    Ok((made, board.finish()))
}

#[test]
fn workers_at_a_plain_board_do_what_the_order_does(rt: HostRuntime) -> Result<(), Fail> {
    let alloc = rt.alloc();
    let job = job_of(alloc, THREE)?;
    let run = run_in_order(alloc, &job)?;
    let (made, board) = work_at_plain_board(&rt, alloc, &job)?;
    assert!(rt; made.len() == 3 && board.is_over() && board.entries().len() == 25);
    for one in &made {
        let Ok(worked) = one else {
            return Err(Fail::from("no memory"));
        };
        assert!(rt; has_made(alloc, worked, board.entries(), &run)?);
    }
    Ok(())
}

#[test]
fn a_worker_has_a_desk_for_itself(rt: HostRuntime) -> Result<(), Fail> {
    let alloc = rt.alloc();
    let job = job_of(alloc, ONE)?;
    let run = run_in_order(alloc, &job)?;
    let channel = ChannelId { number: 1 };
    let desk = MemoryDesk { number: 5 };
    let locked = Locked {
        board: Board::new(alloc, &start_state(&job))?,
        closed: false,
    };
    let mut pass = MemoryPass {
        number: 5,
        channel,
        locked,
    };
    let own = JobChannel { job: &job, channel };
    let worked = work(&rt, alloc, &own, &desk, &OpenGate, &mut pass)?;
    assert!(rt; has_made(alloc, &worked, pass.locked.board.entries(), &run)?);
    desk.close(&rt, &mut pass);
    assert!(rt; desk.wait_start(&rt, &mut pass) == Outcome::Closed);
    Ok(())
}
