//! A worker: it makes the steps of a channel at a board.
ghost use Rattle.std.specs.Prelude.{◌≡◌, ◌≤◌, length, IfOk, OnErr};
ghost use Rattle.coord_core.specs.Desks.{TellsOn};
ghost use Rattle.job_lines.specs.declared.limits.TheConstants.{PROGRAM_LIMIT};
ghost use Rattle.job_types.specs.SoundJob.{BlocksFit};
ghost use Rattle.parallel_run.specs.Workers.{CanGoOn, IsOwnLater, TellsMade, TellsNothingYet, TellsOpen, TellsReason, TellsShut};

use crate::worked::Worked;
use axis_sets::ChannelId;
use channel_machine::grant_fits;
use coord_core::{Desk, Outcome};
use edge_io::Gate;
use job_types::Job;
use out_of_memory::NoMemory;
use std::alloc::Global;
use std::sync::Wait;

/// A channel of a job.
#[derive(Clone, Copy)]
pub struct JobChannel<'a> {
    /// The job.
    pub job: &'a Job,
    /// The channel.
    pub channel: ChannelId,
}

/// Makes the segments and the steps of a channel, each after the gate, until the channel is done, the run is over or the board
/// is closed. It stops at a grant that does not fit the channel. Where it finds no memory itself it closes the board; the only
/// error is want of memory, its own or another's.
///
/// Where the pass tells what it has seen, the channel has there, in order, the steps that the script of the job makes of the
/// grants that it gets there; and where there is no error they are those that the worker has made. Without an error the pass has
/// not seen the board closed, and tells why the worker has ended; with one it has seen it closed.
pub fn work<R: Wait, D: Desk, G: Gate>(
    rt: &R,
    alloc: Global,
    own: &JobChannel<'_>,
    desk: &D,
    gate: &G,
    pass: &mut D::Pass,
) -> Result<Worked, NoMemory>
    requires blocks { BlocksFit own.now.job.now }
    requires programs { length own.now.job.now.programs ≤ PROGRAM_LIMIT }
    requires fits { D.fits desk.now pass.old }
    requires fresh { TellsNothingYet own.now.channel (D.tells pass.old) }
    ensures fits { D.fits desk.now pass.new }
    ensures channel { IfOk result (λ w. w.channel ≡ own.now.channel) }
    ensures ready { IfOk result (CanGoOn own.now.job.now) }
    ensures own { TellsOn (IsOwnLater own.now.job.now own.now.channel) (D.tells pass.old) (D.tells pass.new) }
    ensures made { IfOk result (λ w. TellsMade own.now.job.now w (D.tells pass.new)) }
    ensures ends { IfOk result (λ w. TellsReason own.now.job.now w (D.tells pass.new)) }
    ensures open { IfOk result (λ w. TellsOpen (D.tells pass.new)) }
    ensures shut { OnErr result (TellsShut (D.tells pass.new)) }
{
    let job = own.job;
    let channel = own.channel;
    let mut worked = Worked::new(alloc, channel);
    let mut outcome = desk.wait_start(rt, pass);
    let mut number = 0u32;
    'turns: for _ in rt.forever() {
        let grant = match outcome {
            Outcome::Granted(grant) => grant,
            Outcome::Done | Outcome::Over => return Ok(worked),
            Outcome::Closed | Outcome::NoMemory => return Err(NoMemory),
        };
        gate.pass(channel.number, number);
        number = number.saturating_add(1);
        if !grant_fits(job, worked.last.as_ref(), &grant) {
            return Ok(worked);
        }
        let Ok(step) = worked.note(alloc, job, &grant) else {
            desk.close(rt, pass);
            return Err(NoMemory);
        };
        outcome = desk.act_and_wait(rt, pass, step);
    }
    unreachable!()
}
