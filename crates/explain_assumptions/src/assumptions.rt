//! What a run takes for granted.
ghost use Rattle.std.specs.Prelude.{◌≡◌, IfOk};
ghost use Rattle.channel_machine.specs.StartStates.{start_of};
ghost use Rattle.job_types.specs.SoundJob.{BlocksFit, IsSoundJob};
ghost use Rattle.sync_types.specs.Boards.{first_board};
ghost use Rattle.sync_types.specs.Turns.{AreEntries};
ghost use Rattle.explain_assumptions.specs.Assumptions as model;
ghost use Rattle.explain_assumptions.specs.Remarks.{remarks_in_run};

use crate::movers::first_movers;
use crate::remarks::Remark;
use crate::rows::{Assumed, add_done, add_said};
use crate::walks::remarks_with;
use axis_sets::{CHANNEL_PLACES, ChannelId};
use channel_machine::{grants_in, start_state};
use job_types::Job;
use out_of_memory::NoMemory;
use std::alloc::Global;
use sync_types::{Entry, Run};

/// Whether a channel acts in any of these entries.
fn acts_in(entries: &[Entry], channel: ChannelId) -> bool
    ensures { result ≡ model.does_act channel entries.now }
{
    for entry in entries {
        if entry.channel == channel {
            return true;
        }
    }
    false
}

/// The remarks on the executed blocks of a channel in a run of the job. The run is looked through once more for a channel that
/// acts in it.
#[tactic(auto, using(crate::proofs::GrantLaws::nothing_remarked))]
fn remarks_in(
    alloc: Global,
    job: &Job,
    run: &Run,
    channel: ChannelId,
) -> Result<Vec<Remark>, NoMemory>
    requires sound { IsSoundJob job.now }
    requires blocks { BlocksFit job.now }
    ensures { IfOk result (λ list. AreEntries (first_board (start_of job.now)) run.now.entries
        → list.items ≡ remarks_in_run job.now run.now channel) }
{
    if !acts_in(run.entries.as_slice(), channel) {
        return Ok(Vec::new(alloc));
    }
    let start = start_state(job);
    let grants = grants_in(alloc, &start, run.entries.as_slice(), channel)?;
    remarks_with(alloc, job, channel, grants.as_slice())
}

/// What a run takes for granted: what the programs of its channels do not say, and their start gives. By channels, in the order
/// of their numbers; of each the value of X, settable offsets, parameters in the order of their numbers, axes in the order of
/// their AXIS lines, and words that move nothing. The blocks of each channel are executed once more. The only error is want of
/// memory.
///
/// It is told of the entries of a run of the job.
#[tactic(auto, unfolding(crate::specs::Assumptions::assumptions_of))]
pub fn assumptions_of(alloc: Global, job: &Job, run: &Run) -> Result<Vec<Assumed>, NoMemory>
    requires sound { IsSoundJob job.now }
    requires blocks { BlocksFit job.now }
    ensures { IfOk result (λ list. AreEntries (first_board (start_of job.now)) run.now.entries
        → list.items ≡ model.assumptions_of job.now run.now) }
{
    let firsts = first_movers(alloc, run)?;
    let movers = firsts.as_slice();
    let mut rows = Vec::new(alloc);
    for number in 1..CHANNEL_PLACES as u8 {
        let channel = ChannelId { number };
        let list = remarks_in(alloc, job, run, channel)?;
        let remarks = list.as_slice();
        add_said(alloc, job, channel, remarks, &mut rows)?;
        add_done(job, movers, channel, remarks, &mut rows)?;
    }
    Ok(rows)
}
