//! What is kept of a channel after all its steps in a run.
ghost use Rattle.std.specs.Prelude.{◌≡◌, ◌≤◌, ◌∷◌, ◌++◌, [], List, length, IfOk, IfSome, None};
ghost use Rattle.channel_machine.specs.Locals.{IsKeptOf, IsReady};
ghost use Rattle.channel_machine.specs.RunGrants.{grants_of};
ghost use Rattle.channel_machine.specs.StartStates.{start_of};
ghost use Rattle.job_lines.specs.declared.limits.TheConstants.{PROGRAM_LIMIT};
ghost use Rattle.job_types.specs.SoundJob.{BlocksFit, IsSoundJob};
ghost use Rattle.sync_types.specs.Boards.{first_board};
ghost use Rattle.sync_types.specs.Turns.{AreEntries};
ghost use Rattle.sync_types.specs.declared.Grant.{Grant};
ghost use Rattle.explain_alarms.specs.KeptChannels.{IsKept};

use axis_sets::ChannelId;
use channel_machine::{Levels, Local, grants_in, start_state, traced_segment};
use job_types::Job;
use out_of_memory::NoMemory;
use std::alloc::Global;
use sync_types::{Grant, Run};

/// What is kept of a channel after its segments.
#[derive(Drop)]
pub(crate) struct Kept {
    /// The channel; nothing before its first segment.
    pub local: Option<Local>,
    /// The levels of calls on which the block stands whose alarm ended its last segment, where one did.
    pub levels: Option<Levels>,
}

impl Kept {
    /// Nothing of a channel that has made no segment.
    fn none() -> Kept
        ensures local { result.local ≡ None }
        ensures levels { result.levels ≡ None }
    {
        Kept {
            local: None,
            levels: None,
        }
    }
}

/// What is kept of a channel after its segment with a grant.
fn gone_on(
    alloc: Global,
    job: &Job,
    channel: ChannelId,
    local: Option<Local>,
    grant: &Grant,
) -> Result<Kept, NoMemory>
    requires blocks { BlocksFit job.now }
    requires programs { length job.now.programs ≤ PROGRAM_LIMIT }
    requires ready { IfSome local (IsReady job.now channel) }
    ensures kept { IfOk result (λ after. (made : List Grant) → IsKeptOf job.now channel made local
        → IsKept job.now channel (made ++ grant.now ∷ []) after) }
    ensures ready { IfOk result (λ after. IfSome after.local (IsReady job.now channel)) }
{
    let traced = traced_segment(alloc, job, channel, local, grant)?;
    let levels = traced.levels;
    let segment = traced.segment;
    Ok(Kept {
        local: Some(segment.after),
        levels,
    })
}

/// What is kept of a channel after its segments with these grants.
fn kept_by(alloc: Global, job: &Job, channel: ChannelId, grants: &[Grant]) -> Result<Kept, NoMemory>
    requires blocks { BlocksFit job.now }
    requires programs { length job.now.programs ≤ PROGRAM_LIMIT }
    ensures { IfOk result (λ kept. IsKept job.now channel grants.now kept) }
{
    let mut kept = Kept::none();
    for grant in grants {
        let next = gone_on(alloc, job, channel, kept.local, grant)?;
        kept = next;
    }
    Ok(kept)
}

/// What is kept of a channel after all its steps in a run of the job; nothing where it made none. Each segment is made once
/// more, with the grant that the board has for it.
pub(crate) fn kept_after(
    alloc: Global,
    job: &Job,
    run: &Run,
    channel: ChannelId,
) -> Result<Kept, NoMemory>
    requires sound { IsSoundJob job.now }
    requires blocks { BlocksFit job.now }
    ensures { IfOk result (λ kept. AreEntries (first_board (start_of job.now)) run.now.entries
        → IsKept job.now channel (grants_of (start_of job.now) run.now.entries channel) kept) }
{
    let start = start_state(job);
    let grants = grants_in(alloc, &start, run.entries.as_slice(), channel)?;
    kept_by(alloc, job, channel, grants.as_slice())
}
