//! What is kept of each channel of a run between two segments.
ghost use Rattle.std.specs.Prelude.{◌≡◌, ◌≤◌, ◌++◌, ◌∷◌, [], List, length, IfOk, IfSome};
ghost use Rattle.job_lines.specs.declared.limits.TheConstants.{PROGRAM_LIMIT};
ghost use Rattle.job_types.specs.SoundJob.{BlocksFit};
ghost use Rattle.channel_machine.specs.Locals.{IsReady, IsKeptOf, IsSegmentOf, IsNothingKept};
ghost use Rattle.channel_machine.specs.TracedSegments.{IsTracedOf};
ghost use Rattle.sync_types.specs.declared.Grant.{Grant};

use crate::local::Local;
use crate::run::{Segment, run_on, run_segment};
use crate::traces::{TracedSegment, trace_on, trace_segment};
use axis_sets::{CHANNEL_PLACES, ChannelId};
use job_types::Job;
use out_of_memory::NoMemory;
use std::alloc::{AllocError, Global};
use sync_types::Grant;

/// What is kept of each channel, by its number.
pub type Locals = Vec<Option<Local>>;

/// Nothing of any channel.
pub fn no_locals(alloc: Global) -> Result<Locals, AllocError>
    ensures { IfOk result (λ locals. IsNothingKept locals.items) }
{
    let mut locals = Vec::new(alloc);
    for _ in 0..CHANNEL_PLACES {
        locals.push(None)?;
    }
    Ok(locals)
}

/// The segment of a channel that goes on with a grant: its first, where nothing is kept of it. The only error is want of memory.
pub fn next_segment(
    alloc: Global,
    job: &Job,
    channel: ChannelId,
    local: Option<Local>,
    grant: &Grant,
) -> Result<Segment, NoMemory>
    requires blocks { BlocksFit job.now }
    requires programs { length job.now.programs ≤ PROGRAM_LIMIT }
    requires ready { IfSome local (IsReady job.now channel) }
    ensures told { IfOk result (λ segment. (made : List Grant) → IsKeptOf job.now channel made local
        → IsSegmentOf job.now channel (made ++ grant.now ∷ []) segment) }
    ensures ready { IfOk result (λ segment. IsReady job.now channel segment.after) }
{
    match local {
        Some(local) => run_on(alloc, job, local, grant),
        None => {
            let local = Local::start(alloc, job, channel, grant)?;
            run_segment(alloc, job, &local)
        }
    }
}

/// The segment of a channel that goes on with a grant, as `next_segment` makes it, with the levels of calls on which the block
/// stands whose alarm ends it. After the alarm the channel itself has them no more. The only error is want of memory.
pub fn traced_segment(
    alloc: Global,
    job: &Job,
    channel: ChannelId,
    local: Option<Local>,
    grant: &Grant,
) -> Result<TracedSegment, NoMemory>
    requires blocks { BlocksFit job.now }
    requires programs { length job.now.programs ≤ PROGRAM_LIMIT }
    requires ready { IfSome local (IsReady job.now channel) }
    ensures told { IfOk result (λ traced. (made : List Grant) → IsKeptOf job.now channel made local
        → IsTracedOf job.now channel (made ++ grant.now ∷ []) traced) }
    ensures ready { IfOk result (λ traced. IsReady job.now channel traced.segment.after) }
{
    match local {
        Some(local) => trace_on(alloc, job, local, grant),
        None => {
            let local = Local::start(alloc, job, channel, grant)?;
            trace_segment(alloc, job, local)
        }
    }
}
