//! A segment of a channel's run, with the levels of calls on which its alarm comes.

ghost use Rattle.std.specs.Prelude.{◌≡◌, ◌≤◌, length, IfOk, IfSome};
ghost use Rattle.job_types.specs.SoundJob.{BlocksFit};
ghost use Rattle.channel_machine.specs.CallLevels as model;
ghost use Rattle.channel_machine.specs.Kept.{IsSettingIn, Keeps, state_view};
ghost use Rattle.channel_machine.specs.Levels.{LevelsFit};
ghost use Rattle.channel_machine.specs.Run.{SurroundingsView, Channel, channel_after_grant};
ghost use Rattle.channel_machine.specs.TracedSegments.{IsTraced};
ghost use Rattle.job_lines.specs.declared.limits.TheConstants.{PROGRAM_LIMIT};

use crate::levels::Levels;
use crate::limits::BLOCK_LIMIT;
use crate::local::{Local, State, copied_some};
use crate::run::{Segment, advance};
use fault_codes::alarms::NO_PROGRAM_END;
use job_types::Job;
use out_of_memory::NoMemory;
use std::alloc::Global;
use sync_types::{Action, Grant};

/// A segment, with the levels of calls on which its alarm comes.
#[derive(Drop)]
pub struct TracedSegment {
    /// The segment.
    pub segment: Segment,
    /// The levels on which the block stands whose alarm ends it, where one does.
    pub levels: Option<Levels>,
}

/// The levels on which a block stands that alarms so: none at alarm 9, which is that of no block.
fn levels_at_alarm(code: u16, levels: Option<Levels>) -> Option<Levels>
    ensures { result ≡ model.levels_at_alarm code levels }
{
    if code == NO_PROGRAM_END { None } else { levels }
}

/// The levels on which the block of this step stands, where that is an alarm.
fn levels_at_step(action: &Action, levels: Option<Levels>) -> Option<Levels>
    ensures { result ≡ model.levels_at_step action.now levels }
{
    match action {
        Action::Alarm(code) => levels_at_alarm(*code, levels),
        Action::WaitM(_, _)
        | Action::SetM(_)
        | Action::ClearM(_)
        | Action::Init(_, _)
        | Action::Start(_)
        | Action::WaitE(_)
        | Action::Release(_)
        | Action::Get(_)
        | Action::End => None,
    }
}

/// The segment of a channel that goes on with a grant, and the levels of its alarm.
pub(crate) fn trace_on(
    alloc: Global,
    job: &Job,
    local: Local,
    grant: &Grant,
) -> Result<TracedSegment, NoMemory>
    requires blocks { BlocksFit job.now }
    requires programs { length job.now.programs ≤ PROGRAM_LIMIT }
    requires fit { IfSome local.levels (LevelsFit job.now.skip job.now.programs) }
    requires few { local.count ≤ BLOCK_LIMIT }
    ensures told { IfOk result (λ g. (s : SurroundingsView) (c : Channel)
        → IsSettingIn job.now s local → Keeps s c local
        → IsTraced s (channel_after_grant c grant.now) g) }
    ensures fit { IfOk result (λ g. IfSome g.segment.after.levels (LevelsFit job.now.skip job.now.programs)) }
    ensures few { IfOk result (λ g. g.segment.after.count ≤ BLOCK_LIMIT) }
    ensures channel { IfOk result (λ g. g.segment.after.channel ≡ local.channel) }
{
    let mut local = local;
    local.resume(grant);
    trace_segment(alloc, job, local)
}

/// The segment of a channel, which is given away, and the levels of its alarm.
pub(crate) fn trace_segment(
    alloc: Global,
    job: &Job,
    local: Local,
) -> Result<TracedSegment, NoMemory>
    requires blocks { BlocksFit job.now }
    requires programs { length job.now.programs ≤ PROGRAM_LIMIT }
    requires fit { IfSome local.levels (LevelsFit job.now.skip job.now.programs) }
    requires few { local.count ≤ BLOCK_LIMIT }
    ensures told { IfOk result (λ g. (s : SurroundingsView) (c : Channel) → IsSettingIn job.now s local
        → Keeps s c local → IsTraced s c g) }
    ensures fit { IfOk result (λ g. IfSome g.segment.after.levels (LevelsFit job.now.skip job.now.programs)) }
    ensures few { IfOk result (λ g. g.segment.after.count ≤ BLOCK_LIMIT) }
    ensures channel { IfOk result (λ g. g.segment.after.channel ≡ local.channel) }
{
    trace_state(alloc, job, local.state)
}

/// The segment of a channel whose state is given away, and the levels of its alarm: those from before the last block that
/// comes, of which each time a copy is kept.
fn trace_state(alloc: Global, job: &Job, start: Box<State>) -> Result<TracedSegment, NoMemory>
    requires blocks { BlocksFit job.now }
    requires programs { length job.now.programs ≤ PROGRAM_LIMIT }
    requires fit { IfSome start.value.levels (LevelsFit job.now.skip job.now.programs) }
    requires few { start.value.count ≤ BLOCK_LIMIT }
    ensures told { IfOk result (λ g. (s : SurroundingsView) (c : Channel)
        → IsSettingIn job.now s (state_view start.value) → Keeps s c (state_view start.value)
        → IsTraced s c g) }
    ensures fit { IfOk result (λ g. IfSome g.segment.after.levels (LevelsFit job.now.skip job.now.programs)) }
    ensures few { IfOk result (λ g. g.segment.after.count ≤ BLOCK_LIMIT) }
    ensures channel { IfOk result (λ g. g.segment.after.channel ≡ start.value.channel) }
{
    let mut state = start;
    let mut items = Vec::new(alloc);
    let mut halt = None;
    loop {
        let before = copied_some(&state.levels);
        advance(alloc, job, &mut *state, &mut items, &mut halt)?;
        match halt {
            Some(step) => {
                let levels = levels_at_step(&step.action, before);
                let after = Local { state };
                let segment = Segment { items, step, after };
                return Ok(TracedSegment { segment, levels });
            }
            None => {}
        }
    }
}
