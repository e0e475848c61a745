//! A channel, one block after another.
ghost use Rattle.std.specs.Prelude.{◌≡◌, ◌≤◌, ◌+◌, ◌==◌, not, false, is_some, length, IfOk, IfSome, MatchOption};
ghost use Rattle.std.specs.List.{list_any};
ghost use Rattle.job_types.specs.SoundJob.{BlocksFit};
ghost use Rattle.nc_blocks.specs.Statement.{statement_view, view_of};
ghost use Rattle.channel_machine.specs.Kept.{IsSettingIn, Keeps, state_view};
ghost use Rattle.channel_machine.specs.Levels.{LevelsFit};
ghost use Rattle.channel_machine.specs.Passing.{Comes, IsPassing, NoneComes};
ghost use Rattle.channel_machine.specs.Run as model;
ghost use Rattle.channel_machine.specs.Run.{SurroundingsView, Channel};
ghost use Rattle.job_lines.specs.declared.limits.TheConstants.{PROGRAM_LIMIT};
ghost use Rattle.sync_types.specs.Items.{is_motion};

use crate::limits::BLOCK_LIMIT;
use crate::local::{Local, State};
use crate::run::{NextBlock, advance, find_block};
use job_types::Job;
use out_of_memory::NoMemory;
use std::alloc::Global;
use sync_types::{Item, Step};

/// What came of the block at which control stood.
#[derive(Clone, Copy)]
pub struct Passing {
    /// Whether it was executed; it was not where it alarms, and where none stood there.
    pub executed: bool,
    /// Whether it was, and moves axes.
    pub moves: bool,
    /// Whether the segment ends with it.
    pub ends: bool,
}

/// Whether one of these items is a motion.
fn has_motion(items: &[Item]) -> bool
    ensures { result ≡ list_any is_motion items.now }
{
    for item in items {
        if item.is_motion() {
            return true;
        }
    }
    false
}

/// Whether the second number is another than the first.
fn is_other(before: u32, after: u32) -> bool
    ensures { result ≡ not (after == before) }
{
    after != before
}

/// Whether a segment has ended.
fn has_ended(halt: &Option<Step>) -> bool
    ensures { result ≡ is_some halt.now }
{
    halt.is_some()
}

/// Executes the block at which control stands in a channel with this state.
fn pass_state(alloc: Global, job: &Job, state: &mut State) -> Result<Passing, NoMemory>
    requires blocks { BlocksFit job.now }
    requires programs { length job.now.programs ≤ PROGRAM_LIMIT }
    requires fit { IfSome state.old.levels (LevelsFit job.now.skip job.now.programs) }
    requires few { state.old.count ≤ BLOCK_LIMIT }
    ensures told { IfOk result (λ p. (s : SurroundingsView) (c : Channel)
        → IsSettingIn job.now s (state_view state.old) → Keeps s c (state_view state.old)
        → IsPassing s c p (state_view state.new)) }
    ensures fit { IfOk result (λ _. IfSome state.new.levels (LevelsFit job.now.skip job.now.programs)) }
    ensures few { IfOk result (λ _. state.new.count ≤ BLOCK_LIMIT) }
    ensures count { IfOk result (λ p. p.ends ≡ false → state.new.count ≡ state.old.count + 1) }
    ensures channel { IfOk result (λ _. state.new.channel ≡ state.old.channel) }
{
    let before = state.count;
    let mut items = Vec::new(alloc);
    let mut halt = None;
    advance(alloc, job, state, &mut items, &mut halt)?;
    let executed = is_other(before, state.count);
    let moves = has_motion(items.as_slice());
    let ends = has_ended(&halt);
    Ok(Passing {
        executed,
        moves,
        ends,
    })
}

/// Executes the block at which control stands in a channel, as `run_segment` does one after another, and tells what came of it.
/// Where the segment ends with it, the channel may be resumed with a grant. The only error is want of memory.
pub fn pass_block(alloc: Global, job: &Job, local: &mut Local) -> Result<Passing, NoMemory>
    requires blocks { BlocksFit job.now }
    requires programs { length job.now.programs ≤ PROGRAM_LIMIT }
    requires fit { IfSome local.old.levels (LevelsFit job.now.skip job.now.programs) }
    requires few { local.old.count ≤ BLOCK_LIMIT }
    ensures told { IfOk result (λ p. (s : SurroundingsView) (c : Channel)
        → IsSettingIn job.now s local.old → Keeps s c local.old → IsPassing s c p local.new) }
    ensures fit { IfOk result (λ _. IfSome local.new.levels (LevelsFit job.now.skip job.now.programs)) }
    ensures few { IfOk result (λ _. local.new.count ≤ BLOCK_LIMIT) }
    ensures count { IfOk result (λ p. p.ends ≡ false → local.new.count ≡ local.old.count + 1) }
    ensures channel { IfOk result (λ _. local.new.channel ≡ local.old.channel) }
{
    pass_state(alloc, job, &mut *local.state)
}

/// The block at which control stands in a channel, if one does.
pub fn next_block<'a>(job: &'a Job, local: &Local) -> Option<NextBlock<'a>>
    requires { BlocksFit job.now }
    ensures { MatchOption result (NoneComes job.now.programs local.now.levels)
        (λ next. Comes job.now.programs local.now.levels next.line (view_of next.block.now)
        (statement_view next.opener.now)) }
{
    match local.here() {
        Some(here) => find_block(job, here),
        None => None,
    }
}
