//! A channel of a run that executes its blocks again, with the remarks on them.
ghost use Rattle.std.specs.Prelude.{◌≡◌, ◌≤◌, ◌+◌, ◌∷◌, ◌++◌, [], false, length, IfOk, IfSome, OnOk};
ghost use Rattle.block_effects.specs.Words.{values_in};
ghost use Rattle.channel_machine.specs.Kept.{IsSettingIn};
ghost use Rattle.channel_machine.specs.Levels.{LevelsFit};
ghost use Rattle.channel_machine.specs.Locals.{IsReady};
ghost use Rattle.channel_machine.specs.Run.{SurroundingsView, Channel, channel_after_grant, segment_of, surroundings_of};
ghost use Rattle.channel_machine.specs.Scripts.{segment_after};
ghost use Rattle.channel_machine.specs.declared.limits.TheConstants.{BLOCK_LIMIT};
ghost use Rattle.job_lines.specs.declared.limits.TheConstants.{PROGRAM_LIMIT};
ghost use Rattle.job_types.specs.SoundJob.{BlocksFit};
ghost use Rattle.nc_blocks.specs.Indices.{FitsValues};
ghost use Rattle.nc_blocks.specs.Statement.{statement_view};
ghost use Rattle.explain_assumptions.specs.Remarks as model;
ghost use Rattle.explain_assumptions.specs.declared.remarks.RemarkKind.TheVariants as kind;
ghost use Rattle.explain_assumptions.specs.Walks.{IsComing, IsStep, IsWalked};

use crate::reads::{Reader, add_block};
use crate::remarks::{Remark, RemarkKind};
use crate::words::{add_if, add_statement};
use axis_sets::ChannelId;
use channel_machine::{Local, NextBlock, Passing, next_block, pass_block};
use job_types::Job;
use out_of_memory::NoMemory;
use std::alloc::{AllocError, Global};
use sync_types::Grant;

/// What the block says that comes.
#[derive(Drop)]
struct Coming {
    /// Its line.
    line: u32,
    /// The remarks on what it says.
    remarks: Vec<Remark>,
}

/// The remarks on what a block says.
fn said_by(alloc: Global, next: &NextBlock, reader: &Reader) -> Result<Vec<Remark>, AllocError>
    requires opener { FitsValues (values_in reader.now.parameters.now) (statement_view next.now.opener.now) }
    requires fits { FitsValues (values_in reader.now.parameters.now) (statement_view next.now.block.now.stmt) }
    ensures { IfOk result (λ list. list.items
        ≡ model.block_says (values_in reader.now.parameters.now) reader.now.line
        (statement_view next.now.opener.now) (statement_view next.now.block.now.stmt)) }
{
    let mut remarks = Vec::new(alloc);
    add_statement(&next.block.stmt, reader.line, &mut remarks)?;
    add_block(next.opener, &next.block.stmt, reader, &mut remarks)?;
    Ok(remarks)
}

/// What the block says at which control stands in a channel; nothing where none does.
fn coming_of(alloc: Global, job: &Job, local: &Local) -> Result<Coming, AllocError>
    requires { BlocksFit job.now }
    ensures { IfOk result (λ coming. IsComing job.now.programs local.now coming) }
{
    match next_block(job, local) {
        Some(next) => {
            let line = next.line;
            let reader = Reader {
                line,
                parameters: local.parameters(),
            };
            let remarks = said_by(alloc, &next, &reader)?;
            Ok(Coming { line, remarks })
        }
        None => Ok(Coming {
            line: 0,
            remarks: Vec::new(alloc),
        }),
    }
}

/// Adds the remarks on an executed block, which moves axes where this is true, under this word.
fn add_passed(
    coming: &Coming,
    moves: bool,
    word: u16,
    remarks: &mut Vec<Remark>,
) -> Result<(), AllocError>
    ensures { OnOk result (remarks.new.items ≡ remarks.old.items ++ (coming.now.remarks.items
        ++ model.remark_if moves coming.now.line (kind.MovesUnder word))) }
{
    remarks.extend_from_slice(coming.remarks.as_slice())?;
    add_if(moves, coming.line, RemarkKind::MovesUnder(word), remarks)
}

/// Whether a block was executed.
fn was_executed(passing: &Passing) -> bool
    ensures { result ≡ passing.now.executed }
{
    passing.executed
}

/// Executes the block at which control stands in a channel, and adds the remarks on it.
/// Answers whether the segment ends with it.
fn pass(
    alloc: Global,
    job: &Job,
    local: &mut Local,
    remarks: &mut Vec<Remark>,
) -> Result<bool, NoMemory>
    requires blocks { BlocksFit job.now }
    requires programs { length job.now.programs ≤ PROGRAM_LIMIT }
    requires fit { IfSome local.old.levels (LevelsFit job.now.skip job.now.programs) }
    requires few { local.old.count ≤ BLOCK_LIMIT }
    ensures told { IfOk result (λ ends. (s : SurroundingsView) (c : Channel)
        → IsSettingIn job.now s local.old → IsWalked s c local.old remarks.old.items
        → IsStep s c ends local.new remarks.new.items) }
    ensures fit { IfOk result (λ _. IfSome local.new.levels (LevelsFit job.now.skip job.now.programs)) }
    ensures few { IfOk result (λ _. local.new.count ≤ BLOCK_LIMIT) }
    ensures count { IfOk result (λ ends. ends ≡ false → local.new.count ≡ local.old.count + 1) }
    ensures channel { IfOk result (λ _. local.new.channel ≡ local.old.channel) }
{
    let coming = coming_of(alloc, job, local)?;
    let passing = pass_block(alloc, job, local)?;
    if was_executed(&passing) {
        add_passed(&coming, passing.moves, local.offset_word(), remarks)?;
        Ok(passing.ends)
    } else {
        Ok(passing.ends)
    }
}

/// Executes the blocks of a segment of a channel, and adds the remarks on them.
fn walk(
    alloc: Global,
    job: &Job,
    local: &mut Local,
    remarks: &mut Vec<Remark>,
) -> Result<(), NoMemory>
    requires blocks { BlocksFit job.now }
    requires programs { length job.now.programs ≤ PROGRAM_LIMIT }
    requires fit { IfSome local.old.levels (LevelsFit job.now.skip job.now.programs) }
    requires few { local.old.count ≤ BLOCK_LIMIT }
    ensures told { IfOk result (λ _. (s : SurroundingsView) (c : Channel)
        → IsSettingIn job.now s local.old → IsWalked s c local.old remarks.old.items
        → IsWalked s (segment_of s c).after local.new remarks.new.items) }
    ensures fit { IfOk result (λ _. IfSome local.new.levels (LevelsFit job.now.skip job.now.programs)) }
    ensures few { IfOk result (λ _. local.new.count ≤ BLOCK_LIMIT) }
    ensures channel { IfOk result (λ _. local.new.channel ≡ local.old.channel) }
{
    loop {
        let ends = pass(alloc, job, local, remarks)?;
        if ends {
            return Ok(());
        }
    }
}

/// A channel after its first segment, with the remarks on its blocks.
fn start(
    alloc: Global,
    job: &Job,
    channel: ChannelId,
    first: &Grant,
    remarks: &mut Vec<Remark>,
) -> Result<Local, NoMemory>
    requires blocks { BlocksFit job.now }
    requires programs { length job.now.programs ≤ PROGRAM_LIMIT }
    requires none { remarks.old.items ≡ [] }
    ensures walked { IfOk result (λ local. IsWalked (surroundings_of job.now channel first.now)
        (segment_after job.now channel (first.now ∷ [])).after local remarks.new.items) }
    ensures setting { IfOk result (λ local. IsSettingIn job.now (surroundings_of job.now channel first.now) local) }
    ensures ready { IfOk result (λ local. IsReady job.now channel local) }
{
    let mut local = Local::start(alloc, job, channel, first)?;
    walk(alloc, job, &mut local, remarks)?;
    Ok(local)
}

/// Executes the blocks of the segment of a channel that goes on with a grant, and adds the remarks on them.
fn go_on(
    alloc: Global,
    job: &Job,
    local: &mut Local,
    grant: &Grant,
    remarks: &mut Vec<Remark>,
) -> Result<(), NoMemory>
    requires blocks { BlocksFit job.now }
    requires programs { length job.now.programs ≤ PROGRAM_LIMIT }
    requires fit { IfSome local.old.levels (LevelsFit job.now.skip job.now.programs) }
    requires few { local.old.count ≤ BLOCK_LIMIT }
    ensures told { IfOk result (λ _. (s : SurroundingsView) (c : Channel)
        → IsSettingIn job.now s local.old → IsWalked s c local.old remarks.old.items
        → IsWalked s (segment_of s (channel_after_grant c grant.now)).after local.new remarks.new.items) }
    ensures fit { IfOk result (λ _. IfSome local.new.levels (LevelsFit job.now.skip job.now.programs)) }
    ensures few { IfOk result (λ _. local.new.count ≤ BLOCK_LIMIT) }
    ensures channel { IfOk result (λ _. local.new.channel ≡ local.old.channel) }
{
    local.resume(grant);
    walk(alloc, job, local, remarks)
}

/// The remarks on a channel that starts with the first of these grants and goes on with each other one.
fn walk_on(
    alloc: Global,
    job: &Job,
    channel: ChannelId,
    first: &Grant,
    rest: &[Grant],
) -> Result<Vec<Remark>, NoMemory>
    requires blocks { BlocksFit job.now }
    requires programs { length job.now.programs ≤ PROGRAM_LIMIT }
    ensures { IfOk result (λ list. list.items ≡ model.remarks_with job.now channel (first.now ∷ rest.now)) }
{
    let mut remarks = Vec::new(alloc);
    let mut local = start(alloc, job, channel, first, &mut remarks)?;
    for grant in rest {
        go_on(alloc, job, &mut local, grant, &mut remarks)?;
    }
    Ok(remarks)
}

/// The remarks on the executed blocks of a channel that makes its segments with these grants, in the order in which it executes
/// them.
#[tactic(auto, unfolding(crate::specs::Remarks::remarks_with))]
pub(crate) fn remarks_with(
    alloc: Global,
    job: &Job,
    channel: ChannelId,
    grants: &[Grant],
) -> Result<Vec<Remark>, NoMemory>
    requires blocks { BlocksFit job.now }
    requires programs { length job.now.programs ≤ PROGRAM_LIMIT }
    ensures { IfOk result (λ list. list.items ≡ model.remarks_with job.now channel grants.now) }
{
    match grants {
        [first, rest @ ..] => walk_on(alloc, job, channel, first, rest),
        [] => Ok(Vec::new(alloc)),
    }
}
