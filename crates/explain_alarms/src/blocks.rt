//! Where the block of a line stands.
ghost use Rattle.std.specs.Prelude.{◌≡◌, ◌<◌, ◌==◌, length, position, map, option_copied};
ghost use Rattle.channel_machine.specs.Levels.{IsFlowOf};
ghost use Rattle.job_types.specs.Job.{block_entry, names_of};
ghost use Rattle.nc_blocks.specs.Indices.{StatementFits};
ghost use Rattle.nc_blocks.specs.Statement.{statement_view};
ghost use Rattle.nc_control_flow.specs.Parts.{statement_at, views};
ghost use Rattle.nc_control_flow.specs.Structures.{opening};
ghost use Rattle.explain_alarms.specs.Blocks as model;

use job_types::Job;
use nc_blocks::{Block, Stmt};
use nc_control_flow::Flow;

/// The program of a number.
pub(crate) fn flow_at(job: &Job, number: usize) -> Option<&Flow>
    ensures { IsFlowOf job.now.programs number (option_copied result) }
{
    match job.programs.get_index(number) {
        Some((_, program)) => Some(&program.flow),
        None => None,
    }
}

/// What the block of a place says.
pub(crate) fn statement_of(flow: &Flow, pc: u32) -> &Stmt
    requires here { pc < length flow.now }
    requires fits { model.FlowFits flow.now }
    ensures says { statement_view result.now ≡ statement_at pc (views flow.now) }
    ensures fits { StatementFits (names_of (map block_entry flow.now)) (statement_view result.now) }
{
    match flow.block(pc) {
        Some((_, block)) => &block.stmt,
        None => unreachable!(),
    }
}

/// What the block says that begins the structure round a place.
pub(crate) fn opener_of(flow: &Flow, pc: u32) -> &Stmt
    requires here { pc < length flow.now }
    requires fits { model.FlowFits flow.now }
    ensures says { statement_view result.now ≡ statement_at (opening pc (views flow.now)) (views flow.now) }
    ensures fits { StatementFits (names_of (map block_entry flow.now)) (statement_view result.now) }
{
    statement_of(flow, flow.opening(pc))
}

/// The place of a line among the lines of a program.
fn place_of(lines: &[(u32, Block)], line: u32) -> Option<usize>
    ensures { result ≡ position (λ b. b.0 == line) lines.now }
{
    lines.iter().position(|entry| entry.0 == line)
}

/// A place, where it is one that a program can have.
fn short(place: usize) -> Option<u32>
    ensures { result ≡ model.short place }
{
    if place < 4_294_967_296 {
        Some(place as u32)
    } else {
        None
    }
}

/// The first place of a line in a program.
#[tactic(auto, unfolding(crate::specs::Blocks::place_in), using(crate::proofs::BlockLaws::place_in_views))]
fn place_in(flow: &Flow, line: u32) -> Option<u32>
    ensures { result ≡ model.place_in line (map block_entry flow.now) }
{
    match place_of(flow.blocks(), line) {
        Some(place) => short(place),
        None => None,
    }
}

/// The first place of a line in the program of a number.
#[tactic(auto, using(crate::proofs::BlockLaws::nowhere))]
fn place_at(job: &Job, number: usize, line: u32) -> Option<u32>
    ensures { result ≡ model.place_at line job.now.programs number }
{
    match flow_at(job, number) {
        Some(flow) => place_in(flow, line),
        None => None,
    }
}

/// The first program that has a line, and the place of the line there.
#[tactic(auto, using(crate::proofs::BlockLaws::past_all))]
pub(crate) fn place_on(job: &Job, line: u32) -> Option<(usize, u32)>
    ensures { model.IsPlaceOf line job.now.programs result }
{
    for number in 0..job.programs.len() {
        if let Some(pc) = place_at(job, number, line) {
            return Some((number, pc));
        }
    }
    None
}
