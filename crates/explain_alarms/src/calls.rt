//! Which calls are open where a block stands.
ghost use Rattle.std.specs.Prelude.{◌≡◌, IfOk, map, slice_get};
ghost use Rattle.job_types.specs.Job.{block_entry};
ghost use Rattle.explain_alarms.specs.Calls as model;

use crate::blocks::flow_at;
use channel_machine::Levels;
use job_types::Job;
use nc_control_flow::Flow;
use nc_subprograms::Place;
use out_of_memory::NoMemory;
use std::alloc::Global;

/// A call that is open: the block of a program that called the next program.
#[derive(Clone, Copy)]
pub struct Call {
    /// The place of the program among those of the job.
    pub program: u16,
    /// The line of the block.
    pub line: u32,
}

/// The line of the block of a place in a program; 0 where no block stands.
fn line_in(flow: &Flow, pc: u32) -> u32
    ensures { result ≡ model.line_of (slice_get (map block_entry flow.now) pc) }
{
    match flow.block(pc) {
        Some((line, _)) => *line,
        None => 0,
    }
}

/// The call to which a level returns.
fn call_at(job: &Job, place: &Place) -> Call
    ensures { result ≡ model.call_at job.now.programs place.now }
{
    let program = place.program;
    let line = match flow_at(job, usize::from(program)) {
        Some(flow) => line_in(flow, place.pc),
        None => 0,
    };
    Call { program, line }
}

/// The calls to which levels return.
fn calls_from(alloc: Global, job: &Job, places: &[Place]) -> Result<Vec<Call>, NoMemory>
    ensures { IfOk result (λ calls. calls.items ≡ map (model.call_at job.now.programs) places.now) }
{
    let mut calls = Vec::new(alloc);
    for place in places {
        calls.push(call_at(job, place))?;
    }
    Ok(calls)
}

/// The calls of all levels below the one that runs, that of the main program first; none where control is nowhere.
pub(crate) fn calls_of(
    alloc: Global,
    job: &Job,
    levels: &Option<Levels>,
) -> Result<Vec<Call>, NoMemory>
    ensures { IfOk result (λ calls. calls.items ≡ model.calls_at job.now.programs levels.now) }
{
    match levels {
        Some(levels) => calls_from(alloc, job, levels.returns.places()),
        None => Ok(Vec::new(alloc)),
    }
}
