//! What an alarm finds in a channel that it stops.
ghost use Rattle.std.specs.Prelude.{◌≡◌, ◌<◌, length, IfOk};
ghost use Rattle.block_effects.specs.Words.{values_in};
ghost use Rattle.explain_readings.specs.Readings.{readings_of};
ghost use Rattle.channel_machine.specs.Levels.{lines_of};
ghost use Rattle.channel_machine.specs.StartStates.{start_of};
ghost use Rattle.job_types.specs.SoundJob.{BlocksFit, IsSoundJob};
ghost use Rattle.nc_control_flow.specs.Parts.{statement_at, views};
ghost use Rattle.nc_control_flow.specs.Structures.{opening};
ghost use Rattle.sync_types.specs.Boards.{first_board};
ghost use Rattle.sync_types.specs.Turns.{AreEntries};
ghost use Rattle.explain_alarms.specs.Alarms.{alarm_line};
ghost use Rattle.explain_alarms.specs.Blocks.{FlowFits};
ghost use Rattle.explain_alarms.specs.Calls.{calls_at};
ghost use Rattle.explain_alarms.specs.States as model;

use crate::alarms::alarm_line;
use crate::blocks::{flow_at, opener_of, place_on, statement_of};
use crate::calls::{Call, calls_of};
use crate::kept::kept_after;
use axis_sets::ChannelId;
use channel_machine::{Levels, Local};
use explain_readings::{Reading, readings_in};
use job_types::Job;
use nc_control_flow::Flow;
use out_of_memory::NoMemory;
use std::alloc::Global;
use sync_types::Run;

/// What an alarm finds in a channel that it stops.
#[derive(Drop)]
pub struct AlarmState {
    /// The parameters that the alarmed block reads, with the values that they have when it comes, in the order of their numbers.
    pub readings: Vec<Reading>,
    /// The calls that are open when it comes, that of the main program first; none where it is a block of the main program.
    pub calls: Vec<Call>,
}

/// What the block of a place of a program reads in a channel.
fn flow_readings(
    alloc: Global,
    flow: &Flow,
    pc: u32,
    local: &Local,
) -> Result<Vec<Reading>, NoMemory>
    requires here { pc < length flow.now }
    requires fits { FlowFits flow.now }
    ensures { IfOk result (λ list. list.items ≡ readings_of (values_in local.now.parameters)
        (statement_at (opening pc (views flow.now)) (views flow.now)) (statement_at pc (views flow.now))) }
{
    let opener = opener_of(flow, pc);
    let statement = statement_of(flow, pc);
    readings_in(alloc, opener, statement, local.parameters())
}

/// What the block of a place reads in a channel.
fn readings_at(
    alloc: Global,
    job: &Job,
    number: usize,
    pc: u32,
    local: &Local,
) -> Result<Vec<Reading>, NoMemory>
    requires blocks { BlocksFit job.now }
    requires there { pc < length (lines_of job.now.programs number) }
    ensures { IfOk result (λ list. model.HasReadings job.now (number, pc) local.now list.items) }
{
    match flow_at(job, number) {
        Some(flow) => flow_readings(alloc, flow, pc, local),
        None => unreachable!(),
    }
}

/// What an alarm in the block of a place finds in a channel, on these levels of calls.
fn state_at(
    alloc: Global,
    job: &Job,
    number: usize,
    pc: u32,
    local: &Local,
    levels: &Option<Levels>,
) -> Result<AlarmState, NoMemory>
    requires blocks { BlocksFit job.now }
    requires there { pc < length (lines_of job.now.programs number) }
    ensures readings { IfOk result (λ state. model.HasReadings job.now (number, pc) local.now state.readings.items) }
    ensures calls { IfOk result (λ state. state.calls.items ≡ calls_at job.now.programs levels.now) }
{
    let readings = readings_at(alloc, job, number, pc, local)?;
    let calls = calls_of(alloc, job, levels)?;
    Ok(AlarmState { readings, calls })
}

/// What an alarm in a block of this line finds in a channel.
fn state_on(
    alloc: Global,
    job: &Job,
    run: &Run,
    channel: ChannelId,
    line: u32,
) -> Result<Option<AlarmState>, NoMemory>
    requires sound { IsSoundJob job.now }
    requires blocks { BlocksFit job.now }
    ensures { IfOk result (λ state. AreEntries (first_board (start_of job.now)) run.now.entries
        → model.IsStateOn job.now run.now channel line state) }
{
    let Some((number, pc)) = place_on(job, line) else {
        return Ok(None);
    };
    let kept = kept_after(alloc, job, run, channel)?;
    match &kept.local {
        Some(local) => {
            let state = state_at(alloc, job, number, pc, local, &kept.levels)?;
            Ok(Some(state))
        }
        None => Ok(None),
    }
}

/// What an alarm finds in a channel that it stops: nothing where no alarm stops the channel, or where it is alarm 9, which is
/// that of no block. The segments of the channel are made once more. The only error is want of memory.
///
/// It is told of the entries of a run of the job.
pub fn alarm_state(
    alloc: Global,
    job: &Job,
    run: &Run,
    channel: ChannelId,
) -> Result<Option<AlarmState>, NoMemory>
    requires sound { IsSoundJob job.now }
    requires blocks { BlocksFit job.now }
    ensures { IfOk result (λ state. AreEntries (first_board (start_of job.now)) run.now.entries
        → model.IsToldOf job.now run.now channel (alarm_line channel run.now.entries) state) }
{
    match alarm_line(run, channel) {
        Some(line) => state_on(alloc, job, run, channel, line),
        None => Ok(None),
    }
}
