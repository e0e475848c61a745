//! The same facts as the text has, as JSON.
ghost use Rattle.std.specs.Prelude.{◌^◌, ◌<◌, All, length};
ghost use Rattle.job_types.specs.SoundJob.{BlocksFit, IsSoundJob};
ghost use Rattle.zone_stretches.specs.Told.{IsTold};
ghost use Rattle.zone_stretches.specs.ZoneBoxes.{IsFit};
ghost use Rattle.sync_types.specs.Runs.{ComesFrom};

use crate::data_waits::waits_data;
use crate::judged::Judged;
use axis_sets::{CHANNEL_PLACES, ChannelId};
use clash_check::{PairNumber, pair_numbers};
use explain_alarms::{AlarmState, Call, alarm_state};
use explain_assumptions::{Assumed, Assumption, assumptions_of};
use explain_clashes::clash_of;
use explain_data::{
    GrantedData, MetData, NearFacts, NoData, YesData, alarm_data, block_data, clash_data,
    first_data, line_of, near_data, number_data, race_data, readings_data, state_data, stop_data,
    stuck_data, undecided_data, verdict_line,
};
use explain_meetings::{Group, Near, groups_of, nearest_of, zone_pairs_of};
use explain_pairs::pairs_data;
use explain_places::{Meeting, Told};
use explain_stops::{end_of, race_prize, race_remedy};
use explain_texts::{apart_of, margin_left};
use out_of_memory::NoMemory;
use serde_json::Value;
use std::alloc::{AllocError, Global};
use sync_types::{Race, Verdict};

/// What is taken for granted of a channel.
fn assumption_data<'a>(
    alloc: Global,
    told: &Told<'a>,
    row: &Assumed,
) -> Result<GrantedData<'a>, AllocError> {
    let channel = row.channel;
    match row.what {
        Assumption::Radius(line) => {
            GrantedData::of_block(alloc, told, channel, "X AS RADIUS", line)
        }
        Assumption::NoOffset(line) => {
            GrantedData::of_block(alloc, told, channel, "NO OFFSET", line)
        }
        Assumption::UnusedOffset(line) => {
            GrantedData::of_block(alloc, told, channel, "UNUSED OFFSET", line)
        }
        Assumption::Zero(number, line) => {
            let zero = GrantedData::of_block(alloc, told, channel, "PARAMETER 0", line)?;
            zero.of_parameter(alloc, number)
        }
        Assumption::Standing(axis, line) => {
            let standing = GrantedData::of_block(alloc, told, channel, "AXIS POSITION", line)?;
            standing.of_axis(alloc, told, axis)
        }
        Assumption::Tools(count) => Ok(GrantedData::of_blocks(channel, "T WORDS", count)),
        Assumption::ToolOffsets(count) => Ok(GrantedData::of_blocks(channel, "D WORDS", count)),
    }
}

/// What the run of a judged job takes for granted.
fn granted_data<'a>(alloc: Global, judged: &Judged<'a>) -> Result<Vec<GrantedData<'a>>, NoMemory>
    requires sound { IsSoundJob judged.now.job.now }
    requires blocks { BlocksFit judged.now.job.now }
{
    let rows = assumptions_of(alloc, judged.job, judged.run)?;
    let told = judged.told();
    let mut values = Vec::new(alloc);
    for row in &rows {
        values.push(assumption_data(alloc, &told, row)?)?;
    }
    Ok(values)
}

/// The first two boxes that meet, with what would part them.
fn first_met(alloc: Global, judged: &Judged, met: &Meeting) -> Result<Value, AllocError>
    requires sound { IsSoundJob judged.now.job.now }
    requires fit { All (All IsFit) judged.now.run.now.items }
{
    let clash = clash_of(judged.job, judged.run, met);
    let apart = clash_data(alloc, &clash.common, &clash.way, clash.margin, clash.depth)?;
    first_data(alloc, &judged.told(), met, apart)
}

/// The pairs of lines of these groups.
fn met_data<'a>(
    alloc: Global,
    judged: &Judged<'a>,
    groups: &[Group],
) -> Result<MetData<'a>, AllocError> {
    let told = judged.told();
    let mut data = MetData::new(alloc);
    for group in groups {
        if let Some(pair) = judged.met.get(group.first) {
            data.add(alloc, &told, pair, group.count)?;
        }
    }
    Ok(data)
}

/// The verdict NO.
fn no_line(alloc: Global, judged: &Judged) -> Result<Vec<u8>, NoMemory>
    requires sound { IsSoundJob judged.now.job.now }
    requires blocks { BlocksFit judged.now.job.now }
    requires fit { All (All IsFit) judged.now.run.now.items }
{
    let groups = groups_of(alloc, judged.met)?;
    let met = met_data(alloc, judged, groups.as_slice())?;
    let first = match judged.met.first() {
        Some(first) => first_met(alloc, judged, first)?,
        None => Value::Null,
    };
    line_of(
        alloc,
        &NoData::new(first, met, granted_data(alloc, judged)?),
    )
}

/// What is told of two groups.
fn near_facts(near: &Near) -> NearFacts {
    let apart = apart_of(near.reach);
    NearFacts {
        groups: near.groups,
        apart,
        margin_left: margin_left(apart),
        left: &near.left,
        right: &near.right,
    }
}

/// How near each two groups come to each other.
fn nears_data(alloc: Global, told: &Told, rows: &[Near]) -> Result<Vec<Value>, AllocError> {
    let mut values = Vec::new(alloc);
    for near in rows {
        values.push(near_data(alloc, told, &near_facts(near))?)?;
    }
    Ok(values)
}

/// The verdict YES.
fn yes_line(alloc: Global, judged: &Judged) -> Result<Vec<u8>, NoMemory>
    requires sound { IsSoundJob judged.now.job.now }
    requires blocks { BlocksFit judged.now.job.now }
    requires whole { IsTold judged.now.job.now judged.now.run.now judged.now.stretches.now judged.now.clocks.now }
    requires fit { All (All IsFit) judged.now.run.now.items }
{
    let rows = nearest_of(
        alloc,
        judged.job,
        judged.run,
        judged.stretches,
        judged.clocks,
    )?;
    let values = nears_data(alloc, &judged.told(), rows.as_slice())?;
    let zones = zone_pairs_of(
        alloc,
        judged.job,
        judged.run,
        judged.stretches,
        judged.clocks,
    )?;
    let pairs = pairs_data(alloc, zones.as_slice())?;
    line_of(
        alloc,
        &YesData::new(values, pairs, granted_data(alloc, judged)?),
    )
}

/// How many pairs of each two zones are to be compared.
fn numbers_data(alloc: Global, rows: &[PairNumber]) -> Result<Vec<Value>, AllocError> {
    let mut values = Vec::new(alloc);
    for row in rows {
        values.push(number_data(alloc, row.zones, row.count)?)?;
    }
    Ok(values)
}

/// The verdict UNDECIDED.
fn undecided_value(
    alloc: Global,
    judged: &Judged,
    count: u64,
    budget: u32,
) -> Result<Value, NoMemory>
    requires sound { IsSoundJob judged.now.job.now }
    requires whole { IsTold judged.now.job.now judged.now.run.now judged.now.stretches.now judged.now.clocks.now }
    requires fit { All (All IsFit) judged.now.run.now.items }
{
    let rows = pair_numbers(alloc, judged.job, judged.stretches, judged.clocks)?;
    let values = numbers_data(alloc, rows.as_slice())?;
    Ok(undecided_data(alloc, count, budget, values)?)
}

/// The verdict RACE.
fn race_value(alloc: Global, judged: &Judged, race: &Race) -> Result<Value, AllocError> {
    let prize = race_prize(race.case);
    let remedy = race_remedy(race.case);
    race_data(alloc, &judged.told(), race, prize, remedy)
}

/// How each channel has stopped.
fn stops_data(alloc: Global, told: &Told) -> Result<Vec<Value>, AllocError> {
    let mut values = Vec::new(alloc);
    for number in 1..CHANNEL_PLACES as u8 {
        let channel = ChannelId { number };
        if let Some(end) = end_of(told, channel) {
            values.push(stop_data(alloc, told, channel, &end)?)?;
        }
    }
    Ok(values)
}

/// The blocks of calls.
fn calls_data(
    alloc: Global,
    told: &Told,
    channel: ChannelId,
    calls: &[Call],
) -> Result<Vec<Value>, AllocError> {
    let mut values = Vec::new(alloc);
    for call in calls {
        values.push(block_data(alloc, told, Some(channel), call.line)?)?;
    }
    Ok(values)
}

/// What an alarmed block finds; nothing where that is not known.
fn found_data(
    alloc: Global,
    told: &Told,
    channel: ChannelId,
    state: &Option<AlarmState>,
) -> Result<Value, AllocError> {
    let Some(state) = state else {
        return Ok(Value::Null);
    };
    let readings = readings_data(alloc, state.readings.as_slice())?;
    let calls = calls_data(alloc, told, channel, state.calls.as_slice())?;
    state_data(alloc, readings, calls)
}

/// The verdict ALARM.
fn alarm_value(alloc: Global, judged: &Judged, channel: ChannelId) -> Result<Value, NoMemory>
    requires sound { IsSoundJob judged.now.job.now }
    requires blocks { BlocksFit judged.now.job.now }
    requires few { length judged.now.run.now.entries < 2 ^ 32 }
    requires comes { ComesFrom judged.now.start.now judged.now.run.now }
{
    let told = judged.told();
    let state = alarm_state(alloc, judged.job, judged.run, channel)?;
    let found = found_data(alloc, &told, channel, &state)?;
    let stops = stops_data(alloc, &told)?;
    let waits = waits_data(alloc, &told, judged.start)?;
    Ok(alarm_data(alloc, channel, found, stops, waits)?)
}

/// The verdict STUCK.
fn stuck_value(alloc: Global, judged: &Judged, channel: ChannelId) -> Result<Value, NoMemory>
    requires few { length judged.now.run.now.entries < 2 ^ 32 }
    requires comes { ComesFrom judged.now.start.now judged.now.run.now }
{
    let told = judged.told();
    let stops = stops_data(alloc, &told)?;
    let waits = waits_data(alloc, &told, judged.start)?;
    Ok(stuck_data(alloc, channel, stops, waits)?)
}

/// The facts of a judged job with this verdict, as a line of JSON.
pub(crate) fn data_of(alloc: Global, judged: &Judged) -> Result<Vec<u8>, NoMemory>
    requires sound { IsSoundJob judged.now.job.now }
    requires blocks { BlocksFit judged.now.job.now }
    requires whole { IsTold judged.now.job.now judged.now.run.now judged.now.stretches.now judged.now.clocks.now }
    requires fit { All (All IsFit) judged.now.run.now.items }
    requires few { length judged.now.run.now.entries < 2 ^ 32 }
    requires comes { ComesFrom judged.now.start.now judged.now.run.now }
{
    let verdict = match judged.verdict {
        Verdict::Race(race) => race_value(alloc, judged, race)?,
        Verdict::Alarm(channel, _) => alarm_value(alloc, judged, *channel)?,
        Verdict::Stuck(channel, _) => stuck_value(alloc, judged, *channel)?,
        Verdict::Undecided { count, budget } => undecided_value(alloc, judged, *count, *budget)?,
        Verdict::No(_, _) => return no_line(alloc, judged),
        Verdict::Yes => return yes_line(alloc, judged),
    };
    let granted = granted_data(alloc, judged)?;
    verdict_line(alloc, verdict, granted)
}
