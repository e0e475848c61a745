//! How channels have stopped, as JSON.
use crate::blocks::{block_data, channel_number};
use axis_sets::ChannelId;
use exit_statuses::Status;
use explain_advice::{alarm_advice, alarm_cause, alarm_name};
use explain_places::Told;
use explain_readings::Reading;
use serde_json::{Value, json};
use std::alloc::{AllocError, Global};
use sync_types::ChannelEnd;

/// How a channel has stopped that has this end.
pub fn stop_data(
    alloc: Global,
    told: &Told,
    channel: ChannelId,
    end: &ChannelEnd,
) -> Result<Value, AllocError> {
    match end {
        ChannelEnd::Idle => {
            json!(in alloc; {"channel": channel.number, "state": "IDLE", "block": null})
        }
        ChannelEnd::Ended(line) => {
            let block = block_data(alloc, told, Some(channel), *line)?;
            json!(in alloc; {"channel": channel.number, "state": "ENDED", "block": block})
        }
        ChannelEnd::Holding(line) => {
            let block = block_data(alloc, told, Some(channel), *line)?;
            json!(in alloc; {"channel": channel.number, "state": "HOLDING", "block": block})
        }
        ChannelEnd::Alarmed(alarm) => {
            let block = block_data(alloc, told, Some(channel), alarm.line)?;
            json!(in alloc; {
                "channel": channel.number,
                "state": "ALARM",
                "block": block,
                "code": alarm.code,
                "name": alarm_name(alarm.code),
                "cause": alarm_cause(alarm.code),
                "advice": alarm_advice(alarm.code)
            })
        }
    }
}

/// The parameters that an alarmed block reads, with their values in millionths.
pub fn readings_data(alloc: Global, readings: &[Reading]) -> Result<Vec<Value>, AllocError> {
    let mut values = Vec::new(alloc);
    for reading in readings {
        let value = json!(in alloc; {
            "parameter": reading.number,
            "millionths": reading.value.millionths
        })?;
        values.push(value)?;
    }
    Ok(values)
}

/// What an alarmed block finds: what it reads, and the blocks of the calls that are open.
pub fn state_data(
    alloc: Global,
    readings: Vec<Value>,
    calls: Vec<Value>,
) -> Result<Value, AllocError> {
    json!(in alloc; {"readings": readings, "calls": calls})
}

/// What channels wait for.
#[derive(Drop)]
pub struct WaitsData {
    /// What each waiting channel lacks.
    pub waits: Vec<Value>,
    /// The mark numbers that channels wait for, in each channel.
    pub marks: Vec<Value>,
}

/// The verdict ALARM of a channel: what its block finds, `null` where that is not known, how each channel has stopped, and what
/// channels wait for.
pub fn alarm_data(
    alloc: Global,
    channel: ChannelId,
    found: Value,
    stops: Vec<Value>,
    waits: WaitsData,
) -> Result<Value, AllocError> {
    let WaitsData { waits, marks } = waits;
    json!(in alloc; {
        "verdict": "ALARM",
        "status": Status::Alarm.number(),
        "channel": channel_number(Some(channel)),
        "found": found,
        "channels": stops,
        "waits": waits,
        "marks": marks
    })
}

/// The verdict STUCK of a channel, how each channel has stopped, and what channels wait for.
pub fn stuck_data(
    alloc: Global,
    channel: ChannelId,
    stops: Vec<Value>,
    waits: WaitsData,
) -> Result<Value, AllocError> {
    let WaitsData { waits, marks } = waits;
    json!(in alloc; {
        "verdict": "STUCK",
        "status": Status::Stuck.number(),
        "channel": channel_number(Some(channel)),
        "channels": stops,
        "waits": waits,
        "marks": marks
    })
}
