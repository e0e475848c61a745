//! What channels wait for, as JSON.
ghost use Rattle.std.specs.Prelude.{◌^◌, ◌<◌, length};
ghost use Rattle.sync_types.specs.Runs.{ComesFrom};

use explain_data::{
    MarkFacts, WaitFacts, WaitsData, axis_lack, end_lack, mark_data, mark_lack, own_end_lack,
    wait_data,
};
use explain_places::Told;
use explain_stops::{Lack, MarkRow, Remedy, WaitRow, mark_rows, wait_rows};
use out_of_memory::NoMemory;
use serde_json::Value;
use std::alloc::{AllocError, Global};
use sync_types::StartState;

/// What is lacking: its kind, the number of a mark, the channel that could give it, and the name of an axis.
fn lack_data(alloc: Global, told: &Told, lack: Lack) -> Result<Value, NoMemory> {
    match lack {
        Lack::Mark(mark, channel) => Ok(mark_lack(alloc, mark, channel)?),
        Lack::End(channel) => Ok(end_lack(alloc, channel)?),
        Lack::OwnEnd => Ok(own_end_lack(alloc)?),
        Lack::Axis(axis, owner) => axis_lack(alloc, told, axis, owner),
    }
}

/// The word for what would end a wait.
fn remedy_word(remedy: Remedy) -> &'static str {
    match remedy {
        Remedy::Write => "WRITE",
        Remedy::Reach => "REACH",
        Remedy::Match => "MATCH",
        Remedy::Start => "START",
        Remedy::Settle => "SETTLE",
        Remedy::Mend => "MEND",
        Remedy::Omit => "OMIT",
        Remedy::Release => "RELEASE",
    }
}

/// Something that a waiting channel lacks.
fn row_data(alloc: Global, told: &Told, row: &WaitRow) -> Result<Value, NoMemory> {
    let wait = WaitFacts {
        channel: row.channel,
        line: row.line,
        remedy: remedy_word(row.remedy),
        advice: row.remedy.advice(),
    };
    let lack = lack_data(alloc, told, row.lack)?;
    Ok(wait_data(alloc, told, &wait, lack)?)
}

/// What is told of a mark number in a channel.
fn mark_facts(row: &MarkRow) -> MarkFacts {
    MarkFacts {
        mark: row.mark,
        channel: row.channel,
        passed: row.passed,
        stands: row.stands,
        block: row.block,
    }
}

/// All that waiting channels lack.
fn all_waits(alloc: Global, told: &Told, rows: &[WaitRow]) -> Result<Vec<Value>, NoMemory> {
    let mut values = Vec::new(alloc);
    for row in rows {
        values.push(row_data(alloc, told, row)?)?;
    }
    Ok(values)
}

/// The mark numbers that channels wait for, in each channel.
fn all_marks(alloc: Global, told: &Told, rows: &[MarkRow]) -> Result<Vec<Value>, AllocError> {
    let mut values = Vec::new(alloc);
    for row in rows {
        values.push(mark_data(alloc, told, &mark_facts(row))?)?;
    }
    Ok(values)
}

/// What channels wait for when the run is over. The start and the run are those of the job.
pub(crate) fn waits_data(
    alloc: Global,
    told: &Told,
    start: &StartState,
) -> Result<WaitsData, NoMemory>
    requires few { length told.now.run.now.entries < 2 ^ 32 }
    requires comes { ComesFrom start.now told.now.run.now }
{
    let lacking = wait_rows(alloc, told, start)?;
    let marks = mark_rows(alloc, told, start)?;
    Ok(WaitsData {
        waits: all_waits(alloc, told, lacking.as_slice())?,
        marks: all_marks(alloc, told, marks.as_slice())?,
    })
}
