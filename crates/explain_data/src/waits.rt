//! What channels wait for, as JSON.
use crate::blocks::block_data;
use axis_sets::{AxisId, ChannelId};
use explain_places::{Told, say_axis};
use growing_text::Text;
use out_of_memory::NoMemory;
use serde_json::{Value, json};
use std::alloc::{AllocError, Global};

/// What is told of something that a waiting channel lacks, but for what that is.
#[derive(Clone, Copy)]
pub struct WaitFacts {
    /// The channel that waits.
    pub channel: ChannelId,
    /// The line of the block in which it waits.
    pub line: u32,
    /// The word for what would end the wait.
    pub remedy: &'static str,
    /// What to do.
    pub advice: &'static str,
}

/// What is told of a mark number in a channel.
#[derive(Clone, Copy)]
pub struct MarkFacts {
    /// The number of the mark.
    pub mark: u8,
    /// The channel.
    pub channel: ChannelId,
    /// How often the channel has raised its mark and gone on.
    pub passed: usize,
    /// Whether the mark stands once more.
    pub stands: bool,
    /// The line of the first block that can raise it; none where none can.
    pub block: Option<u32>,
}

/// The name of an axis.
fn axis_name(alloc: Global, told: &Told, axis: AxisId) -> Result<Value, NoMemory> {
    let mut text = Text::new(alloc);
    say_axis(&mut text, told.job, axis);
    let bytes = text.finish()?;
    let name = String::from_utf8_lossy(alloc, bytes.as_slice())?;
    Ok(json!(in alloc; name)?)
}

/// What is lacking where it is the mark of this number of this channel.
pub fn mark_lack(alloc: Global, mark: u8, channel: ChannelId) -> Result<Value, AllocError> {
    json!(in alloc; {"kind": "MARK", "mark": mark, "of": channel.number})
}

/// What is lacking where it is the end of the program of this other channel.
pub fn end_lack(alloc: Global, channel: ChannelId) -> Result<Value, AllocError> {
    json!(in alloc; {"kind": "END", "of": channel.number})
}

/// What is lacking where it is the end of the channel's own program.
pub fn own_end_lack(alloc: Global) -> Result<Value, AllocError> {
    json!(in alloc; {"kind": "OWN_END"})
}

/// What is lacking where it is this axis of the job that is told, which the channel `owner` owns.
pub fn axis_lack(
    alloc: Global,
    told: &Told,
    axis: AxisId,
    owner: ChannelId,
) -> Result<Value, NoMemory> {
    let name = axis_name(alloc, told, axis)?;
    Ok(json!(in alloc; {"kind": "AXIS", "axis": name, "of": owner.number})?)
}

/// Something that a waiting channel lacks, with what one of the calls for what is lacking gives, `lack`.
pub fn wait_data(
    alloc: Global,
    told: &Told,
    wait: &WaitFacts,
    lack: Value,
) -> Result<Value, AllocError> {
    let block = block_data(alloc, told, Some(wait.channel), wait.line)?;
    json!(in alloc; {
        "channel": wait.channel.number,
        "block": block,
        "lacks": lack,
        "remedy": wait.remedy,
        "advice": wait.advice
    })
}

/// The block of a channel in a line; nothing where there is none.
fn some_block(
    alloc: Global,
    told: &Told,
    channel: ChannelId,
    line: Option<u32>,
) -> Result<Value, AllocError> {
    match line {
        Some(line) => block_data(alloc, told, Some(channel), line),
        None => Ok(Value::Null),
    }
}

/// What is told of a mark number in a channel, by the facts in `mark`.
pub fn mark_data(alloc: Global, told: &Told, mark: &MarkFacts) -> Result<Value, AllocError> {
    let block = some_block(alloc, told, mark.channel, mark.block)?;
    json!(in alloc; {
        "mark": mark.mark,
        "channel": mark.channel.number,
        "passed": mark.passed,
        "stands": mark.stands,
        "block": block
    })
}
