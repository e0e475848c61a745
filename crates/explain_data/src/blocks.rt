//! Blocks and boxes as JSON.
use axis_sets::ChannelId;
use explain_lines::{Origin, block_number, origin_of};
use explain_places::{Told, line_text, program_name};
use serde::Serialize;
use serde_json::{Value, json, to_value};
use std::alloc::{AllocError, Global};
use std::borrow::CowStr;
use std::str;
use swept_boxes::Box3;

/// A line of a file.
#[derive(Drop, Serialize)]
pub(crate) struct OriginData<'a> {
    file: CowStr<'a>,
    line: u32,
}

/// A block: its channel, its line, its number, the file that it comes from, its program, and how it reads.
#[derive(Drop, Serialize)]
pub(crate) struct BlockData<'a> {
    channel: u8,
    line: u32,
    number: CowStr<'a>,
    origin: Option<OriginData<'a>>,
    program: CowStr<'a>,
    text: CowStr<'a>,
}

/// The number of a channel; 0 for none.
pub(crate) fn channel_number(channel: Option<ChannelId>) -> u8 {
    match channel {
        Some(channel) => channel.number,
        None => 0,
    }
}

/// Bytes of the input as a text. What is no text in UTF-8 becomes U+FFFD.
pub(crate) fn text_of<'a>(alloc: Global, bytes: &'a [u8]) -> Result<CowStr<'a>, AllocError> {
    match str::from_utf8(bytes) {
        Ok(text) => Ok(CowStr::Borrowed(text)),
        Err(_) => Ok(CowStr::Owned(String::from_utf8_lossy(alloc, bytes)?)),
    }
}

/// A box: its least and its greatest X, Y and Z.
pub fn box_data(alloc: Global, space: &Box3) -> Result<Value, AllocError> {
    json!(in alloc; {
        "low": [space.lo[0], space.lo[1], space.lo[2]],
        "high": [space.hi[0], space.hi[1], space.hi[2]]
    })
}

/// A line of a file.
pub(crate) fn origin_data<'a>(
    alloc: Global,
    origin: Option<Origin<'a>>,
) -> Result<Option<OriginData<'a>>, AllocError> {
    match origin {
        Some(origin) => Ok(Some(OriginData {
            file: text_of(alloc, origin.file)?,
            line: origin.line,
        })),
        None => Ok(None),
    }
}

/// The block of a channel in a line.
pub(crate) fn block_at<'a>(
    alloc: Global,
    told: &Told<'a>,
    channel: Option<ChannelId>,
    line: u32,
) -> Result<BlockData<'a>, AllocError> {
    let bytes = line_text(told, line);
    Ok(BlockData {
        channel: channel_number(channel),
        line,
        number: text_of(alloc, block_number(bytes))?,
        origin: origin_data(alloc, origin_of(told.lines, line))?,
        program: text_of(alloc, program_name(told.job, line))?,
        text: text_of(alloc, bytes)?,
    })
}

/// The block of a channel in a line of the input, counted from 1. Where there is no channel its number is 0.
pub fn block_data(
    alloc: Global,
    told: &Told,
    channel: Option<ChannelId>,
    line: u32,
) -> Result<Value, AllocError> {
    match to_value(alloc, &block_at(alloc, told, channel, line)?) {
        Ok(value) => Ok(value),
        Err(_) => Err(AllocError),
    }
}
