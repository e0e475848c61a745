//! What a run takes for granted, as JSON.
use crate::blocks::{BlockData, block_at, channel_number};
use axis_sets::{AxisId, ChannelId};
use explain_places::Told;
use serde::Serialize;
use std::alloc::{AllocError, Global};

/// What a run takes for granted of a channel: of which kind it is, the name of a parameter or an axis, the block up to which it counts or
/// in which it does first, and how many blocks have words that move nothing; none of what does not belong to the kind.
#[derive(Drop, Serialize)]
pub struct GrantedData<'a> {
    block: Option<BlockData<'a>>,
    channel: u8,
    count: Option<usize>,
    kind: &'static str,
    name: Option<String>,
}

impl<'a> GrantedData<'a> {
    /// What is of this kind and counts in the block of this line, or is told in the OFFSET line of this line.
    pub fn of_block(
        alloc: Global,
        told: &Told<'a>,
        channel: ChannelId,
        kind: &'static str,
        line: u32,
    ) -> Result<GrantedData<'a>, AllocError> {
        Ok(GrantedData {
            block: Some(block_at(alloc, told, Some(channel), line)?),
            channel: channel_number(Some(channel)),
            count: None,
            kind,
            name: None,
        })
    }

    /// What is of this kind, with so many blocks.
    pub fn of_blocks(channel: ChannelId, kind: &'static str, count: usize) -> GrantedData<'a> {
        GrantedData {
            block: None,
            channel: channel_number(Some(channel)),
            count: Some(count),
            kind,
            name: None,
        }
    }

    /// The same, of the parameter of this number.
    pub fn of_parameter(self, alloc: Global, number: u16) -> Result<GrantedData<'a>, AllocError> {
        let name = format!(in alloc; "R{number}")?;
        Ok(GrantedData {
            block: self.block,
            channel: self.channel,
            count: self.count,
            kind: self.kind,
            name: Some(name),
        })
    }

    /// The same, of this axis of the job.
    pub fn of_axis(
        self,
        alloc: Global,
        told: &Told,
        axis: AxisId,
    ) -> Result<GrantedData<'a>, AllocError> {
        let job = told.job;
        let name = match job.axes.get(usize::from(axis.index)) {
            Some(line) => {
                let letter = char::from(line.letter);
                Some(format!(in alloc; "{letter}{}", line.number)?)
            }
            None => None,
        };
        Ok(GrantedData {
            block: self.block,
            channel: self.channel,
            count: self.count,
            kind: self.kind,
            name,
        })
    }
}
