//! Boxes of zones as JSON.
use crate::blocks::{BlockData, block_at, block_data, box_data};
use explain_places::{Execution, Place, Told, execution_at};
use serde::Serialize;
use serde_json::{Value, json};
use std::alloc::{AllocError, Global};
use sync_types::StretchKind;

/// A box of a zone in short: its block, what its channel does, and its zone.
#[derive(Drop, Serialize)]
pub(crate) struct SideData<'a> {
    block: BlockData<'a>,
    kind: &'static str,
    zone: u8,
}

/// The kind of a stretch, as the report has it.
pub(crate) fn kind_name(kind: StretchKind) -> &'static str {
    match kind {
        StretchKind::Idle => "IDLE",
        StretchKind::Run => "RUN",
        StretchKind::Hold => "HOLD",
        StretchKind::End => "END",
        StretchKind::Free => "FREE",
    }
}

/// An execution.
fn execution_data(alloc: Global, execution: Option<Execution>) -> Result<Value, AllocError> {
    match execution {
        Some(execution) => json!(in alloc; {"which": execution.which, "of": execution.of}),
        None => Ok(Value::Null),
    }
}

/// A box of a zone in short.
pub(crate) fn side_data<'a>(
    alloc: Global,
    told: &Told<'a>,
    place: &Place,
) -> Result<SideData<'a>, AllocError> {
    Ok(SideData {
        block: block_at(alloc, told, place.name.channel, place.name.line)?,
        kind: kind_name(place.name.kind),
        zone: place.name.zone.number,
    })
}

/// A box of a zone, with its block and which execution of the block it is.
pub fn place_data(alloc: Global, told: &Told, place: &Place) -> Result<Value, AllocError> {
    let block = block_data(alloc, told, place.name.channel, place.name.line)?;
    let execution = execution_data(alloc, execution_at(told.run, place))?;
    let space = box_data(alloc, &place.cover)?;
    json!(in alloc; {
        "zone": place.name.zone.number,
        "kind": kind_name(place.name.kind),
        "block": block,
        "execution": execution,
        "box": space
    })
}
