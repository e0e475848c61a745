//! Two boxes as JSON: what they have in common, or how near they come.
use crate::blocks::box_data;
use crate::places::place_data;
use explain_places::{Meeting, Place, Told};
use explain_reach::Way;
use serde_json::{Value, json};
use std::alloc::{AllocError, Global};
use swept_boxes::Box3;

/// How near two groups come to each other. Lengths are in micrometres.
#[derive(Clone, Copy)]
pub struct NearFacts<'a> {
    /// The numbers of the groups.
    pub groups: (u8, u8),
    /// By how much the boxes are apart that come the nearest.
    pub apart: i64,
    /// By how much the margin could be greater.
    pub margin_left: i64,
    /// The box of the first group.
    pub left: &'a Place,
    /// The box of the second group.
    pub right: &'a Place,
}

/// The name of a direction of space.
fn direction_name(direction: usize) -> &'static str {
    match direction {
        0 => "X",
        1 => "Y",
        _ => "Z",
    }
}

/// What two boxes that meet have in common, and by what they would be apart: by a micrometre more than this way, with this MARGIN or
/// less, in micrometres, or with this DEPTH; `null` where no MARGIN or DEPTH parts them.
pub fn clash_data(
    alloc: Global,
    common: &Box3,
    way: &Way,
    margin: Option<i64>,
    depth: Option<u8>,
) -> Result<Value, AllocError> {
    let common = box_data(alloc, common)?;
    json!(in alloc; {
        "common": common,
        "apart_by": {"direction": direction_name(way.direction), "by": way.shift.saturating_add(1)},
        "apart_with_margin": margin,
        "apart_with_depth": depth
    })
}

/// The first two boxes that meet, with what `clash_data` gives of them.
pub fn first_data(
    alloc: Global,
    told: &Told,
    met: &Meeting,
    clash: Value,
) -> Result<Value, AllocError> {
    let left = place_data(alloc, told, &met.left)?;
    let right = place_data(alloc, told, &met.right)?;
    json!(in alloc; {"left": left, "right": right, "clash": clash})
}

/// How near two groups come to each other.
pub fn near_data(alloc: Global, told: &Told, near: &NearFacts) -> Result<Value, AllocError> {
    let left = place_data(alloc, told, near.left)?;
    let right = place_data(alloc, told, near.right)?;
    json!(in alloc; {
        "groups": [near.groups.0, near.groups.1],
        "apart": near.apart,
        "margin_left": near.margin_left,
        "left": left,
        "right": right
    })
}
