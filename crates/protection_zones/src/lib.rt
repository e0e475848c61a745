//! The time of each protection zone in a run: the walk over its events that makes the stretches of `zone_stretches`.
#![tactic(auto)]

mod exchanges;
mod logs;
mod notes;
mod rows;
mod sights;
mod spans;
mod sweeps;
mod tenures;
mod times;
mod zone_time;

pub(crate) use rows::AxisPositions;
pub use times::stretches_of;
pub use zone_stretches::{
    Stretch, Stretches, ZoneBox, ZoneEffect, boxes_are_few, boxes_by_pieces, boxes_have_covers,
    boxes_share_out_places, ends_are_lowest_names, motion_at, orders_compare_the_same,
    stretches_ascend, zone_at,
};
