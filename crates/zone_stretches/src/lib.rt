//! The time of each protection zone as it is defined: the stretches into which it falls and the boxes of each, which stretches may
//! overlap, and the boxes by which two zones are compared.
#![tactic(auto)]

mod ascents;
mod laws;
mod overlaps;
mod pieces;
mod sights;
mod stretch_pairs;
mod stretches;
mod threads;
mod timed_zones;
mod zone_boxes;
mod zones;

pub use ascents::{
    IndexRange, RangeCursor, ascends_at, ascents_of, is_chain, near_part, part, range_of,
    start_walk,
};
pub use laws::{
    boxes_are_few, boxes_have_covers, boxes_share_out_places, ends_are_lowest_names,
    orders_compare_the_same, stretches_ascend,
};
pub use overlaps::{are_compared, is_of, may_overlap, share_channel, share_place};
pub use pieces::{boxes_by_pieces, boxes_in_pieces, motion_at, one_box};
pub use sights::ZoneEffect;
pub use stretch_pairs::{StretchPair, StretchPairs};
pub use stretches::{Stretch, Stretches, ZoneBox, lists_of};
pub use timed_zones::{TimedPairs, TimedZone, TimedZones, ZoneStretch};
pub use zone_boxes::{standing_zone_box, zone_box};
pub use zones::zone_at;
