//! Axes, channels and zones by their numbers, sets of them, and positions of axes.
#![tactic(auto)]

mod ids;
mod laws;
mod limits;
mod marks;
mod members;
mod places;
mod positions;
mod sets;
mod threads;

pub use ids::{AxisId, ChannelId, ZoneId};
pub use laws::sets_are_known_by_their_members;
pub use limits::{AXIS_LIMIT, CHANNEL_LIMIT, CHANNEL_PLACES, MARK_LIMIT, ZONE_LIMIT, ZONE_PLACES};
pub use marks::MarkSet;
pub use members::Member;
pub use positions::Positions;
pub use sets::{AxisSet, ChannelSet, Set, ZoneSet};
