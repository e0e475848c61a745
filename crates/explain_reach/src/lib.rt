//! What two boxes have in common and how they would be apart: by a shift of one of them, by a smaller margin, or by motions that
//! are halved more often.
#![tactic(auto)]

mod commons;
mod depths;
mod lots;
mod parted;
mod parts;
mod rooms;
mod ways;

pub use commons::common_box;
pub use depths::parting_depth;
pub use lots::most_near;
pub use parted::PartedBoxes;
pub use rooms::{margin_room, room_of};
pub use ways::{Way, least_way};
