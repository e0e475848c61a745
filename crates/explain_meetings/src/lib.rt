//! Boxes of zones in a run: all compared pairs that meet, and how often each two lines do; and how near the
//! boxes of two groups, and of two zones, come.
#![tactic(auto)]

mod contexts;
mod counts;
mod groups;
mod kept;
mod meetings;
mod nearest;
mod pairs;

pub use groups::{Group, groups_of};
pub use meetings::{meetings_of, told_box};
pub use nearest::{Near, nearest_of};
pub use pairs::zone_pairs_of;
