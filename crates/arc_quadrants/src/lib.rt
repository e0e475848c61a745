//! Arcs cut into quarters at the axis crossings, and the bounds of the parts of a quarter.
#![tactic(auto)]

mod bounds;
mod halves;
mod seen;
mod walk;

pub use bounds::quarter_box;
pub use halves::{PART_LIMIT, part_of_quarter, parts_at};
pub use walk::{Quarter, quarters};
