//! What is told of a run: where its blocks stand and how they read, how axes move, and for a box of a zone what its channel does,
//! which execution of its block it is, and between which events it lies.
#![tactic(auto)]

mod boxes;
mod executions;
mod place;
mod places;
mod spans;
mod told;
mod ways;

pub use boxes::{say_box, say_direction};
pub use executions::{Execution, execution_at, execution_of, last_entry};
pub use place::{Meeting, Place, motion_of};
pub use places::{say_place, say_zone};
pub use spans::say_span;
pub use told::{
    Told, line_text, program_name, say_block, say_channel, say_channel_first, say_line,
};
pub use ways::{say_axis, say_motion};
