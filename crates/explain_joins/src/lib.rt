//! A job list and the files of a control, joined to one input.
#![tactic(auto)]

mod joining;
mod lines;
mod names;
mod parts;

pub use joining::{ControlFile, joined_input};
pub use lines::begins_with_job;
pub use parts::{OtherPart, other_parts};
