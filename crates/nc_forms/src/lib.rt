//! The forms of coordination, frames and messages, each after its first name.
#![tactic(auto)]

mod coordination;
mod frames;
mod line_ends;
mod messages;

pub use coordination::{ArgumentKind, coordination_form};
pub use frames::{shape_form, turn_form};
pub use line_ends::alone;
pub use messages::{msg_form, setms_form, workpiece_form};
