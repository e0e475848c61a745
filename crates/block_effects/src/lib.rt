//! What one block does: it changes parameters, modal words and the frame, moves axes along a line or an arc or each by
//! itself, and says where control goes on.
//!
//! `execute` does what a block says, or answers its first alarm.
#![tactic(auto)]

mod choices;
mod control;
mod course;
mod effects;
mod groups;
mod laws;
mod parameters;
mod progress;
mod shapes;
mod situation;

pub use block_motions::ChannelAxes;
pub use course::{BlockFault, Course, Done, Setup};
pub use effects::{execute, execute_to};
pub use laws::{alarms_are_listed, motions_begin_where_axes_stand};
pub use parameters::Parameters;
pub use situation::Situation;
