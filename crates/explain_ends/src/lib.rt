//! How a run ends: which marks stand, who owns each axis, and for what each channel waits.
#![tactic(auto)]

mod boards;
mod laws;
mod owners;

pub use boards::{LastBoard, last_board};
pub use laws::who_waits_lacks_something;
