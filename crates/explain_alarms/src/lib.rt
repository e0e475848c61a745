//! What is told of a channel that an alarm stops: the values of the parameters that the alarmed block reads, and the calls
//! that lead to that block.
#![tactic(auto)]

mod alarms;
mod blocks;
mod calls;
mod kept;
mod said;
mod state;

pub use calls::Call;
pub use said::say_state;
pub use state::{AlarmState, alarm_state};
