//! A copy of an input for the check, in which the refused lines are comments that move nothing.
#![tactic(auto)]

mod copying;
mod counting;
mod marking;

pub use copying::{Ready, ready_text};
pub use counting::{left_out_count, left_out_text};
