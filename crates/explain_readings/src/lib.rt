//! Which parameters a block reads, and with what values.
#![tactic(auto)]

mod numbers;
mod readings;
mod reads;

pub use numbers::{say_readings, say_value};
pub use readings::{Reading, readings_in};
pub use reads::block_reads;
