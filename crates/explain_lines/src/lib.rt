//! The lines of an input as they were written: their texts, their block numbers and the files that they come from.
#![tactic(auto)]

mod headers;
mod lines;
mod numbers;
mod origins;

pub use lines::Lines;
pub use numbers::block_number;
pub use origins::{Origin, origin_of, say_origin};
