//! What a run takes for granted: what the programs do not say, and the start of their channels gives.
#![tactic(auto)]

mod assumptions;
mod counts;
mod firsts;
mod laws;
mod movers;
mod reads;
mod remarks;
mod rows;
mod said;
mod walks;
mod words;

pub use assumptions::assumptions_of;
pub use laws::readings_are_told;
pub use rows::{Assumed, Assumption};
pub use said::say_assumptions;
