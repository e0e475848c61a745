//! The next block of a part program: jumps, structures and repetitions.
//!
//! What follows a block is defined by search in the text of its program. `resolve` finds the
//! structures and the places of labels and block numbers once, and `Flow::next` answers by them.
//! Where blocks with `/` are passed over, `Flow::next_counted` answers in place of it.
#![tactic(auto)]

mod counted;
mod flow;
mod index;
mod laws;
mod limits;
mod moves;
mod nest;
mod parts;
mod places;
mod repeats;
mod structures;
mod threads;

pub use flow::{Flow, Next, Outcome, resolve};
pub use laws::structures_are_found;
pub use limits::{REPETITION_LIMIT, STRUCTURE_LIMIT};
pub use nest::Nest;
pub use repeats::Repeats;
