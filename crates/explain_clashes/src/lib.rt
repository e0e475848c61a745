//! What two boxes of zones that meet have in common, and by what they would be apart: by a shift of one of them, by a smaller
//! MARGIN, or by motions that are halved more often.
#![tactic(auto)]

mod clashes;
mod pieces;
mod ways;

pub use clashes::{Clash, clash_of};
