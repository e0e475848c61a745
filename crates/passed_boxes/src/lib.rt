//! Boxes of motions that passed a test, so that an equal box of an equal motion need not be tested again.
#![tactic(auto)]

mod motions;
mod passed;

pub use motions::is_same_motion;
pub use passed::{PassedBox, PassedBoxes};
