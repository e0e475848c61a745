//! The marks of channels, and which of the channels that wait for marks go on.
#![tactic(auto)]

mod marks;
mod threads;

pub use marks::Marks;
