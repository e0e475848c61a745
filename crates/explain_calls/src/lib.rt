//! What a call of `explain` reads from and writes to: its input from files and standard input, and what is said on standard error.
#![tactic(auto)]

mod ends;
mod files;
mod joins;

pub use ends::Ends;
