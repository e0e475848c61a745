//! The verdict on a run that has not come to its end.
#![tactic(auto)]

mod judging;
mod stops;

pub use judging::stopped_verdict;
