//! Which events of a run are ordered, however fast each channel is, and its first race.
#![tactic(auto)]

mod acts;
mod clocks;
mod counting;
mod events;
mod groups;
mod pairs;
mod places;
mod reader;
mod search;
mod step_reader;
mod stops;
mod threads;
mod times;
mod watch;

pub use clocks::{Clocks, clocks_of};
pub use step_reader::{ReadStep, StepReader};
pub(crate) use times::LastClocks;
