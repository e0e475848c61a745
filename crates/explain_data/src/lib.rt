//! What is told of a job that was run, as JSON: blocks, boxes of zones, and verdicts. Lengths are whole micrometres. What has a type
//! of its own names its members in the order of the alphabet, as all data have them.
#![tactic(auto)]

mod assumptions;
mod blocks;
mod clashes;
mod lines;
mod meetings;
mod places;
mod refusals;
mod stops;
mod verdicts;
mod waits;

pub use assumptions::GrantedData;
pub use blocks::{block_data, box_data};
pub use clashes::{NearFacts, clash_data, first_data, near_data};
pub use lines::{line_of, verdict_line};
pub use meetings::MetData;
pub use places::place_data;
pub use refusals::refusal_data;
pub use stops::{WaitsData, alarm_data, readings_data, state_data, stop_data, stuck_data};
pub use verdicts::{NoData, YesData, number_data, race_data, undecided_data};
pub use waits::{
    MarkFacts, WaitFacts, axis_lack, end_lack, mark_data, mark_lack, own_end_lack, wait_data,
};
