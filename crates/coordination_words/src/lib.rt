//! What a coordination block asks for: a step at the board, or that a zone is switched.
//!
//! `request_of` finds it from the arguments of the block, or answers its first alarm.
#![tactic(auto)]

mod asked;
mod laws;
mod operands;
mod programs;
mod setting;
mod words;

pub use asked::Request;
pub use laws::{
    alarms_are_listed, clearm_without_arguments_lowers_all, requests_are_of_the_job,
    switches_are_of_held_zones,
};
pub use setting::Setting;
pub use words::request_of;
