//! The run of a job in which each time the lowest running channel goes on.
#![tactic(auto)]

mod laws;
mod run;

pub use laws::{
    grants_fit_their_channels, runs_are_short, runs_are_sound, runs_are_whole,
    runs_in_order_are_maximal, segments_move_what_they_own, segments_switch_what_they_hold,
};
pub use run::run_in_order;
