//! Laws of schedules: steps of two channels that show no race may be made in either order, on the boards of runs,
//! and one run without a race speaks for all runs.
#![tactic(auto)]

mod runs;
mod swaps;

pub use runs::{
    fields_are_those_of_the_run, one_quiet_run_speaks_for_all, quiet_runs_are_clean,
    runs_are_tracked,
};
pub use swaps::{steps_may_be_swapped, swap_steps};
