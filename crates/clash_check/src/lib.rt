//! The verdict on a run of a job: whether two of its zones may meet, and the first two boxes that do.
#![tactic(auto)]

mod contexts;
mod judging;
mod meetings;
mod nearby;
mod numbers;
mod pair_counts;
mod place_ranges;
mod running;
mod sharing;
mod shown;
mod zone_pairs;

pub use box_tree::plain_first;
pub use judging::{judge, judge_shared};
pub use numbers::{PairNumber, pair_numbers};
pub use pair_counts::count;
