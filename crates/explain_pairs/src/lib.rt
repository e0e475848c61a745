//! What is told of each two zones of a job: what is found of their compared boxes, or why none are compared.
#![tactic(auto)]

mod data;
mod pairs;
mod reasons;
mod texts;

pub use data::{PairData, pair_data, pairs_data};
pub use pairs::{Absent, Comparison, PairKind, Presence, ZoneFacts, ZonePair};
pub use reasons::{is_none_compared, say_none_compared};
pub use texts::{apart_of, say_zone_pairs};
