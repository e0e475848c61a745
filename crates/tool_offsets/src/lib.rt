//! Turning tools: which edges the tools of a channel have, which edge is active, and the lengths of an edge; and motions
//! that are shifted by lengths.
#![tactic(auto)]

mod in_use;
mod laws;
mod shifts;
mod threads;
mod tools;

pub use in_use::ToolInUse;
pub use laws::{arcs_about_shifted_centres_are_shifted, shifted_paths_are_paths_shifted};
pub use shifts::shift;
pub use tools::{Active, Lengths, ToolEdge, Tools};
