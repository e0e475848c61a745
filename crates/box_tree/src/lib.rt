//! Trees over boxes, by which those that meet a box, or some of many others, are found.
#![tactic(auto)]

mod boxes;
mod groups;
mod kept;
mod pieces;
mod slants;
mod tree;

pub use boxes::{do_meet, first_met, plain_first};
pub use kept::KeptTrees;
pub use pieces::PieceTree;
pub use tree::BoxTree;
