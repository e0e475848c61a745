//! The picture of a judged job: the boxes of its zones, their ways, and what its channels do.
#![tactic(auto)]

mod boxes;
mod kept;
mod moments;
mod named;
mod picture;
mod scene;
mod spans;
mod tracks;
mod turns;

pub use picture::{MOMENT_LIMIT, TILE_LIMIT, picture_of};
pub use scene::Scene;
