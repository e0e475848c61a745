//! Motions of axes: straight lines, uninterpolated rapids and arcs, with the paths that they take.
#![tactic(auto)]

mod arcs;
mod laws;
mod motion;
mod threads;
mod vector;

pub use arcs::{arc_by_centre, arc_by_radius};
pub use laws::sound_arcs_run_in_a_ring;
pub use motion::{Arc, Ends, Motion};
