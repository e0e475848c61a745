//! The motion of a block, from the values that it programs for axes to their ends: lines, rapids and
//! arcs.
//!
//! X, Y and Z go through the frame to the slots of the channel, other axes by their own names. An arc
//! goes about its centre or by its radius.
#![tactic(auto)]

mod arcs;
mod axes;
mod goals;
mod laws;
mod motions;
mod planes;
mod sides;
mod words;

pub use arcs::arc_motion;
pub use axes::ChannelAxes;
pub use goals::{Conditions, Programmed, Targets, word};
pub use laws::{
    absolute_ends_have_the_length_of_their_slot, alarms_are_listed, arcs_begin_where_axes_stand,
    motions_begin_where_axes_stand,
};
pub use motions::{stands, straight_motion};
pub use words::{ArcWords, is_any};
