//! The types of a job: what its lines declare and its programs, what holds of every accepted job, and look-ups of its lines.
#![tactic(auto)]

mod axes;
mod channels;
mod job;
mod slots;
mod threads;
mod zones;

pub use axes::{axis_at, axis_named, first_owner, start_position};
pub use job::{AxisLine, ChannelLine, GeoLine, Job, OffsetLine, Program, Side, ZoneLine};
pub use slots::{offset_line, slot_axis};
