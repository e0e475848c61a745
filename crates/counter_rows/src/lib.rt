//! Rows of counters, one number for each channel, and lists of rows.
#![tactic(auto)]

mod columns;
mod flags;
mod gather;
mod going;
mod mark_rows;
mod notes;
mod row;
mod sets;
mod table;

pub use columns::{at_channel, put_at};
pub use flags::{axis_flags, channel_flags};
pub use gather::{most_chosen, put_chosen};
pub use going::{joint_rows, put_rows};
pub use mark_rows::MarkClocks;
pub use notes::note_chosen;
pub use row::VectorClock;
pub use sets::{put_axes, put_channels};
pub use table::{ClockTable, StepClocks};
