//! What the steps of a run are, as its order and its races are found from them: waits, their ends, and what each
//! step does.
#![tactic(auto)]

mod deed;
mod holds;
mod named;

pub use deed::{Hold, StepEvents, WaitAt, Wakeup};
pub use holds::{
    are_partners_at, axes_begun, axes_of_hold, axes_with_position, clear_goes, goers, is_nobody,
    line_of, marks_begun, marks_left, marks_lowered, marks_needed, marks_of, marks_of_hold,
    took_of,
};
pub use named::{NamedMarks, differ, meets_wait, share_axes, share_channels};
