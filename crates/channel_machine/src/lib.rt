//! What a channel does with its program: it executes one block after another, over jumps,
//! repetitions and calls, moves its axes, and ends or alarms.
#![tactic(auto)]

mod coordination;
mod grants;
mod laws;
mod levels;
mod limits;
mod local;
mod locals;
mod passing;
mod run;
mod run_grants;
mod start;
mod surroundings;
mod threads;
mod traces;

pub use grants::grant_fits;
pub use laws::{
    alarms_are_listed, alarms_come_on_levels, motions_are_few, motions_are_sound,
    motions_follow_one_another, segments_join,
};
pub use levels::Levels;
pub use limits::BLOCK_LIMIT;
pub use local::Local;
pub use locals::{Locals, next_segment, no_locals, traced_segment};
pub use passing::{Passing, next_block, pass_block};
pub use run::{NextBlock, Segment, run_on, run_segment};
pub use run_grants::grants_in;
pub use start::start_state;
pub use traces::TracedSegment;
