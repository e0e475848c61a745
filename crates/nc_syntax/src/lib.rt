//! Blocks of part programs: one scanned line is read into a block, or refused.
#![tactic(auto)]

mod bodies;
mod jumps;
mod laws;
mod statements;
mod structures;

pub use laws::one_block_at_most;
pub use nc_blocks::{
    Block, CoordWord, FrameWord, JumpTo, Measure, NameText, Operand, Stmt, Target, Way, Word,
};
pub use statements::statement;
