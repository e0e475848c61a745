//! How many structures and repetitions a program may have at once.

/// How many structures may be open.
pub const STRUCTURE_LIMIT: usize = 16;

/// How many repetitions may run.
pub const REPETITION_LIMIT: usize = 16;
