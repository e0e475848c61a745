//! How many levels there are.

/// How many program levels there are. The first is that of the main program.
pub const LEVEL_LIMIT: usize = 16;

/// How many calls may be open.
pub const CALL_LIMIT: usize = LEVEL_LIMIT - 1;
