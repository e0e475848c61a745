//! How long a channel runs.

/// How many blocks a channel may execute.
pub const BLOCK_LIMIT: u32 = 100_000;
