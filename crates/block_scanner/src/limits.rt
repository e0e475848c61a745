//! What a line may be.

/// How many bytes a line may have.
pub const LINE_LIMIT: usize = 512;
