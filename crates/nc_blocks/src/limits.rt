//! How often blocks are repeated.

/// How many passes of a program or of a part of it a block may ask for.
pub const PASS_LIMIT: u16 = 9_999;
