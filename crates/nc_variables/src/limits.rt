//! How many variables a program has.

/// How many variables a program has at most, its parameters counted.
pub const VARIABLE_LIMIT: usize = 32;
