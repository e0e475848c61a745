//! How far expressions go, and how long names are.

/// How many bytes a name has at most.
pub const NAME_LIMIT: usize = 32;

/// How many parentheses may be open.
pub const PARENTHESIS_LIMIT: usize = 32;

/// How many parameters a channel has. They are numbered from 0.
pub const PARAMETER_LIMIT: u16 = 1000;

/// The greatest number of a parameter.
pub const LAST_PARAMETER: u16 = PARAMETER_LIMIT - 1;
