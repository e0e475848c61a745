//! How many pieces a motion has.

/// How many pieces a motion is cut into at most: 16 of each of the at most five parts of an arc that its quadrants leave, or
/// the 16 of a line.
pub const PIECE_LIMIT: usize = 80;
