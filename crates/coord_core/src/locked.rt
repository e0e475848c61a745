//! What lies under the lock of a board that several share.

use crate::Board;

/// A board, and whether it was closed. A closed board takes no step any more.
#[derive(Drop)]
pub struct Locked {
    /// The board.
    pub board: Board,
    /// Whether it was closed.
    pub closed: bool,
}
