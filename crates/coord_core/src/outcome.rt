//! What a channel is told at a board.

use sync_types::Grant;

/// What a channel is told at a board that several share.
#[derive(Clone, Copy, PartialEq, Eq)]
pub enum Outcome {
    /// It runs, with this grant.
    Granted(Grant),
    /// Its program has ended, or an alarm has stopped it.
    Done,
    /// It waits or has not started, and no channel runs any more.
    Over,
    /// The board was closed before.
    Closed,
    /// No memory was found for its step, and the board is closed now.
    NoMemory,
}
