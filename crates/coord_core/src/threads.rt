//! The types whose values may go to another thread, and that threads may share.

use crate::{Board, ChannelState, Locked, Outcome};

/// Asks this of a type, and does nothing: each call is proved.
fn crosses_threads<T: Send + Sync>() {}

/// Asks it of each of them.
fn types_cross_threads() {
    crosses_threads::<Board>();
    crosses_threads::<ChannelState>();
    crosses_threads::<Locked>();
    crosses_threads::<Outcome>();
}
