//! The types whose values may go to another thread, and that threads may share.

use crate::{Active, Lengths, ToolEdge, ToolInUse, Tools};

/// Asks this of a type, and does nothing: each call is proved.
fn crosses_threads<T: Send + Sync>() {}

/// Asks it of each of them.
fn types_cross_threads() {
    crosses_threads::<Active>();
    crosses_threads::<Lengths>();
    crosses_threads::<ToolEdge>();
    crosses_threads::<ToolInUse>();
    crosses_threads::<Tools>();
}
