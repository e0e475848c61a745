//! The error may go to another thread, and threads may share it.

use crate::NoMemory;

/// Asks this of a type, and does nothing: each call is proved.
fn crosses_threads<T: Send + Sync>() {}

/// Asks it of the want of memory.
fn types_cross_threads() {
    crosses_threads::<NoMemory>();
}
