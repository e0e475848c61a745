//! The types whose values may go to another thread, and that threads may share.

use crate::meeting::Meeting;
use crate::worked::Worked;

/// Asks this of a type, and does nothing: each call is proved.
fn crosses_threads<T: Send + Sync>() {}

/// Asks it of each of them.
fn types_cross_threads() {
    crosses_threads::<Meeting>();
    crosses_threads::<Worked>();
}
