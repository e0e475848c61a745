//! The types whose values may go to another thread, and that threads may share.

use crate::{
    ChannelEnd, Entry, EventId, Go, Grant, Item, PlaceName, Race, Run, StartState, Step, Verdict,
};

/// Asks this of a type, and does nothing: each call is proved.
fn crosses_threads<T: Send + Sync>() {}

/// Asks it of each of them.
fn types_cross_threads() {
    crosses_threads::<ChannelEnd>();
    crosses_threads::<Entry>();
    crosses_threads::<EventId>();
    crosses_threads::<Go>();
    crosses_threads::<Grant>();
    crosses_threads::<Item>();
    crosses_threads::<PlaceName>();
    crosses_threads::<Race>();
    crosses_threads::<Run>();
    crosses_threads::<StartState>();
    crosses_threads::<Step>();
    crosses_threads::<Verdict>();
}
