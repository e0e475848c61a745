//! The types whose values may go to another thread, and that threads may share.

use crate::{AxisLine, ChannelLine, GeoLine, Job, OffsetLine, Program, Side, ZoneLine};

/// Asks this of a type, and does nothing: each call is proved.
fn crosses_threads<T: Send + Sync>() {}

/// Asks it of each of them.
fn types_cross_threads() {
    crosses_threads::<AxisLine>();
    crosses_threads::<ChannelLine>();
    crosses_threads::<GeoLine>();
    crosses_threads::<Job>();
    crosses_threads::<OffsetLine>();
    crosses_threads::<Program>();
    crosses_threads::<Side>();
    crosses_threads::<ZoneLine>();
}
