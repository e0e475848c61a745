//! The types whose values may go to another thread, and that threads may share.

use crate::{AxisId, AxisSet, ChannelId, ChannelSet, MarkSet, Positions, ZoneId, ZoneSet};

/// Asks this of a type, and does nothing: each call is proved.
fn crosses_threads<T: Send + Sync>() {}

/// Asks it of each of them.
fn types_cross_threads() {
    crosses_threads::<AxisId>();
    crosses_threads::<AxisSet>();
    crosses_threads::<ChannelId>();
    crosses_threads::<ChannelSet>();
    crosses_threads::<MarkSet>();
    crosses_threads::<Positions>();
    crosses_threads::<ZoneId>();
    crosses_threads::<ZoneSet>();
}
