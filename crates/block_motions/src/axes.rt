//! The axes that the blocks of a channel move.

use axis_sets::{AxisId, AxisSet};

/// The axes of a channel.
#[derive(Clone, Copy)]
pub struct ChannelAxes {
    /// Those in its slots X, Y and Z.
    pub slots: [Option<AxisId>; 3],
    /// Those that it owns.
    pub owned: AxisSet,
}
