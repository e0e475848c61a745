//! What a coordination block asks for.

use axis_sets::ZoneId;
use sync_types::Action;

/// What a coordination block asks for.
#[derive(Clone, Copy, PartialEq, Eq)]
pub enum Request {
    /// This of the other channels: the segment ends here.
    Act(Action),
    /// That the zone is on from here, or off where this is false: the channel runs on.
    Switch(ZoneId, bool),
}
