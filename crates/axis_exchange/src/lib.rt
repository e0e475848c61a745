//! Who has each axis, and how axes go from one channel to another.
#![tactic(auto)]

mod owners;
mod threads;

use axis_sets::ChannelId;
use micro_units::Um;
pub use owners::Owners;

/// Who has an axis: it has one owner, or is free at one position. There is nothing else.
#[derive(Clone, Copy, PartialEq, Eq)]
pub enum AxisState {
    /// This channel owns it.
    Owned(ChannelId),
    /// No channel owns it, and it stands here.
    Free(Um),
}
