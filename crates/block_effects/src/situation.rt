//! What a block finds and leaves.

use crate::parameters::Parameters;
use axis_sets::Positions;
use frames::Frame;
use g_groups::Modal;
use tool_offsets::ToolInUse;

/// What a block finds and leaves.
#[derive(Drop)]
pub struct Situation {
    /// The parameters.
    pub parameters: Parameters,
    /// The words of groups that hold after the last block.
    pub modal: Modal,
    /// The programmable frame.
    pub frame: Frame,
    /// The tool in use, with its lengths.
    pub tool: ToolInUse,
    /// Where the axes stand, in micrometres; an axis without a position stands at 0.
    pub at: Positions,
}
