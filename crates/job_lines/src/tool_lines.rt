//! The edge of a tool that a job line gives.
ghost use Rattle.std.specs.Prelude.{◌≡◌};
ghost use Rattle.job_lines.specs.ToolLines.{tool_of, edge_of, given_edge_of};

use crate::code::Code;
use crate::length::length_in;
use crate::limits::{EDGE_LIMIT, TOOL_LIMIT};
use crate::numbers::{number_within, small_within};
use micro_units::Um;

/// An edge of a tool, as a job line gives it.
#[derive(Clone, Copy, PartialEq, Eq)]
pub struct GivenEdge {
    /// The number of the tool, 1 to `TOOL_LIMIT`.
    pub tool: u16,
    /// The number of the edge, 1 to `EDGE_LIMIT`.
    pub edge: u8,
    /// Its length along X.
    pub x: Um,
    /// Its length along Z.
    pub z: Um,
}

/// The number of a tool that the word writes.
#[tactic(auto, unfolding(crate::specs::ToolLines::tool_of))]
fn tool_in(word: &[u8]) -> Result<u16, Code>
    ensures { result ≡ tool_of word.now }
{
    match number_within(1, u32::from(TOOL_LIMIT), word) {
        Some(number) => Ok(number as u16),
        None => Err(Code::OutOfRange),
    }
}

/// The number of an edge that the word writes.
#[tactic(auto, unfolding(crate::specs::ToolLines::edge_of))]
fn edge_in(word: &[u8]) -> Result<u8, Code>
    ensures { result ≡ edge_of word.now }
{
    match small_within(1, EDGE_LIMIT, word) {
        Some(number) => Ok(number),
        None => Err(Code::OutOfRange),
    }
}

/// The edge of a tool, with its lengths along X and Z, that the words write.
#[tactic(auto, unfolding(crate::specs::ToolLines::given_edge_of))]
pub(crate) fn given_edge_in(tool: &[u8], edge: &[u8], x: &[u8], z: &[u8]) -> Result<GivenEdge, Code>
    ensures { result ≡ given_edge_of tool.now edge.now x.now z.now }
{
    let tool = tool_in(tool)?;
    let edge = edge_in(edge)?;
    let x = length_in(x)?;
    let z = length_in(z)?;
    Ok(GivenEdge { tool, edge, x, z })
}
