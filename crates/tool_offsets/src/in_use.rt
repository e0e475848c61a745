//! The tool that a channel uses.
ghost use Rattle.std.specs.Prelude.{◌≡◌, ◌==◌, ◌&&◌, ◌||◌, false, true, find, IfOk, List, [], MatchOption};
ghost use Rattle.tool_offsets.specs.Choices as model;
ghost use Rattle.tool_offsets.specs.Choices.{OfEdge, OfTool};
ghost use Rattle.tool_offsets.specs.Tools.{has_edge, has_tool, is_known};
ghost use Rattle.tool_offsets.specs.declared.tools.ToolEdge as edge_lines;

use crate::tools::{Active, Lengths, NO_LENGTHS, ToolEdge, Tools};
use fault_codes::alarms::NO_SUCH_TOOL;

/// The tool and the edge that are active, with the lengths of the edge: so they are looked up once for each choice, and not
/// for each motion.
#[derive(Clone, Copy, PartialEq, Eq)]
pub struct ToolInUse {
    /// The tool and the edge.
    pub active: Active,
    /// The lengths of the edge.
    pub lengths: Lengths,
}

/// The line of the first edge of a tool.
fn line_of_tool(tools: &Tools, tool: u64) -> Option<ToolEdge>
    ensures { result ≡ find (λ line. line.tool == tool) tools.now }
{
    let mut lines = tools.edges.iter().copied();
    lines.find(|line| u64::from(line.tool) == tool)
}

/// The line of an edge of a tool.
fn line_of_edge(tools: &Tools, tool: u16, edge: u64) -> Option<ToolEdge>
    ensures { result ≡ find (λ line. line.tool == tool && line.edge == edge) tools.now }
{
    let mut lines = tools.edges.iter().copied();
    lines.find(|line| line.tool == tool && u64::from(line.edge) == edge)
}

/// The number of a tool, where it may be chosen.
fn tool_number(tools: &Tools, tool: u64) -> Option<u16>
    ensures { MatchOption result ((tool == 0 || has_tool tools.now tool) ≡ false) (λ number. number ≡ tool) }
{
    if tool == 0 {
        return Some(0);
    }
    match line_of_tool(tools, tool) {
        Some(line) => Some(line.tool),
        None => None,
    }
}

/// The number of an edge of a tool, where it may be chosen.
fn edge_number(tools: &Tools, tool: u16, edge: u64) -> Option<u8>
    ensures { MatchOption result ((edge == 0 || has_edge tools.now tool edge) ≡ false) (λ number. number ≡ edge) }
{
    if edge == 0 {
        return Some(0);
    }
    match line_of_edge(tools, tool, edge) {
        Some(line) => Some(line.edge),
        None => None,
    }
}

/// What is selected, with its lengths.
fn with_lengths(tools: &Tools, selected: Result<Active, u16>) -> Result<ToolInUse, u16>
    requires { IfOk selected (λ active. is_known tools.now active ≡ true) }
    ensures { result ≡ model.with_lengths tools.now selected }
{
    match selected {
        Ok(active) => Ok(ToolInUse {
            active,
            lengths: tools.lengths(active),
        }),
        Err(alarm) => Err(alarm),
    }
}

impl ToolInUse {
    /// What is in use where nothing was chosen: tool 0 and edge 0, which has no lengths.
    #[tactic(auto, unfolding(crate::specs::Choices::tool_after, crate::specs::Choices::edge_after, crate::specs::Tools::lengths_of))]
    pub fn nothing() -> ToolInUse
        ensures { (edges : List edge_lines.ToolEdge) → result ≡ model.in_use_after edges [] }
    {
        ToolInUse {
            active: Active { tool: 0, edge: 0 },
            lengths: NO_LENGTHS,
        }
    }

    /// What is in use after a word T with this number, of a channel with these tools. Alarm 34 where no edge is of this tool,
    /// and it is not 0.
    pub fn with_tool(self, tools: &Tools, tool: u64) -> Result<ToolInUse, u16>
        ensures { (choices : List model.Choice) → self ≡ model.in_use_after tools.now choices
            → result ≡ model.in_use_or_alarm tools.now (model.choices_with tools.now choices (OfTool tool)) }
    {
        let Some(number) = tool_number(tools, tool) else {
            return Err(NO_SUCH_TOOL);
        };
        with_lengths(tools, tools.select(number))
    }

    /// What is in use after a word D with this number, of a channel with these tools. Alarm 34 where the active tool does not
    /// have this edge, and it is not 0.
    pub fn with_edge(self, tools: &Tools, edge: u64) -> Result<ToolInUse, u16>
        ensures { (choices : List model.Choice) → self ≡ model.in_use_after tools.now choices
            → result ≡ model.in_use_or_alarm tools.now (model.choices_with tools.now choices (OfEdge edge)) }
    {
        let Some(number) = edge_number(tools, self.active.tool, edge) else {
            return Err(NO_SUCH_TOOL);
        };
        with_lengths(tools, tools.edge(self.active, number))
    }
}
