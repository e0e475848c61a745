//! The edges of tools, and which of them is active.
ghost use Rattle.std.specs.Prelude.{◌≡◌, true, IfOk};
ghost use Rattle.tool_offsets.specs.Tools as model;

use fault_codes::alarms::NO_SUCH_TOOL;
use micro_units::Um;
use std::marker::Model;

/// By how much an edge moves the slides.
#[derive(Clone, Copy, PartialEq, Eq)]
pub struct Lengths {
    /// Along X.
    pub x: Um,
    /// Along Z.
    pub z: Um,
}

/// The lengths of edge 0.
pub(crate) const NO_LENGTHS: Lengths = Lengths {
    x: Um { micrometres: 0 },
    z: Um { micrometres: 0 },
};

/// An edge of a tool.
#[derive(Clone, Copy, PartialEq, Eq)]
pub struct ToolEdge {
    /// The number of the tool, 1 to 9999.
    pub tool: u16,
    /// The number of the edge, 1 to 9.
    pub edge: u8,
    /// Its lengths.
    pub lengths: Lengths,
}

/// The tool and the edge that a channel has selected; tool 0 is none, and edge 0 has no lengths.
#[derive(Clone, Copy, Default, PartialEq, Eq)]
pub struct Active {
    /// The number of the tool.
    pub tool: u16,
    /// The number of the edge.
    pub edge: u8,
}

/// The tools of a channel: their edges, in the order of the input. A job gives each edge of a tool once, and none with the
/// number 0. Where a list gives an edge twice, the first counts.
#[derive(Drop)]
pub struct Tools {
    /// The edges.
    pub edges: Vec<ToolEdge>,
}

impl Model for Tools {
    ghost use Rattle.std.specs.Prelude.{List};
    ghost use Rattle.tool_offsets.specs.declared.tools.ToolEdge.{ToolEdge};

    ghost Value = { List ToolEdge };

    ghost view = { λ t. t.edges.items };
}

impl Tools {
    /// Whether one of the edges is of `tool`.
    #[tactic(auto, unfolding(crate::specs::Tools::has_tool))]
    fn has_tool(&self, tool: u16) -> bool
        ensures { result ≡ model.has_tool self.now tool }
    {
        self.edges.iter().any(|line| line.tool == tool)
    }

    /// Whether `tool` has `edge`.
    #[tactic(auto, unfolding(crate::specs::Tools::has_edge))]
    fn has_edge(&self, tool: u16, edge: u8) -> bool
        ensures { result ≡ model.has_edge self.now tool edge }
    {
        self.edges
            .iter()
            .any(|line| line.tool == tool && line.edge == edge)
    }

    /// The line of the edge of `active`.
    fn line_of(&self, active: Active) -> Option<ToolEdge>
        ensures { result ≡ model.line_of self.now active }
    {
        let mut lines = self.edges.iter().copied();
        lines.find(|line| line.tool == active.tool && line.edge == active.edge)
    }

    /// Selects `tool`, with edge 1 where it has one, else with edge 0. Tool 0 may always be selected; any other that
    /// has no edge is alarm 34.
    #[tactic(auto, unfolding(crate::specs::Tools::selection))]
    pub fn select(&self, tool: u16) -> Result<Active, u16>
        ensures exact { result ≡ model.selection self.now tool }
        ensures known { IfOk result (λ active. model.is_known self.now active ≡ true) }
    {
        if tool == 0 {
            Ok(Active { tool, edge: 0 })
        } else if !self.has_tool(tool) {
            Err(NO_SUCH_TOOL)
        } else if self.has_edge(tool, 1) {
            Ok(Active { tool, edge: 1 })
        } else {
            Ok(Active { tool, edge: 0 })
        }
    }

    /// Selects `edge` of the tool of `active`. Edge 0 may always be selected; any other that the tool does not have is
    /// alarm 34.
    #[tactic(auto, unfolding(crate::specs::Tools::edge_selection))]
    pub fn edge(&self, active: Active, edge: u8) -> Result<Active, u16>
        ensures exact { result ≡ model.edge_selection self.now active edge }
        ensures known { IfOk result (λ next. model.is_known self.now next ≡ true) }
    {
        if edge == 0 || self.has_edge(active.tool, edge) {
            Ok(Active {
                tool: active.tool,
                edge,
            })
        } else {
            Err(NO_SUCH_TOOL)
        }
    }

    /// The lengths of the edge of `active`; 0 where that is edge 0.
    #[tactic(auto, unfolding(crate::specs::Tools::lengths_of))]
    pub fn lengths(&self, active: Active) -> Lengths
        requires { model.is_known self.now active ≡ true }
        ensures { result ≡ model.lengths_of self.now active }
    {
        if active.edge == 0 {
            return NO_LENGTHS;
        }
        match self.line_of(active) {
            Some(line) => line.lengths,
            None => NO_LENGTHS,
        }
    }
}
