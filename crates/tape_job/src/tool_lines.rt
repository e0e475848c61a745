//! The tools of an input that is being read.
ghost use Rattle.std.specs.Prelude.{◌≡◌, ◌<◌, ◌∷◌, ◌++◌, [], nat_le, length, position, IfOk, OnOk, OnErr};
ghost use Rattle.tape_job.specs.Steps.{is_due, with_edge};

use axis_sets::ChannelId;
use indexmap::IndexSet;
use std::alloc::{AllocError, Global};
use std::marker::Model;
use tool_offsets::{ToolEdge, Tools};

/// What no two TOOL lines have in common: the numbers of a channel, a tool and an edge.
#[derive(Clone, Copy, PartialEq, Eq, Hash, Drop)]
struct EdgeKey {
    channel: u8,
    tool: u16,
    edge: u8,
}

/// The numbers of an edge of a channel.
fn key_of(channel: ChannelId, tool: u16, edge: u8) -> EdgeKey
    ensures { result ≡ record { channel = channel; tool = tool; edge = edge } }
{
    EdgeKey {
        channel: channel.number,
        tool,
        edge,
    }
}

/// The place of the first channel with tools whose number is not below that of `channel`.
fn place_of(tools: &[(ChannelId, Tools)], channel: ChannelId) -> Option<usize>
    ensures { result ≡ position (is_due channel) tools.now }
{
    tools.iter().position(|one| channel.number <= one.0.number)
}

/// The tools of a channel that has one edge.
fn only_edge(
    alloc: Global,
    channel: ChannelId,
    edge: ToolEdge,
) -> Result<(ChannelId, Tools), AllocError>
    ensures { IfOk result (λ one. one ≡ (channel, edge ∷ [])) }
{
    let mut edges = Vec::new(alloc);
    edges.push(edge)?;
    Ok((channel, Tools { edges }))
}

/// Adds an edge to those of a channel.
fn push_edge(tools: &mut Tools, edge: ToolEdge) -> Result<(), AllocError>
    ensures added { OnOk result (tools.new ≡ tools.old ++ edge ∷ []) }
    ensures unchanged { OnErr result (tools.new ≡ tools.old) }
{
    tools.edges.push(edge)?;
    Ok(())
}

/// Adds an edge of a channel, which is put among the channels where it has no edge yet.
fn add_edge(
    alloc: Global,
    tools: &mut Vec<(ChannelId, Tools)>,
    channel: ChannelId,
    edge: ToolEdge,
) -> Result<(), AllocError>
    ensures added { OnOk result (tools.new.items ≡ with_edge tools.old.items channel edge) }
    ensures unchanged { OnErr result (tools.new.items ≡ tools.old.items) }
{
    match place_of(tools.as_slice(), channel) {
        Some(place) => {
            if tools[place].0 == channel {
                push_edge(&mut tools[place].1, edge)?;
            } else {
                let one = only_edge(alloc, channel, edge)?;
                tools.insert(place, one)?;
            }
        }
        None => {
            let one = only_edge(alloc, channel, edge)?;
            tools.push(one)?;
        }
    }
    Ok(())
}

/// The tools of the channels so far.
#[derive(Drop)]
pub(crate) struct ToolLines {
    /// The tools of each channel that has any, in ascending order of the channels.
    tools: Vec<(ChannelId, Tools)>,
    /// The numbers of all edges.
    keys: IndexSet<EdgeKey>,
}

impl Model for ToolLines {
    ghost use Rattle.std.specs.Prelude.{ℕ, List};
    ghost use Rattle.tool_offsets.specs.declared.tools.ToolEdge.{ToolEdge};
    ghost use Rattle.tape_job.specs.ToolKeys.{AreKeys};

    ghost Value = { List (ℕ × List ToolEdge) };

    ghost view = { λ t. t.tools.items };

    ghost invariant = { λ t. AreKeys t.keys.keys t.tools.items };
}

impl ToolLines {
    ghost use Rattle.std.specs.Prelude.{◌≡◌, [], OnOk};
    ghost use Rattle.tape_job.specs.Rules.{has_edge};
    ghost use Rattle.tape_job.specs.Steps.{with_edge};

    /// No tools.
    #[tactic(auto, unfolding(crate::specs::Rules::has_edge))]
    pub(crate) fn new(alloc: Global) -> ToolLines
        ensures { result ≡ [] }
    {
        ToolLines {
            tools: Vec::new(alloc),
            keys: IndexSet::new(alloc),
        }
    }

    /// Whether the channel has this edge of this tool. It is looked up by its numbers, so the time does not grow with the lines.
    pub(crate) fn has(&self, channel: ChannelId, tool: u16, edge: u8) -> bool
        ensures { result ≡ has_edge self.now channel tool edge }
    {
        self.keys.contains(&key_of(channel, tool, edge))
    }

    /// Adds an edge of a channel.
    pub(crate) fn add(
        &mut self,
        alloc: Global,
        channel: ChannelId,
        edge: ToolEdge,
    ) -> Result<(), AllocError>
        ensures { OnOk result (self.new ≡ with_edge self.old channel edge) }
    {
        let key = key_of(channel, edge.tool, edge.edge);
        self.keys.reserve(1)?;
        add_edge(alloc, &mut self.tools, channel, edge)?;
        self.keys.insert(key)?;
        Ok(())
    }

    /// The tools of each channel.
    pub(crate) fn into_tools(self) -> Vec<(ChannelId, Tools)>
        ensures { result.items ≡ self }
    {
        let ToolLines { tools, keys: _ } = self;
        tools
    }
}
