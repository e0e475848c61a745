//! What a line breaks against what the lines before it told.
ghost use Rattle.std.specs.Prelude.{◌≡◌, position};
ghost use Rattle.std.specs.Option.{option_copied};
ghost use Rattle.tape_job.specs.Rules.{is_named, is_same_owner, is_owned_line, side_with, same_axis, option_rule};

use crate::draft::Draft;
use axis_sets::{AxisId, ChannelId, ZoneId};
use job_lines::{AxisName, Code, Declaration, Extent, GivenEdge, NamedSide, NamedZone};
use job_types::{AxisLine, Side, axis_at};

/// Whether the axis has this name.
fn is_named(name: AxisName, line: &AxisLine) -> bool
    ensures { result ≡ is_named name line.now }
{
    line.letter == name.letter && line.number == name.number
}

/// The place of the axis with this name.
fn place_in(name: AxisName, axes: &[AxisLine]) -> Option<usize>
    ensures { result ≡ position (is_named name) axes.now }
{
    axes.iter().position(|line| is_named(name, line))
}

/// Whether both are the same channel, or both free.
fn is_same_owner(owner: Option<ChannelId>, other: Option<ChannelId>) -> bool
    ensures { result ≡ is_same_owner owner other }
{
    match (owner, other) {
        (Some(owner), Some(other)) => owner == other,
        (None, None) => true,
        _ => false,
    }
}

/// Whether the axis is there, and this is its owner.
fn is_owned_line(owner: Option<ChannelId>, line: Option<&AxisLine>) -> bool
    ensures { result ≡ is_owned_line owner (option_copied line.entry) }
{
    match line {
        Some(line) => is_same_owner(line.owner, owner),
        None => false,
    }
}

/// A direction with its axis for the axis' name.
fn side_with(side: NamedSide, carrier: Option<(AxisId, bool)>) -> Side
    ensures { result ≡ side_with side carrier }
{
    Side {
        carrier,
        lo: side.lo,
        hi: side.hi,
    }
}

/// Whether one axis carries both directions.
#[tactic(auto, unfolding(crate::specs::Rules::same_axis))]
fn same_axis(a: Side, b: Side) -> bool
    ensures { result ≡ same_axis a b }
{
    match (a.carrier, b.carrier) {
        (Some((axis, _)), Some((other, _))) => other == axis,
        _ => false,
    }
}

/// What a line of an option breaks, where one gave the option already or none did.
fn option_rule(given: bool) -> Option<Code>
    ensures { result ≡ option_rule given }
{
    if given {
        Some(Code::DeclaredTwice)
    } else {
        None
    }
}

impl Draft {
    ghost use Rattle.std.specs.Prelude.{◌≡◌, Some};
    ghost use Rattle.tape_job.specs.Rules.{has_channel, axis_of, has_axis, has_slot, has_slot_axis, has_owner, has_offset, owns, has_zone, channel_rule, axis_rule, slot_rule, offset_rule, side_of, owns_carrier, sides_rule, zone_rule, tool_rule, declaration_rule};

    /// Whether a line declares the channel.
    #[tactic(auto, unfolding(crate::specs::Rules::has_channel))]
    fn has_channel(&self, channel: ChannelId) -> bool
        ensures { result ≡ has_channel self.now.job channel }
    {
        self.job.channels.iter().any(|line| line.channel == channel)
    }

    /// The axis with this name.
    #[tactic(auto, unfolding(crate::specs::Rules::axis_of))]
    pub(crate) fn axis_of(&self, name: AxisName) -> Option<AxisId>
        ensures { result ≡ axis_of self.now.job.axes name }
    {
        match place_in(name, self.job.axes.as_slice()) {
            Some(place) => axis_at(place),
            None => None,
        }
    }

    /// Whether an axis has this name.
    #[tactic(auto, unfolding(crate::specs::Rules::has_axis))]
    fn has_axis(&self, name: AxisName) -> bool
        ensures { result ≡ has_axis self.now.job name }
    {
        self.job.axes.iter().any(|line| is_named(name, line))
    }

    /// Whether the channel has the slot.
    #[tactic(auto, unfolding(crate::specs::Rules::has_slot))]
    fn has_slot(&self, channel: ChannelId, slot: u8) -> bool
        ensures { result ≡ has_slot self.now.job channel slot }
    {
        self.job
            .geo
            .iter()
            .any(|line| line.channel == channel && line.slot == slot)
    }

    /// Whether the axis stands in a slot of the channel.
    #[tactic(auto, unfolding(crate::specs::Rules::has_slot_axis))]
    fn has_slot_axis(&self, channel: ChannelId, axis: AxisId) -> bool
        ensures { result ≡ has_slot_axis self.now.job channel axis }
    {
        self.job
            .geo
            .iter()
            .any(|line| line.channel == channel && line.axis == axis)
    }

    /// Whether the owner or holder is declared, if it is a channel.
    #[tactic(auto, unfolding(crate::specs::Rules::has_owner))]
    fn has_owner(&self, owner: Option<ChannelId>) -> bool
        ensures { result ≡ has_owner self.now.job owner }
    {
        match owner {
            Some(channel) => self.has_channel(channel),
            None => true,
        }
    }

    /// Whether a line gives the offset of this channel, G word and slot.
    #[tactic(auto, unfolding(crate::specs::Rules::has_offset))]
    fn has_offset(&self, channel: ChannelId, g: u16, slot: u8) -> bool
        ensures { result ≡ has_offset self.now.job channel g slot }
    {
        self.job.offsets.iter().any(|line| line.channel == channel
            && line.g == g
            && line.slot == slot)
    }

    /// Whether the axis is there and has this owner, or is free where this is none.
    #[tactic(auto, unfolding(crate::specs::Rules::owns))]
    fn owns(&self, owner: Option<ChannelId>, axis: AxisId) -> bool
        ensures { result ≡ owns self.now.job owner axis }
    {
        is_owned_line(owner, self.job.axes.get(axis.index as usize))
    }

    /// Whether a line declares the zone.
    #[tactic(auto, unfolding(crate::specs::Rules::has_zone))]
    fn has_zone(&self, zone: ZoneId) -> bool
        ensures { result ≡ has_zone self.now.job zone }
    {
        self.job.zones.iter().any(|line| line.zone == zone)
    }

    /// What a CHANNEL line breaks.
    #[tactic(auto, unfolding(crate::specs::Rules::channel_rule))]
    fn channel_rule(&self, channel: ChannelId) -> Option<Code>
        ensures { result ≡ channel_rule self.now.job channel }
    {
        if self.has_channel(channel) {
            Some(Code::DeclaredTwice)
        } else {
            None
        }
    }

    /// What an AXIS line breaks.
    #[tactic(auto, unfolding(crate::specs::Rules::axis_rule))]
    fn axis_rule(&self, name: AxisName, owner: Option<ChannelId>) -> Option<Code>
        ensures { result ≡ axis_rule self.now.job name owner }
    {
        if !self.has_owner(owner) {
            Some(Code::NotDeclared)
        } else if self.has_axis(name) {
            Some(Code::DeclaredTwice)
        } else if self.job.axes.len() >= Extent::of(self.job.version).axes {
            Some(Code::TooMany)
        } else {
            None
        }
    }

    /// What a GEO line breaks.
    #[tactic(auto, unfolding(crate::specs::Rules::slot_rule))]
    fn slot_rule(&self, channel: ChannelId, slot: u8, axis: Option<AxisId>) -> Option<Code>
        ensures { result ≡ slot_rule self.now.job channel slot axis }
    {
        let Some(axis) = axis else {
            return Some(Code::NotDeclared);
        };
        if !self.has_channel(channel) {
            Some(Code::NotDeclared)
        } else if self.has_slot(channel, slot) || self.has_slot_axis(channel, axis) {
            Some(Code::DeclaredTwice)
        } else {
            None
        }
    }

    /// What an OFFSET line breaks.
    #[tactic(auto, unfolding(crate::specs::Rules::offset_rule))]
    fn offset_rule(&self, channel: ChannelId, g: u16, slot: u8) -> Option<Code>
        ensures { result ≡ offset_rule self.now.job channel g slot }
    {
        if !self.has_channel(channel) {
            Some(Code::NotDeclared)
        } else if self.has_offset(channel, g, slot) {
            Some(Code::DeclaredTwice)
        } else {
            None
        }
    }

    /// What a TOOL line breaks.
    #[tactic(auto, unfolding(crate::specs::Rules::tool_rule))]
    fn tool_rule(&self, channel: ChannelId, edge: GivenEdge) -> Option<Code>
        ensures { result ≡ tool_rule self.now.job channel edge }
    {
        if !self.has_channel(channel) {
            Some(Code::NotDeclared)
        } else if self.tools.has(channel, edge.tool, edge.edge) {
            Some(Code::DeclaredTwice)
        } else {
            None
        }
    }

    /// A direction with the axis that its name names.
    #[tactic(auto, unfolding(crate::specs::Rules::side_of))]
    pub(crate) fn side_of(&self, side: NamedSide) -> Option<Side>
        ensures { result ≡ side_of self.now.job.axes side }
    {
        match side.carrier {
            Some((name, minus)) => match self.axis_of(name) {
                Some(axis) => Some(side_with(side, Some((axis, minus)))),
                None => None,
            },
            None => Some(side_with(side, None)),
        }
    }

    /// Whether the carrier of the direction has this owner, if there is a carrier.
    #[tactic(auto, unfolding(crate::specs::Rules::owns_carrier))]
    fn owns_carrier(&self, holder: Option<ChannelId>, side: Side) -> bool
        ensures { result ≡ owns_carrier self.now.job holder side }
    {
        match side.carrier {
            Some((axis, _)) => self.owns(holder, axis),
            None => true,
        }
    }

    /// What the directions of a zone break.
    #[tactic(auto, unfolding(crate::specs::Rules::sides_rule))]
    fn sides_rule(&self, holder: Option<ChannelId>, x: Side, y: Side, z: Side) -> Option<Code>
        ensures { result ≡ sides_rule self.now.job holder x y z }
    {
        if same_axis(x, y) || same_axis(x, z) || same_axis(y, z) {
            Some(Code::DeclaredTwice)
        } else if !(self.owns_carrier(holder, x)
            && self.owns_carrier(holder, y)
            && self.owns_carrier(holder, z))
        {
            Some(Code::OwnerDiffers)
        } else {
            None
        }
    }

    /// What a ZONE line breaks whose carriers are declared.
    #[tactic(auto, unfolding(crate::specs::Rules::zone_rule))]
    fn carried_zone_rule(&self, zone: &NamedZone, x: Side, y: Side, z: Side) -> Option<Code>
        ensures { result ≡ zone_rule self.now.job zone.now.zone zone.now.holder (Some x) (Some y) (Some z) }
    {
        if !self.has_owner(zone.holder) {
            Some(Code::NotDeclared)
        } else if self.has_zone(zone.zone) {
            Some(Code::DeclaredTwice)
        } else {
            self.sides_rule(zone.holder, x, y, z)
        }
    }

    /// What a ZONE line breaks.
    #[tactic(auto, unfolding(crate::specs::Rules::zone_rule))]
    fn zone_rule(&self, zone: &NamedZone) -> Option<Code>
        ensures { result ≡ zone_rule self.now.job zone.now.zone zone.now.holder (side_of self.now.job.axes zone.now.x)
            (side_of self.now.job.axes zone.now.y) (side_of self.now.job.axes zone.now.z) }
    {
        match (
            self.side_of(zone.x),
            self.side_of(zone.y),
            self.side_of(zone.z),
        ) {
            (Some(x), Some(y), Some(z)) => self.carried_zone_rule(zone, x, y, z),
            _ => Some(Code::NotDeclared),
        }
    }

    /// What a job line breaks: what must be declared before it, and what is declared already.
    #[tactic(auto, unfolding(crate::specs::Rules::declaration_rule))]
    pub(crate) fn declaration_rule(&self, declaration: &Declaration) -> Option<Code>
        ensures { result ≡ declaration_rule self.now.options self.now.job declaration.now }
    {
        match declaration {
            Declaration::Channel { channel, .. } => self.channel_rule(*channel),
            Declaration::Axis { name, owner, .. } => self.axis_rule(*name, *owner),
            Declaration::Geo {
                channel,
                slot,
                axis,
            } => self.slot_rule(*channel, *slot, self.axis_of(*axis)),
            Declaration::Offset {
                channel,
                g,
                slot,
                ..
            } => self.offset_rule(*channel, *g, *slot),
            Declaration::Zone(zone) => self.zone_rule(zone),
            Declaration::Tool { channel, edge } => self.tool_rule(*channel, *edge),
            Declaration::Margin(_) => option_rule(self.options.margin),
            Declaration::Depth(_) => option_rule(self.options.depth),
            Declaration::Budget(_) => option_rule(self.options.budget),
            Declaration::Compensation => option_rule(self.job.compensation),
            Declaration::Skip => option_rule(self.job.skip),
        }
    }
}
