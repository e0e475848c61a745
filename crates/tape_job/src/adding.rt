//! What a line adds to a job.
use crate::draft::Draft;
use crate::reading::{LineFault, Reading};
use axis_sets::ChannelId;
use job_lines::{AxisName, Declaration, GivenEdge, NamedZone};
use job_types::{AxisLine, ChannelLine, GeoLine, OffsetLine, ZoneLine};
use micro_units::Um;
use nc_blocks::NameText;
use std::alloc::{AllocError, Global};
use tool_offsets::{Lengths, ToolEdge};

impl Draft {
    ghost use Rattle.std.specs.Prelude.{◌≡◌, ◌<◌, ◌^◌, [], ◌∷◌, ◌++◌, Ok, OnOk, IfErr, None};
    ghost use Rattle.tape_job.specs.Read.{code_by};
    ghost use Rattle.tape_job.specs.Reading.{DeclarationLine, reading_view, FaultIsListed};
    ghost use Rattle.tape_job.specs.Rules.{axis_of, side_of, last_count, rule_of};
    ghost use Rattle.tape_job.specs.Steps.{with_entry, with_edge, draft_with, Adds};
    ghost use Rattle.tape_job.specs.Told.{geo_line, tool_edge, zone_line};

    /// Adds a channel.
    fn add_channel(
        &mut self,
        line: u32,
        channel: ChannelId,
        program: Option<NameText>,
        starts: bool,
    ) -> Result<(), AllocError>
        ensures { OnOk result (self.new ≡ record self.old {
          job = record self.old.job {
            channels = self.old.job.channels
                ++ record { line = line; channel = channel; program = program; starts = starts } ∷ [];
          };
        }) }
    {
        self.job.channels.push(ChannelLine {
            line,
            channel,
            program,
            starts,
        })?;
        Ok(())
    }

    /// Adds an axis.
    fn add_axis(
        &mut self,
        line: u32,
        name: AxisName,
        owner: Option<ChannelId>,
        at: Um,
    ) -> Result<(), AllocError>
        ensures { OnOk result (self.new ≡ record self.old {
          job = record self.old.job {
            axes = self.old.job.axes
                ++ record { line = line; letter = name.letter; number = name.number; owner = owner; at = at } ∷ [];
          };
        }) }
    {
        self.job.axes.push(AxisLine {
            line,
            letter: name.letter,
            number: name.number,
            owner,
            at,
        })?;
        Ok(())
    }

    /// Adds a slot, if its axis is there.
    fn add_geo(
        &mut self,
        line: u32,
        channel: ChannelId,
        slot: u8,
        axis: AxisName,
    ) -> Result<(), AllocError>
        ensures { OnOk result (self.new ≡ record self.old {
          job = record self.old.job {
            geo = with_entry
                self.old.job.geo (geo_line line channel slot (axis_of self.old.job.axes axis));
          };
        }) }
    {
        if let Some(axis) = self.axis_of(axis) {
            self.job.geo.push(GeoLine {
                line,
                channel,
                slot,
                axis,
            })?;
        }
        Ok(())
    }

    /// Adds an offset.
    fn add_offset(&mut self, offset: OffsetLine) -> Result<(), AllocError>
        ensures { OnOk result (self.new ≡ record self.old {
          job = record self.old.job { offsets = self.old.job.offsets ++ offset ∷ [] };
        }) }
    {
        self.job.offsets.push(offset)?;
        Ok(())
    }

    /// Adds a zone, if its carriers are there.
    fn add_zone(&mut self, line: u32, zone: NamedZone) -> Result<(), AllocError>
        ensures { OnOk result (self.new ≡ record self.old {
          job = record self.old.job {
            zones = with_entry
                self.old.job.zones (zone_line line zone (side_of self.old.job.axes zone.x)
                (side_of self.old.job.axes zone.y) (side_of self.old.job.axes zone.z));
          };
        }) }
    {
        if let (Some(x), Some(y), Some(z)) = (
            self.side_of(zone.x),
            self.side_of(zone.y),
            self.side_of(zone.z),
        ) {
            self.job.zones.push(ZoneLine {
                line,
                zone: zone.zone,
                group: zone.group,
                holder: zone.holder,
                on: zone.on,
                sides: [x, y, z],
            })?;
        }
        Ok(())
    }

    /// Adds an edge of a tool.
    fn add_tool(
        &mut self,
        alloc: Global,
        channel: ChannelId,
        given: GivenEdge,
    ) -> Result<(), AllocError>
        ensures { OnOk result (self.new ≡ record self.old {
          job = record self.old.job { tools = with_edge self.old.job.tools channel (tool_edge given) };
        }) }
    {
        let edge = ToolEdge {
            tool: given.tool,
            edge: given.edge,
            lengths: Lengths {
                x: given.x,
                z: given.z,
            },
        };
        self.tools.add(alloc, channel, edge)
    }

    /// Adds what a job line says.
    #[tactic(auto, unfolding(crate::specs::Steps::with_line))]
    fn add_declaration(
        &mut self,
        alloc: Global,
        line: u32,
        declaration: Declaration,
    ) -> Result<(), AllocError>
        ensures { OnOk result (self.new ≡ draft_with self.old line (Ok (DeclarationLine declaration))) }
    {
        match declaration {
            Declaration::Channel {
                channel,
                program,
                starts,
            } => self.add_channel(line, channel, program, starts)?,
            Declaration::Axis { name, owner, at } => self.add_axis(line, name, owner, at)?,
            Declaration::Geo {
                channel,
                slot,
                axis,
            } => self.add_geo(line, channel, slot, axis)?,
            Declaration::Offset {
                channel,
                g,
                slot,
                by,
            } => self.add_offset(OffsetLine {
                line,
                channel,
                g,
                slot,
                by,
            })?,
            Declaration::Zone(zone) => self.add_zone(line, zone)?,
            Declaration::Tool { channel, edge } => self.add_tool(alloc, channel, edge)?,
            Declaration::Margin(margin) => {
                self.options.margin = true;
                self.job.margin = margin;
            }
            Declaration::Depth(depth) => {
                self.options.depth = true;
                self.job.depth = depth;
            }
            Declaration::Budget(budget) => {
                self.options.budget = true;
                self.job.budget = budget;
            }
            Declaration::Compensation => self.job.compensation = true,
            Declaration::Skip => self.job.skip = true,
        }
        Ok(())
    }

    /// Adds what a line says that breaks no rule, but that a block may break the structures of its program.
    #[tactic(auto, unfolding(crate::specs::Steps::with_line, crate::specs::Rules::rule_of, crate::specs::Rules::header_rule))]
    pub(crate) fn add(
        &mut self,
        alloc: Global,
        line: u32,
        reading: Reading,
    ) -> Result<(), LineFault>
        requires admitted { rule_of self.old.options self.old.job (reading_view reading) ≡ None }
        requires short { last_count self.old.job.programs < 2 ^ 32 }
        ensures exact { Adds (code_by self.old.options self.old.job line (Ok (reading_view reading)))
            (draft_with self.old line (Ok (reading_view reading))) result self.new }
        ensures listed { IfErr result FaultIsListed }
    {
        match reading {
            Reading::Blank => Ok(()),
            Reading::First => {
                self.job.line = line;
                Ok(())
            }
            Reading::DeclarationLine(declaration) => {
                self.add_declaration(alloc, line, declaration)?;
                Ok(())
            }
            Reading::Header(name) => {
                self.programs.begin(alloc, line, name)?;
                Ok(())
            }
            Reading::BlockLine(block) => self.programs.push(line, block),
        }
    }
}
