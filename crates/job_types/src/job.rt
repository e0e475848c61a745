//! A job: what its lines declare, and its programs.
use axis_sets::{AxisId, ChannelId, ZoneId};
use indexmap::IndexMap;
use micro_units::Um;
use nc_blocks::NameText;
use nc_control_flow::Flow;
use nc_variables::VarTable;
use std::marker::Model;
use tool_offsets::Tools;

/// An accepted job: the lines of its job list in their order, and its library of programs in the order of the input.
#[derive(Drop)]
pub struct Job {
    /// The version of its job list.
    pub version: u8,
    /// Its number among the jobs of the input, counted from 1.
    pub number: u8,
    /// The line of the input that is its job line, counted from 1.
    pub line: u32,
    /// The channels.
    pub channels: Vec<ChannelLine>,
    /// The axes; an axis is named by its place here.
    pub axes: Vec<AxisLine>,
    /// The slots of the channels.
    pub geo: Vec<GeoLine>,
    /// The settable offsets; one that no line gives is 0.
    pub offsets: Vec<OffsetLine>,
    /// The protection zones.
    pub zones: Vec<ZoneLine>,
    /// By how much each zone is grown at both ends of each direction, 0 to 1,000 millimetres; 0 where no line gives it.
    pub margin: Um,
    /// How often a motion is halved to be compared in pieces, 0 to 4; 0 where no line gives it.
    pub depth: u8,
    /// How many pairs of boxes may be compared, 1 to 100,000,000; 1,000,000 where no line gives it.
    pub budget: u32,
    /// Whether the programs may have G41 and G42.
    pub compensation: bool,
    /// Whether blocks that begin with `/` are left out.
    pub skip: bool,
    /// The tools of each channel that has any, in ascending order of the channels.
    pub tools: Vec<(ChannelId, Tools)>,
    /// Whether the least time in which the job is done is told.
    pub timeline: bool,
    /// The feeds of channels in millimetres per minute, 1 to 1,000,000; one that no line gives is 1000.
    pub feeds: Vec<(ChannelId, u32)>,
    /// How long each motion of a block takes in a channel: the channel, the line of the block, the milliseconds.
    pub times: Vec<(ChannelId, u32, u32)>,
    /// The programs by their names.
    pub programs: IndexMap<NameText, Program>,
}

impl Model for Job {
    ghost use Rattle.std.specs.Coded.{codes};
    ghost use Rattle.job_types.specs.TreeCode.{tree_code};
    ghost use Rattle.job_types.specs.Job.{JobView};

    ghost Value = { JobView };

    ghost coded = { Prim.hlevel (codes, tree_code) };

    ghost view = { λ j. record {
      version = j.version;
      number = j.number;
      line = j.line;
      channels = j.channels.items;
      axes = j.axes.items;
      geo = j.geo.items;
      offsets = j.offsets.items;
      zones = j.zones.items;
      margin = j.margin;
      depth = j.depth;
      budget = j.budget;
      compensation = j.compensation;
      skip = j.skip;
      tools = j.tools.items;
      timeline = j.timeline;
      feeds = j.feeds.items;
      times = j.times.items;
      programs = j.programs.entries;
    } };
}

/// A CHANNEL line.
#[derive(Drop)]
pub struct ChannelLine {
    /// The line of the input, counted from 1.
    pub line: u32,
    /// The channel that it declares.
    pub channel: ChannelId,
    /// The name of the selected program in upper case, at most its first 32 bytes.
    pub program: Option<NameText>,
    /// Whether the channel starts running.
    pub starts: bool,
}

/// An AXIS line.
#[derive(Clone, Copy, PartialEq, Eq)]
pub struct AxisLine {
    /// The line of the input, counted from 1.
    pub line: u32,
    /// The letter of the axis' name, in upper case.
    pub letter: u8,
    /// The number of the axis' name, 1 to 99.
    pub number: u8,
    /// The channel that owns the axis at the start, or none.
    pub owner: Option<ChannelId>,
    /// The position at the start.
    pub at: Um,
}

/// A GEO line: an axis stands in a slot of a channel.
#[derive(Clone, Copy, PartialEq, Eq)]
pub struct GeoLine {
    /// The line of the input, counted from 1.
    pub line: u32,
    /// The channel.
    pub channel: ChannelId,
    /// The slot: 0 for X, 1 for Y, 2 for Z.
    pub slot: u8,
    /// The axis.
    pub axis: AxisId,
}

/// An OFFSET line: a settable offset of a slot of a channel.
#[derive(Clone, Copy, PartialEq, Eq)]
pub struct OffsetLine {
    /// The line of the input, counted from 1.
    pub line: u32,
    /// The channel.
    pub channel: ChannelId,
    /// The number of the G word that selects it, 54 to 57 or 505 to 599.
    pub g: u16,
    /// The slot: 0 for X, 1 for Y, 2 for Z.
    pub slot: u8,
    /// The offset, at most 10,000 millimetres in size.
    pub by: Um,
}

/// A ZONE line.
#[derive(Clone, Copy, PartialEq, Eq)]
pub struct ZoneLine {
    /// The line of the input, counted from 1.
    pub line: u32,
    /// The zone that it declares.
    pub zone: ZoneId,
    /// Its group, 1 to 32; zones of one group are not compared.
    pub group: u8,
    /// The channel that holds it, or none.
    pub holder: Option<ChannelId>,
    /// Whether it is on at the start.
    pub on: bool,
    /// Its three directions.
    pub sides: [Side; 3],
}

/// A direction of a zone: a range that an axis carries, or that stands still.
#[derive(Clone, Copy, PartialEq, Eq)]
pub struct Side {
    /// The axis that carries it, with true where it goes against the axis.
    pub carrier: Option<(AxisId, bool)>,
    /// The lower end, as seen from the carrier.
    pub lo: Um,
    /// The upper end.
    pub hi: Um,
}

/// A program.
#[derive(Drop)]
pub struct Program {
    /// The line of its header, counted from 1.
    pub line: u32,
    /// Its blocks, each with the line of the input that it is, and what follows each of them.
    pub flow: Flow,
    /// Its variables.
    pub table: VarTable,
}

impl Model for Program {
    ghost use Rattle.std.specs.Prelude.{map};
    ghost use Rattle.std.specs.Coded.{codes};
    ghost use Rattle.job_types.specs.TreeCode.{tree_code};
    ghost use Rattle.job_types.specs.Job.{ProgramView, block_entry};

    ghost Value = { ProgramView };

    ghost coded = { Prim.hlevel (codes, tree_code) };

    ghost view = { λ p. record { line = p.line; blocks = map block_entry p.flow; table = p.table } };
}
