//! What is taken for granted of a channel.
ghost use Rattle.std.specs.Prelude.{◌≡◌, ◌==◌, ◌++◌, List, OnOk};
ghost use Rattle.std.specs.List.{flat_map, list_any, range_with_len};
ghost use Rattle.axis_sets.specs.declared.limits.TheConstants.{AXIS_LIMIT};
ghost use Rattle.nc_expressions.specs.declared.limits.TheConstants.{PARAMETER_LIMIT};
ghost use Rattle.explain_assumptions.specs.Firsts.{AreFirsts, first_with, parameter_of, word_of};
ghost use Rattle.explain_assumptions.specs.Rows as model;
ghost use Rattle.explain_assumptions.specs.declared.remarks.Remark.{Remark};

use crate::counts::{tool_count, tool_offset_count};
use crate::firsts::{first_at, first_of_x, parameter_firsts, word_firsts};
use crate::movers::{Mover, mover_of};
use crate::remarks::{Remark, RemarkKind};
use axis_sets::{AXIS_LIMIT, AxisId, ChannelId};
use job_types::{Job, OffsetLine, slot_axis};
use nc_expressions::PARAMETER_LIMIT;
use out_of_memory::NoMemory;
use std::alloc::{AllocError, Global};

/// The number of the word after which no settable offset is chosen, G500.
pub(crate) const NO_OFFSET: u16 = 500;

/// What a run takes for granted of a channel.
#[derive(Clone, Copy)]
pub enum Assumption {
    /// X is a radius: the block on this line is the first that programs X, and no block up to it says DIAMON, DIAM90 or DIAMOF.
    Radius(u32),
    /// No settable offset holds, though the job has OFFSET lines for the channel: the block on this line is the first that moves
    /// axes under G500.
    NoOffset(u32),
    /// The OFFSET line on this line of the job list counts nowhere: no block moves axes under its word.
    UnusedOffset(u32),
    /// The parameter of this number, 0 to 999, is 0: the block on this line is the first that reads it, and none before has set it.
    Zero(u16, u32),
    /// The axis stands where its AXIS line puts it up to the block on this line, which is the first of the run that moves it.
    Standing(AxisId, u32),
    /// So many executed blocks have T words, which move nothing, since the job has no TOOL line for the channel.
    Tools(usize),
    /// So many executed blocks have D words, which move nothing for that reason too.
    ToolOffsets(usize),
}

/// What a run takes for granted, and of which channel.
#[derive(Clone, Copy)]
pub struct Assumed {
    /// The channel.
    pub channel: ChannelId,
    /// What is taken for granted.
    pub what: Assumption,
}

/// Adds what is taken for granted of a channel.
fn add(channel: ChannelId, what: Assumption, rows: &mut Vec<Assumed>) -> Result<(), AllocError>
    ensures { OnOk result (rows.new.items ≡ rows.old.items ++ model.assumed channel what) }
{
    rows.push(Assumed { channel, what })?;
    Ok(())
}

/// Adds that X is a radius, where this is the first remark about X.
fn add_radius_by(
    channel: ChannelId,
    first: Option<Remark>,
    rows: &mut Vec<Assumed>,
) -> Result<(), AllocError>
    ensures { OnOk result (rows.new.items ≡ rows.old.items ++ model.radius_by channel first) }
{
    let Some(remark) = first else {
        return Ok(());
    };
    match remark.kind {
        RemarkKind::ProgramsX => add(channel, Assumption::Radius(remark.line), rows),
        RemarkKind::SaysDiameters
        | RemarkKind::Reads(_)
        | RemarkKind::Sets(_)
        | RemarkKind::MovesUnder(_)
        | RemarkKind::HasTool
        | RemarkKind::HasToolOffset => Ok(()),
    }
}

/// Adds that X is a radius, where the channel has an axis in slot X.
fn add_radius(
    job: &Job,
    channel: ChannelId,
    remarks: &[Remark],
    rows: &mut Vec<Assumed>,
) -> Result<(), AllocError>
    ensures { OnOk result (rows.new.items ≡ rows.old.items ++ model.radius_rows job.now channel remarks.now) }
{
    match slot_axis(job, channel, 0) {
        Some(_) => add_radius_by(channel, first_of_x(remarks), rows),
        None => Ok(()),
    }
}

/// Whether the job has an OFFSET line for a channel.
#[tactic(auto, unfolding(crate::specs::Rows::has_offsets))]
fn has_offsets(job: &Job, channel: ChannelId) -> bool
    ensures { result ≡ model.has_offsets job.now channel }
{
    job.offsets.iter().any(|line| line.channel == channel)
}

/// Adds that no settable offset holds, where this is the first motion under G500 of a channel for which the job has some.
fn add_no_offset(
    job: &Job,
    channel: ChannelId,
    first: Option<Remark>,
    rows: &mut Vec<Assumed>,
) -> Result<(), AllocError>
    ensures { OnOk result (rows.new.items ≡ rows.old.items ++ model.no_offset_rows job.now channel first) }
{
    if !has_offsets(job, channel) {
        return Ok(());
    }
    match first {
        Some(remark) => add(channel, Assumption::NoOffset(remark.line), rows),
        None => Ok(()),
    }
}

/// Whether an OFFSET line is of a channel.
fn is_of(line: &OffsetLine, channel: ChannelId) -> bool
    ensures { result ≡ (line.now.channel == channel) }
{
    line.channel == channel
}

/// Adds that an OFFSET line counts nowhere, where it is of the channel and there is no motion under its word.
fn add_unused(
    channel: ChannelId,
    line: &OffsetLine,
    first: Option<Remark>,
    rows: &mut Vec<Assumed>,
) -> Result<(), AllocError>
    ensures { OnOk result (rows.new.items ≡ rows.old.items ++ model.unused_rows channel line.now first) }
{
    if !is_of(line, channel) {
        return Ok(());
    }
    match first {
        Some(_) => Ok(()),
        None => add(channel, Assumption::UnusedOffset(line.line), rows),
    }
}

/// Adds which OFFSET lines count nowhere. The table has the first motion under each word.
fn add_all_unused(
    job: &Job,
    channel: ChannelId,
    table: &[Option<Remark>],
    rows: &mut Vec<Assumed>,
) -> Result<(), AllocError>
    ensures { OnOk result ((remarks : List Remark) → AreFirsts word_of remarks table.now
        → rows.new.items ≡ rows.old.items
        ++ flat_map (λ line. model.unused_rows channel line (first_with word_of line.g remarks)) job.now.offsets) }
{
    for line in &job.offsets {
        add_unused(channel, line, first_at(table, line.g), rows)?;
    }
    Ok(())
}

/// Adds what is taken for granted of settable offsets.
fn add_offsets(
    alloc: Global,
    job: &Job,
    channel: ChannelId,
    remarks: &[Remark],
    rows: &mut Vec<Assumed>,
) -> Result<(), NoMemory>
    ensures { OnOk result (rows.new.items ≡ rows.old.items ++ model.offset_rows job.now channel remarks.now) }
{
    let firsts = word_firsts(alloc, remarks)?;
    let table = firsts.as_slice();
    add_no_offset(job, channel, first_at(table, NO_OFFSET), rows)?;
    add_all_unused(job, channel, table, rows)?;
    Ok(())
}

/// Adds that a parameter is 0, where this is the first remark about it.
fn add_zero(
    channel: ChannelId,
    number: u16,
    first: Option<Remark>,
    rows: &mut Vec<Assumed>,
) -> Result<(), AllocError>
    ensures { OnOk result (rows.new.items ≡ rows.old.items ++ model.zero_rows channel number first) }
{
    let Some(remark) = first else {
        return Ok(());
    };
    match remark.kind {
        RemarkKind::Reads(_) => add(channel, Assumption::Zero(number, remark.line), rows),
        RemarkKind::SaysDiameters
        | RemarkKind::ProgramsX
        | RemarkKind::Sets(_)
        | RemarkKind::MovesUnder(_)
        | RemarkKind::HasTool
        | RemarkKind::HasToolOffset => Ok(()),
    }
}

/// Adds which parameters are 0. The table has the first remark about each.
fn add_zeros(
    channel: ChannelId,
    table: &[Option<Remark>],
    rows: &mut Vec<Assumed>,
) -> Result<(), AllocError>
    ensures { OnOk result ((remarks : List Remark) → AreFirsts parameter_of remarks table.now
        → rows.new.items ≡ rows.old.items ++ model.parameter_rows channel remarks) }
{
    for number in 0..PARAMETER_LIMIT {
        add_zero(channel, number, first_at(table, number), rows)?;
    }
    Ok(())
}

/// Adds what is taken for granted of parameters.
fn add_parameters(
    alloc: Global,
    channel: ChannelId,
    remarks: &[Remark],
    rows: &mut Vec<Assumed>,
) -> Result<(), NoMemory>
    ensures { OnOk result (rows.new.items ≡ rows.old.items ++ model.parameter_rows channel remarks.now) }
{
    let firsts = parameter_firsts(alloc, remarks)?;
    let table = firsts.as_slice();
    add_zeros(channel, table, rows)?;
    Ok(())
}

/// Whether a channel moves an axis first.
fn is_first(mover: &Mover, channel: ChannelId) -> bool
    ensures { result ≡ (mover.now.channel == channel) }
{
    mover.channel == channel
}

/// Adds that an axis stands up to a block, where this channel moves it first.
fn add_standing(
    channel: ChannelId,
    axis: AxisId,
    first: Option<Mover>,
    rows: &mut Vec<Assumed>,
) -> Result<(), AllocError>
    ensures { OnOk result (rows.new.items ≡ rows.old.items ++ model.standing_rows channel axis first) }
{
    let Some(mover) = first else {
        return Ok(());
    };
    if is_first(&mover, channel) {
        add(channel, Assumption::Standing(axis, mover.line), rows)
    } else {
        Ok(())
    }
}

/// Adds up to which blocks the AXIS positions count, where these move the axes first.
fn add_positions(
    firsts: &[Option<Mover>],
    channel: ChannelId,
    rows: &mut Vec<Assumed>,
) -> Result<(), AllocError>
    ensures { OnOk result (rows.new.items ≡ rows.old.items ++ model.position_rows firsts.now channel) }
{
    for index in 0..AXIS_LIMIT as u8 {
        let axis = AxisId { index };
        add_standing(channel, axis, mover_of(firsts, axis), rows)?;
    }
    Ok(())
}

/// Adds how many blocks have T words, if any has.
fn add_tools(channel: ChannelId, count: usize, rows: &mut Vec<Assumed>) -> Result<(), AllocError>
    ensures { OnOk result (rows.new.items ≡ rows.old.items ++ model.tool_rows channel count) }
{
    if count == 0 {
        Ok(())
    } else {
        add(channel, Assumption::Tools(count), rows)
    }
}

/// Adds how many blocks have D words, if any has.
fn add_tool_offsets(
    channel: ChannelId,
    count: usize,
    rows: &mut Vec<Assumed>,
) -> Result<(), AllocError>
    ensures { OnOk result (rows.new.items ≡ rows.old.items ++ model.tool_offset_rows channel count) }
{
    if count == 0 {
        Ok(())
    } else {
        add(channel, Assumption::ToolOffsets(count), rows)
    }
}

/// Whether the job has a TOOL line for a channel.
#[tactic(auto, unfolding(crate::specs::Rows::has_tools))]
fn has_tools(job: &Job, channel: ChannelId) -> bool
    ensures { result ≡ model.has_tools job.now channel }
{
    job.tools.iter().any(|tools| tools.0 == channel)
}

/// Adds how many blocks have words that move nothing, where the job has no TOOL line for the channel.
fn add_counts(
    job: &Job,
    channel: ChannelId,
    remarks: &[Remark],
    rows: &mut Vec<Assumed>,
) -> Result<(), AllocError>
    ensures { OnOk result (rows.new.items ≡ rows.old.items ++ model.count_rows job.now channel remarks.now) }
{
    if has_tools(job, channel) {
        return Ok(());
    }
    add_tools(channel, tool_count(remarks), rows)?;
    add_tool_offsets(channel, tool_offset_count(remarks), rows)
}

/// Adds what is taken for granted by what the blocks of a channel say on which these are the remarks.
#[tactic(auto, unfolding(crate::specs::Rows::said_rows))]
pub(crate) fn add_said(
    alloc: Global,
    job: &Job,
    channel: ChannelId,
    remarks: &[Remark],
    rows: &mut Vec<Assumed>,
) -> Result<(), NoMemory>
    ensures { OnOk result (rows.new.items ≡ rows.old.items ++ model.said_rows job.now channel remarks.now) }
{
    add_radius(job, channel, remarks, rows)?;
    add_offsets(alloc, job, channel, remarks, rows)?;
    add_parameters(alloc, channel, remarks, rows)?;
    Ok(())
}

/// Adds what is taken for granted by what moves, where these move the axes first, and by words that move nothing.
#[tactic(auto, unfolding(crate::specs::Rows::done_rows))]
pub(crate) fn add_done(
    job: &Job,
    firsts: &[Option<Mover>],
    channel: ChannelId,
    remarks: &[Remark],
    rows: &mut Vec<Assumed>,
) -> Result<(), NoMemory>
    ensures { OnOk result (rows.new.items ≡ rows.old.items ++ model.done_rows job.now firsts.now channel remarks.now) }
{
    add_positions(firsts, channel, rows)?;
    add_counts(job, channel, remarks, rows)?;
    Ok(())
}
