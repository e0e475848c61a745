//! What STUCK is told by, as rows.
ghost use Rattle.std.specs.Prelude.{◌≡◌, ◌++◌, ◌<◌, ◌^◌, IfOk, OnOk, [], if◌then◌else◌, length, map};
ghost use Rattle.std.specs.List.{flat_map};
ghost use Rattle.std.specs.Option.{option_to_list};
ghost use Rattle.axis_sets.specs.Sets.{members_of};
ghost use Rattle.order_clocks.specs.Watching.{hold_shown, wait_in};
ghost use Rattle.explain_ends.specs.LastBoards.{IsTold};
ghost use Rattle.explain_stops.specs.Lacks as lack;
ghost use Rattle.explain_stops.specs.MarkTables.{mark_numbers, row_in};
ghost use Rattle.explain_stops.specs.Rows as model;
ghost use Rattle.explain_stops.specs.Stuck.{last_board};
ghost use Rattle.sync_types.specs.Boards.{Board, axis_numbers, channel_numbers};
ghost use Rattle.sync_types.specs.Runs.{ComesFrom};

use crate::lacks::{AskedAxes, Lack, lacked_axis, lacked_end, lacked_mark};
use crate::mark_tables::{is_awaited, row_in};
use crate::numbers::{all_axes, all_channels, all_marks};
use crate::passes::MarkRow;
use crate::remedies::{Remedy, remedy_of};
use axis_sets::{AxisId, ChannelId, ChannelSet};
use explain_ends::{LastBoard, last_board};
use explain_places::Told;
use out_of_memory::NoMemory;
use std::alloc::Global;
use step_deeds::{Hold, NamedMarks};
use sync_types::StartState;

/// Something that a channel lacks which waits for good, and what would end the wait.
#[derive(Clone, Copy, PartialEq, Eq)]
pub struct WaitRow {
    /// The channel that waits.
    pub channel: ChannelId,
    /// The line of the block in which it waits.
    pub line: u32,
    /// What it lacks.
    pub lack: Lack,
    /// What would end the wait.
    pub remedy: Remedy,
}

// ---- what is lacking

/// A list with what is lacking, where something is.
fn push_lack(list: &mut Vec<Lack>, lack: &Option<Lack>) -> Result<(), NoMemory>
    ensures { OnOk result (list.new.items ≡ list.old.items ++ option_to_list lack.now) }
{
    if let Some(lack) = lack {
        list.push(*lack)?;
    }
    Ok(())
}

/// A list with the mark of a channel, where it is waited for and does not stand.
fn push_mark_of(
    list: &mut Vec<Lack>,
    board: &LastBoard,
    marks: &NamedMarks,
    channel: ChannelId,
) -> Result<(), NoMemory>
    ensures { OnOk result ((b : Board) → IsTold board.now b
        → list.new.items ≡ list.old.items ++ option_to_list
        (lack.lacked_mark b marks.now.number (members_of marks.now.named) channel)) }
{
    let lacked = lacked_mark(board, marks, channel);
    push_lack(list, &lacked)?;
    Ok(())
}

/// A list with the marks that are lacking.
fn push_marks(list: &mut Vec<Lack>, board: &LastBoard, marks: &NamedMarks) -> Result<(), NoMemory>
    ensures { OnOk result ((b : Board) → IsTold board.now b → list.new.items ≡ list.old.items
        ++ flat_map (λ channel. option_to_list (lack.lacked_mark b marks.now.number
        (members_of marks.now.named) channel)) channel_numbers) }
{
    let all = all_channels();
    for channel in &all {
        push_mark_of(list, board, marks, *channel)?;
    }
    Ok(())
}

/// A list with the end of a channel's program, where it is waited for and the program has not ended.
fn push_end_of(
    list: &mut Vec<Lack>,
    told: &Told,
    own: ChannelId,
    named: &ChannelSet,
    channel: ChannelId,
) -> Result<(), NoMemory>
    ensures { OnOk result (list.new.items ≡ list.old.items
        ++ option_to_list (lack.lacked_end told.now.job.now told.now.run.now own (members_of named.now) channel)) }
{
    let lacked = lacked_end(told, own, named, channel);
    push_lack(list, &lacked)?;
    Ok(())
}

/// A list with the ends of programs that are lacking.
fn push_ends(
    list: &mut Vec<Lack>,
    told: &Told,
    own: ChannelId,
    named: &ChannelSet,
) -> Result<(), NoMemory>
    ensures { OnOk result (list.new.items ≡ list.old.items
        ++ flat_map (λ channel. option_to_list (lack.lacked_end told.now.job.now told.now.run.now own
        (members_of named.now) channel)) channel_numbers) }
{
    let all = all_channels();
    for channel in &all {
        push_end_of(list, told, own, named, *channel)?;
    }
    Ok(())
}

/// A list with an axis, where it is asked for and another channel owns it.
fn push_axis_of(
    list: &mut Vec<Lack>,
    board: &LastBoard,
    asked: &AskedAxes,
    axis: AxisId,
) -> Result<(), NoMemory>
    ensures { OnOk result ((b : Board) → IsTold board.now b
        → list.new.items ≡ list.old.items ++ option_to_list
        (lack.lacked_axis b asked.now.own (members_of asked.now.axes) axis)) }
{
    let lacked = lacked_axis(board, asked, axis);
    push_lack(list, &lacked)?;
    Ok(())
}

/// A list with the axes that are lacking.
fn push_axes(list: &mut Vec<Lack>, board: &LastBoard, asked: &AskedAxes) -> Result<(), NoMemory>
    ensures { OnOk result ((b : Board) → IsTold board.now b → list.new.items ≡ list.old.items
        ++ flat_map (λ axis. option_to_list (lack.lacked_axis b asked.now.own (members_of asked.now.axes) axis))
        axis_numbers) }
{
    let all = all_axes();
    for axis in &all {
        push_axis_of(list, board, asked, *axis)?;
    }
    Ok(())
}

/// A list with all that a channel lacks which waits so.
fn push_lacks(
    list: &mut Vec<Lack>,
    told: &Told,
    board: &LastBoard,
    own: ChannelId,
    hold: &Hold,
) -> Result<(), NoMemory>
    ensures { OnOk result ((b : Board) → IsTold board.now b
        → list.new.items ≡ list.old.items ++ lack.lacks_of told.now.job.now told.now.run.now
        b own (hold_shown hold.now)) }
{
    match hold {
        Hold::Marks(number, named) => {
            let marks = NamedMarks {
                number: *number,
                named: *named,
            };
            push_marks(list, board, &marks)?;
            Ok(())
        }
        Hold::Ends(named) => {
            push_ends(list, told, own, named)?;
            Ok(())
        }
        Hold::Axes(axes) => {
            push_axes(list, board, &AskedAxes { own, axes: *axes })?;
            Ok(())
        }
    }
}

/// All that a channel lacks which waits so.
fn lacks_of(
    alloc: Global,
    told: &Told,
    board: &LastBoard,
    own: ChannelId,
    hold: &Hold,
) -> Result<Vec<Lack>, NoMemory>
    ensures { IfOk result (λ list. (b : Board) → IsTold board.now b
        → list.items ≡ lack.lacks_of told.now.job.now told.now.run.now b own (hold_shown hold.now)) }
{
    let mut list = Vec::new(alloc);
    push_lacks(&mut list, told, board, own, hold)?;
    Ok(list)
}

/// A row for something that a channel lacks which waits in a line.
fn wait_row(told: &Told, channel: ChannelId, line: u32, lack: &Lack) -> WaitRow
    ensures { result ≡ model.wait_row told.now.job.now told.now.run.now channel line lack.now }
{
    WaitRow {
        channel,
        line,
        lack: *lack,
        remedy: remedy_of(told, lack),
    }
}

/// A list with a row for each thing that a channel lacks.
fn push_rows(
    list: &mut Vec<WaitRow>,
    told: &Told,
    channel: ChannelId,
    line: u32,
    lacks: &[Lack],
) -> Result<(), NoMemory>
    ensures { OnOk result (list.new.items ≡ list.old.items
        ++ map (model.wait_row told.now.job.now told.now.run.now channel line) lacks.now) }
{
    for lack in lacks {
        list.push(wait_row(told, channel, line, lack))?;
    }
    Ok(())
}

/// A list with rows for a channel of a board, where it waits.
fn push_wait(
    list: &mut Vec<WaitRow>,
    alloc: Global,
    told: &Told,
    board: &LastBoard,
    channel: ChannelId,
) -> Result<(), NoMemory>
    ensures { OnOk result ((b : Board) → IsTold board.now b
        → list.new.items ≡ list.old.items ++ model.rows_of_wait told.now.job.now told.now.run.now b channel
        (wait_in (b.state channel))) }
{
    let held = board.hold_of(channel);
    match &held {
        Some(held) => {
            let lacks = lacks_of(alloc, told, board, channel, &held.hold)?;
            push_rows(list, told, channel, held.line, lacks.as_slice())?;
            Ok(())
        }
        None => Ok(()),
    }
}

/// A list with rows for all channels of a board that wait.
fn push_waits(
    list: &mut Vec<WaitRow>,
    alloc: Global,
    told: &Told,
    board: &LastBoard,
) -> Result<(), NoMemory>
    ensures { OnOk result ((b : Board) → IsTold board.now b → list.new.items ≡ list.old.items
        ++ flat_map (λ channel. model.rows_of_wait told.now.job.now told.now.run.now b channel
        (wait_in (b.state channel))) channel_numbers) }
{
    let all = all_channels();
    for channel in &all {
        push_wait(list, alloc, told, board, *channel)?;
    }
    Ok(())
}

/// What each channel lacks that waits for good when the run is over, the lowest channel first: a row for each mark that does
/// not stand, each axis that another channel owns and each program that has not ended, of all that its wait names. The start
/// and the run are those of the job. The only error is want of memory.
#[tactic(auto, unfolding(crate::specs::Rows::wait_rows))]
pub fn wait_rows(alloc: Global, told: &Told, start: &StartState) -> Result<Vec<WaitRow>, NoMemory>
    requires few { length told.now.run.now.entries < 2 ^ 32 }
    requires whole { ComesFrom start.now told.now.run.now }
    ensures { IfOk result (λ list. list.items ≡ model.wait_rows told.now.job.now told.now.run.now
        (last_board start.now told.now.run.now)) }
{
    let board = last_board(start, told.run);
    let mut list = Vec::new(alloc);
    push_waits(&mut list, alloc, told, &board)?;
    Ok(list)
}

// ---- marks

/// A list with a row more, where there is one.
fn push_row(list: &mut Vec<MarkRow>, row: &Option<MarkRow>) -> Result<(), NoMemory>
    ensures { OnOk result (list.new.items ≡ list.old.items ++ option_to_list row.now) }
{
    if let Some(row) = row {
        list.push(*row)?;
    }
    Ok(())
}

/// A list with a row for a mark number in a channel, where the job has the channel.
fn push_channel(
    list: &mut Vec<MarkRow>,
    told: &Told,
    mark: u8,
    channel: ChannelId,
) -> Result<(), NoMemory>
    ensures { OnOk result (list.new.items ≡ list.old.items
        ++ option_to_list (row_in told.now.job.now told.now.run.now mark channel)) }
{
    let row = row_in(told, mark, channel);
    push_row(list, &row)?;
    Ok(())
}

/// A list with a row for a mark number in each channel of the job.
fn push_channels(list: &mut Vec<MarkRow>, told: &Told, mark: u8) -> Result<(), NoMemory>
    ensures { OnOk result (list.new.items ≡ list.old.items
        ++ flat_map (λ channel. option_to_list (row_in told.now.job.now told.now.run.now mark channel))
        channel_numbers) }
{
    let all = all_channels();
    for channel in &all {
        push_channel(list, told, mark, *channel)?;
    }
    Ok(())
}

/// The same where a channel waits for marks of this number.
fn push_channels_if(
    list: &mut Vec<MarkRow>,
    told: &Told,
    awaited: bool,
    mark: u8,
) -> Result<(), NoMemory>
    ensures { OnOk result (list.new.items ≡ list.old.items
        ++ (if awaited then flat_map (λ channel. option_to_list (row_in told.now.job.now told.now.run.now mark channel))
        channel_numbers else [])) }
{
    if awaited {
        push_channels(list, told, mark)?;
    }
    Ok(())
}

/// The same where a channel of a board does.
fn push_mark(
    list: &mut Vec<MarkRow>,
    told: &Told,
    board: &LastBoard,
    mark: u8,
) -> Result<(), NoMemory>
    ensures { OnOk result ((b : Board) → IsTold board.now b → list.new.items ≡ list.old.items
        ++ model.rows_of_mark told.now.job.now told.now.run.now b mark) }
{
    let awaited = is_awaited(board, mark);
    push_channels_if(list, told, awaited, mark)?;
    Ok(())
}

/// A list with rows for all mark numbers for which channels of a board wait.
fn push_all_marks(list: &mut Vec<MarkRow>, told: &Told, board: &LastBoard) -> Result<(), NoMemory>
    ensures { OnOk result ((b : Board) → IsTold board.now b
        → list.new.items ≡ list.old.items ++ flat_map
        (model.rows_of_mark told.now.job.now told.now.run.now b) mark_numbers) }
{
    let all = all_marks();
    for mark in &all {
        push_mark(list, told, board, *mark)?;
    }
    Ok(())
}

/// The mark numbers for which channels wait for good when the run is over, ascending, each in every channel of the job. The
/// start and the run are those of the job. The only error is want of memory.
#[tactic(auto, unfolding(crate::specs::Rows::mark_rows))]
pub fn mark_rows(alloc: Global, told: &Told, start: &StartState) -> Result<Vec<MarkRow>, NoMemory>
    requires few { length told.now.run.now.entries < 2 ^ 32 }
    requires whole { ComesFrom start.now told.now.run.now }
    ensures { IfOk result (λ list. list.items ≡ model.mark_rows told.now.job.now told.now.run.now
        (last_board start.now told.now.run.now)) }
{
    let board = last_board(start, told.run);
    let mut list = Vec::new(alloc);
    push_all_marks(&mut list, told, &board)?;
    Ok(list)
}
