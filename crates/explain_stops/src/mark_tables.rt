//! The marks that channels wait for, told by channel.
ghost use Rattle.std.specs.Prelude.{◌≡◌, ◌||◌, ◌++◌, [], if◌then◌else◌};
ghost use Rattle.std.specs.List.{flat_map};
ghost use Rattle.order_clocks.specs.Watching.{wait_in, wait_shown};
ghost use Rattle.explain_ends.specs.LastBoards.{IsTold};
ghost use Rattle.explain_stops.specs.MarkTables as model;
ghost use Rattle.sync_types.specs.Boards.{Board, channel_numbers};

use crate::ends::has_channel;
use crate::numbers::{all_channels, all_marks};
use crate::passes::{MarkRow, mark_row};
use axis_sets::ChannelId;
use explain_ends::LastBoard;
use explain_places::{Told, say_channel, say_line};
use growing_text::Text;
use step_deeds::{Hold, WaitAt};

// ---- which marks and channels

/// Whether a wait is for marks of this number.
fn is_for(held: &Option<WaitAt>, mark: u8) -> bool
    ensures { result ≡ model.is_for mark (wait_shown held.now) }
{
    match held {
        Some(held) => match &held.hold {
            Hold::Marks(number, _) => *number == mark,
            Hold::Ends(_) => false,
            Hold::Axes(_) => false,
        },
        None => false,
    }
}

/// Whether one of the two holds.
fn either(first: bool, second: bool) -> bool
    ensures { result ≡ (first || second) }
{
    first || second
}

/// Whether this channel waits for marks of this number, or one before it does.
fn is_awaited_to(board: &LastBoard, mark: u8, before: bool, channel: ChannelId) -> bool
    ensures { (b : Board) → IsTold board.now b → result ≡ (before || model.is_for mark (wait_in (b.state channel))) }
{
    let held = board.hold_of(channel);
    let here = is_for(&held, mark);
    either(before, here)
}

/// Whether a channel waits for marks of this number.
#[tactic(auto, unfolding(crate::specs::MarkTables::is_awaited))]
pub(crate) fn is_awaited(board: &LastBoard, mark: u8) -> bool
    ensures { (b : Board) → IsTold board.now b → result ≡ model.is_awaited b mark }
{
    let all = all_channels();
    let mut awaited = false;
    for channel in &all {
        awaited = is_awaited_to(board, mark, awaited, *channel);
    }
    awaited
}

/// A mark number in a channel of the job; none where the job has not the channel.
#[tactic(auto, unfolding(crate::specs::MarkTables::row_in))]
pub(crate) fn row_in(told: &Told, mark: u8, channel: ChannelId) -> Option<MarkRow>
    ensures { result ≡ model.row_in told.now.job.now told.now.run.now mark channel }
{
    let job = told.job;
    if has_channel(job.channels.as_slice(), channel) {
        Some(mark_row(told, mark, channel))
    } else {
        None
    }
}

// ---- as text

/// Says how often.
#[tactic(auto, unfolding(crate::specs::MarkTables::times_text))]
fn say_times(text: &mut Text, count: usize)
    ensures { text.new ≡ text.old ++ model.times_text count }
{
    if count == 1 {
        text.say("once");
    } else {
        text.number(count as u64);
        text.say(" times");
    }
}

/// Says that a channel stands at such a block, where it does.
#[tactic(auto, unfolding(crate::specs::MarkTables::stands_text))]
fn say_stands(text: &mut Text, stands: bool)
    ensures { text.new ≡ text.old ++ model.stands_text stands }
{
    if stands {
        text.say(", and stands at it");
    }
}

/// Says which block is the first that can raise the mark.
#[tactic(auto, unfolding(crate::specs::MarkTables::first_block_text))]
fn say_first_block(text: &mut Text, told: &Told, block: &Option<u32>)
    ensures { text.new ≡ text.old ++ model.first_block_text told.now.lines.now told.now.job.now block.now }
{
    match block {
        Some(line) => {
            text.say("; the first of its blocks that can raise it is in ");
            say_line(text, told, *line);
        }
        None => text.say("; no block of its programs can raise it"),
    }
}

/// Says how often a channel has gone past a mark number.
#[tactic(auto, unfolding(crate::specs::MarkTables::pass_text))]
fn say_passes(text: &mut Text, row: &MarkRow)
    ensures { text.new ≡ text.old ++ model.pass_text row.now }
{
    text.say("  ");
    say_channel(text, row.channel);
    text.say(" passed it ");
    say_times(text, row.passed);
    say_stands(text, row.stands);
}

/// Says a mark number in a channel.
#[tactic(auto, unfolding(crate::specs::MarkTables::row_text))]
fn say_row(text: &mut Text, told: &Told, row: &MarkRow)
    ensures { text.new ≡ text.old ++ model.row_text told.now.lines.now told.now.job.now row.now }
{
    say_passes(text, row);
    say_first_block(text, told, &row.block);
    text.say("\n");
}

/// Says it where there is one.
#[tactic(auto, unfolding(crate::specs::MarkTables::some_row_text))]
fn say_some_row(text: &mut Text, told: &Told, row: &Option<MarkRow>)
    ensures { text.new ≡ text.old ++ model.some_row_text told.now.lines.now told.now.job.now row.now }
{
    if let Some(row) = row {
        say_row(text, told, row);
    }
}

/// Says a mark number in a channel, where the job has the channel.
fn say_row_of(text: &mut Text, told: &Told, mark: u8, channel: ChannelId)
    ensures { text.new ≡ text.old ++ model.some_row_text told.now.lines.now told.now.job.now
        (model.row_in told.now.job.now told.now.run.now mark channel) }
{
    let row = row_in(told, mark, channel);
    say_some_row(text, told, &row);
}

/// Says a mark number in all channels of the job, each in a line.
fn say_rows(text: &mut Text, told: &Told, mark: u8)
    ensures { text.new ≡ text.old ++ flat_map (λ channel. model.some_row_text told.now.lines.now told.now.job.now
        (model.row_in told.now.job.now told.now.run.now mark channel)) channel_numbers }
{
    let all = all_channels();
    for channel in &all {
        say_row_of(text, told, mark, *channel);
    }
}

/// Says a mark number in all channels of the job.
#[tactic(auto, unfolding(crate::specs::MarkTables::table_text))]
fn say_table(text: &mut Text, told: &Told, mark: u8)
    ensures { text.new ≡ text.old ++ model.table_text told.now.lines.now told.now.job.now told.now.run.now mark }
{
    text.say("Mark ");
    text.number(u64::from(mark));
    text.say(" in each channel\n");
    say_rows(text, told, mark);
}

/// Says it where a channel waits for marks of this number.
fn say_table_if(text: &mut Text, told: &Told, awaited: bool, mark: u8)
    ensures { text.new ≡ text.old ++ (if awaited then model.table_text told.now.lines.now told.now.job.now
        told.now.run.now mark else []) }
{
    if awaited {
        say_table(text, told, mark);
    }
}

/// Says a mark number in all channels of the job, where a channel of a board waits for marks of it.
#[tactic(auto, unfolding(crate::specs::MarkTables::mark_table))]
fn say_table_of(text: &mut Text, told: &Told, board: &LastBoard, mark: u8)
    ensures { (b : Board) → IsTold board.now b
        → text.new ≡ text.old ++ model.mark_table told.now.lines.now told.now.job.now told.now.run.now b mark }
{
    let awaited = is_awaited(board, mark);
    say_table_if(text, told, awaited, mark);
}

/// Says all mark numbers for which channels wait.
#[tactic(auto, unfolding(crate::specs::MarkTables::marks_text))]
pub(crate) fn say_marks(text: &mut Text, told: &Told, board: &LastBoard)
    ensures { (b : Board) → IsTold board.now b
        → text.new ≡ text.old ++ model.marks_text told.now.lines.now told.now.job.now told.now.run.now b }
{
    let all = all_marks();
    for mark in &all {
        say_table_of(text, told, board, *mark);
    }
}
