//! The verdict STUCK, said.
ghost use Rattle.std.specs.Prelude.{◌≡◌, ◌++◌, ◌<◌, ◌^◌, length};
ghost use Rattle.std.specs.List.{flat_map};
ghost use Rattle.order_clocks.specs.Watching.{hold_shown, wait_shown};
ghost use Rattle.explain_ends.specs.LastBoards.{IsTold};
ghost use Rattle.explain_stops.specs.Stuck as model;
ghost use Rattle.explain_stops.specs.Waits.{head_text, hold_text, wait_text};
ghost use Rattle.sync_types.specs.Boards.{Board, channel_numbers};
ghost use Rattle.sync_types.specs.Runs.{ComesFrom};

use crate::holds::say_hold;
use crate::mark_tables::say_marks;
use crate::numbers::all_channels;
use axis_sets::ChannelId;
use explain_ends::{LastBoard, last_board};
use explain_places::{Told, say_block, say_channel, say_channel_first};
use growing_text::Text;
use step_deeds::WaitAt;
use sync_types::StartState;

/// Says where a channel waits.
#[tactic(auto, unfolding(crate::specs::Waits::head_text))]
fn say_head(text: &mut Text, told: &Told, channel: ChannelId, line: u32)
    ensures { text.new ≡ text.old ++ head_text told.now.lines.now told.now.job.now channel line }
{
    say_channel_first(text, channel);
    text.say(" waits for good in ");
    say_block(text, told, line);
    text.say("\n");
}

/// Says that a channel waits, and for what.
fn say_held(text: &mut Text, told: &Told, board: &LastBoard, channel: ChannelId, held: &WaitAt)
    ensures { (b : Board) → IsTold board.now b
        → text.new ≡ text.old ++ (head_text told.now.lines.now told.now.job.now channel held.now.line
        ++ hold_text told.now.lines.now told.now.job.now told.now.run.now b channel (hold_shown held.now.hold)) }
{
    say_head(text, told, channel, held.line);
    say_hold(text, told, board, channel, &held.hold);
}

/// Says that a channel waits, and for what; nothing of one that does not wait.
fn say_wait(
    text: &mut Text,
    told: &Told,
    board: &LastBoard,
    channel: ChannelId,
    held: &Option<WaitAt>,
)
    ensures { (b : Board) → IsTold board.now b
        → text.new ≡ text.old ++ wait_text told.now.lines.now told.now.job.now told.now.run.now b
        channel (wait_shown held.now) }
{
    match held {
        Some(held) => say_held(text, told, board, channel, held),
        None => {}
    }
}

/// Says a channel of a board.
fn say_channel_wait(text: &mut Text, told: &Told, board: &LastBoard, channel: ChannelId)
    ensures { (b : Board) → IsTold board.now b
        → text.new ≡ text.old ++ model.channel_wait told.now.lines.now told.now.job.now told.now.run.now b channel }
{
    let held = board.hold_of(channel);
    say_wait(text, told, board, channel, &held);
}

/// Says all channels of a board that wait.
fn say_channels(text: &mut Text, told: &Told, board: &LastBoard)
    ensures { (b : Board) → IsTold board.now b
        → text.new ≡ text.old ++ flat_map (model.channel_wait told.now.lines.now told.now.job.now
        told.now.run.now b) channel_numbers }
{
    let all = all_channels();
    for channel in &all {
        say_channel_wait(text, told, board, *channel);
    }
}

/// Says all channels of a board that wait, and the marks that they wait for.
#[tactic(auto, unfolding(crate::specs::Stuck::waits_text))]
fn say_board(text: &mut Text, told: &Told, board: &LastBoard)
    ensures { (b : Board) → IsTold board.now b
        → text.new ≡ text.old ++ model.waits_text told.now.lines.now told.now.job.now told.now.run.now b }
{
    say_channels(text, told, board);
    say_marks(text, told, board);
}

/// Says all channels that wait for good, what each lacks, who could give it, what to do, and the marks that they wait for.
pub(crate) fn say_waits(text: &mut Text, told: &Told, start: &StartState)
    requires few { length told.now.run.now.entries < 2 ^ 32 }
    requires whole { ComesFrom start.now told.now.run.now }
    ensures { text.new ≡ text.old ++ model.waits_text told.now.lines.now told.now.job.now told.now.run.now
        (model.last_board start.now told.now.run.now) }
{
    let board = last_board(start, told.run);
    say_board(text, told, &board);
}

/// Says the verdict STUCK, which names this channel: each channel that waits for good when the run is over, where, what it
/// lacks, who could give that, and what to do; and the marks that are waited for, by channel. The start and the run are those
/// of the job.
#[tactic(auto, unfolding(crate::specs::Stuck::stuck_text))]
pub fn say_stuck(text: &mut Text, told: &Told, start: &StartState, channel: ChannelId)
    requires few { length told.now.run.now.entries < 2 ^ 32 }
    requires whole { ComesFrom start.now told.now.run.now }
    ensures { text.new ≡ text.old ++ model.stuck_text told.now.lines.now told.now.job.now told.now.run.now
        (model.last_board start.now told.now.run.now) channel }
{
    text.say("STUCK: ");
    say_channel(text, channel);
    text.say(" waits for good, and so no boxes are compared.\n");
    say_waits(text, told, start);
}
