//! All that a waiting channel lacks, said.
ghost use Rattle.std.specs.Prelude.{◌≡◌, ◌++◌};
ghost use Rattle.std.specs.List.{flat_map};
ghost use Rattle.axis_sets.specs.Sets.{members_of};
ghost use Rattle.order_clocks.specs.Watching.{hold_shown};
ghost use Rattle.explain_ends.specs.LastBoards.{IsTold};
ghost use Rattle.explain_stops.specs.Lacks as lack;
ghost use Rattle.explain_stops.specs.Waits as model;
ghost use Rattle.sync_types.specs.Boards.{Board, axis_numbers, channel_numbers};

use crate::lacks::{AskedAxes, lacked_axis, lacked_end, lacked_mark};
use crate::numbers::{all_axes, all_channels};
use crate::waits::say_some_lack;
use axis_sets::{AxisId, ChannelId, ChannelSet};
use explain_ends::LastBoard;
use explain_places::Told;
use growing_text::Text;
use step_deeds::{Hold, NamedMarks};

/// Says the mark of a channel, where it is waited for and does not stand.
fn say_mark_of(
    text: &mut Text,
    told: &Told,
    board: &LastBoard,
    marks: &NamedMarks,
    channel: ChannelId,
)
    ensures { (b : Board) → IsTold board.now b
        → text.new ≡ text.old ++ model.some_lack_text told.now.lines.now told.now.job.now told.now.run.now
        (lack.lacked_mark b marks.now.number (members_of marks.now.named) channel) }
{
    let lacked = lacked_mark(board, marks, channel);
    say_some_lack(text, told, &lacked);
}

/// Says the marks that are lacking.
fn say_marks(text: &mut Text, told: &Told, board: &LastBoard, marks: &NamedMarks)
    ensures { (b : Board) → IsTold board.now b
        → text.new ≡ text.old ++ flat_map (λ channel. model.some_lack_text told.now.lines.now told.now.job.now
        told.now.run.now (lack.lacked_mark b marks.now.number (members_of marks.now.named) channel)) channel_numbers }
{
    let all = all_channels();
    for channel in &all {
        say_mark_of(text, told, board, marks, *channel);
    }
}

/// Says the end of a channel's program, where it is waited for and the program has not ended.
fn say_end_of(text: &mut Text, told: &Told, own: ChannelId, named: &ChannelSet, channel: ChannelId)
    ensures { text.new ≡ text.old ++ model.some_lack_text told.now.lines.now told.now.job.now told.now.run.now
        (lack.lacked_end told.now.job.now told.now.run.now own (members_of named.now) channel) }
{
    let lacked = lacked_end(told, own, named, channel);
    say_some_lack(text, told, &lacked);
}

/// Says the ends of programs that are lacking.
fn say_ends(text: &mut Text, told: &Told, own: ChannelId, named: &ChannelSet)
    ensures { text.new ≡ text.old ++ flat_map
        (λ channel. model.some_lack_text told.now.lines.now told.now.job.now told.now.run.now
        (lack.lacked_end told.now.job.now told.now.run.now own (members_of named.now) channel)) channel_numbers }
{
    let all = all_channels();
    for channel in &all {
        say_end_of(text, told, own, named, *channel);
    }
}

/// Says an axis, where it is asked for and another channel owns it.
fn say_axis_of(text: &mut Text, told: &Told, board: &LastBoard, asked: &AskedAxes, axis: AxisId)
    ensures { (b : Board) → IsTold board.now b
        → text.new ≡ text.old ++ model.some_lack_text told.now.lines.now told.now.job.now told.now.run.now
        (lack.lacked_axis b asked.now.own (members_of asked.now.axes) axis) }
{
    let lacked = lacked_axis(board, asked, axis);
    say_some_lack(text, told, &lacked);
}

/// Says the axes that are lacking.
fn say_axes(text: &mut Text, told: &Told, board: &LastBoard, asked: &AskedAxes)
    ensures { (b : Board) → IsTold board.now b
        → text.new ≡ text.old ++ flat_map (λ axis. model.some_lack_text told.now.lines.now told.now.job.now
        told.now.run.now (lack.lacked_axis b asked.now.own (members_of asked.now.axes) axis)) axis_numbers }
{
    let all = all_axes();
    for axis in &all {
        say_axis_of(text, told, board, asked, *axis);
    }
}

/// Says all that a channel lacks which waits so.
pub(crate) fn say_hold(text: &mut Text, told: &Told, board: &LastBoard, own: ChannelId, hold: &Hold)
    ensures { (b : Board) → IsTold board.now b
        → text.new ≡ text.old ++ model.hold_text told.now.lines.now told.now.job.now
        told.now.run.now b own (hold_shown hold.now) }
{
    match hold {
        Hold::Marks(number, named) => {
            let marks = NamedMarks {
                number: *number,
                named: *named,
            };
            say_marks(text, told, board, &marks);
        }
        Hold::Ends(named) => say_ends(text, told, own, named),
        Hold::Axes(axes) => say_axes(text, told, board, &AskedAxes { own, axes: *axes }),
    }
}
