//! How each channel of a board has stopped.
ghost use Rattle.std.specs.Prelude.{◌≡◌, ◌<◌, ◌++◌, ◌+◌, ◌≤◌};
ghost use Rattle.std.specs.Option.{option_to_list};
ghost use Rattle.arrayvec.specs.ArrayVec.{array_vec_len};
ghost use Rattle.axis_sets.specs.declared.limits.TheConstants.{CHANNEL_LIMIT};
ghost use Rattle.coord_core.specs.Boards.{replayed};
ghost use Rattle.coord_core.specs.Ends.{end_by, end_at};
ghost use Rattle.sync_types.specs.BoardEnds.{ends_of};
ghost use Rattle.sync_types.specs.Starts.{has_channel};

use crate::{Board, ChannelState};
use arrayvec::ArrayVec;
use axis_sets::{CHANNEL_LIMIT, CHANNEL_PLACES, ChannelId};
use sync_types::{ChannelEnd, StartState};

/// Whether the start has the channel.
fn has_channel(start: &StartState, channel: ChannelId) -> bool
    ensures { result ≡ has_channel start.now channel }
{
    start.channels.iter().any(|line| line.0 == channel)
}

/// How a channel has stopped that does this; none where it runs.
pub fn end_by(state: ChannelState) -> Option<ChannelEnd>
    ensures { result ≡ end_by state }
{
    match state {
        ChannelState::Idle => Some(ChannelEnd::Idle),
        ChannelState::Running => None,
        ChannelState::Holding(line) => Some(ChannelEnd::Holding(line)),
        ChannelState::Ended(line) => Some(ChannelEnd::Ended(line)),
        ChannelState::Alarmed(alarm) => Some(ChannelEnd::Alarmed(alarm)),
    }
}

/// How a channel has stopped; none where it runs, or the start has not this channel.
fn end_at(board: &Board, start: &StartState, channel: ChannelId) -> Option<ChannelEnd>
    requires { board.now.start ≡ start.now }
    ensures { result ≡ end_at (replayed board.now) channel }
{
    if has_channel(start, channel) {
        end_by(board.state_of(channel))
    } else {
        None
    }
}

/// Adds the end, if there is one.
fn push_some(ends: &mut ArrayVec<ChannelEnd, CHANNEL_LIMIT>, end: Option<ChannelEnd>)
    requires { array_vec_len ends.old < CHANNEL_LIMIT }
    ensures items { ends.new.items ≡ ends.old.items ++ option_to_list end }
    ensures few { array_vec_len ends.new ≤ array_vec_len ends.old + 1 }
{
    if let Some(end) = end {
        ends.push(end);
    }
}

/// How each channel of a board has stopped, the lowest first. One that runs has not stopped and is left out.
pub fn ends_of(board: &Board, start: &StartState) -> ArrayVec<ChannelEnd, CHANNEL_LIMIT>
    requires { board.now.start ≡ start.now }
    ensures { result.items ≡ ends_of (replayed board.now) }
{
    let mut ends = ArrayVec::new();
    for number in 1..CHANNEL_PLACES {
        let channel = ChannelId {
            number: number as u8,
        };
        push_some(&mut ends, end_at(board, start, channel));
    }
    ends
}
