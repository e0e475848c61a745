//! What a waiting channel lacks.
ghost use Rattle.std.specs.Prelude.{◌≡◌};
ghost use Rattle.axis_sets.specs.Sets.{members_of};
ghost use Rattle.explain_ends.specs.LastBoards.{IsTold};
ghost use Rattle.explain_stops.specs.Lacks as model;
ghost use Rattle.sync_types.specs.Boards.{Board};

use crate::ends::end_of;
use axis_sets::{AxisId, AxisSet, ChannelId, ChannelSet};
use explain_ends::LastBoard;
use explain_places::Told;
use step_deeds::NamedMarks;
use sync_types::ChannelEnd;

/// Something for which a channel waits and which there is not.
#[derive(Clone, Copy, PartialEq, Eq)]
pub enum Lack {
    /// The mark of this number, 0 to 9, of this channel does not stand.
    Mark(u8, ChannelId),
    /// The program of this other channel has not ended.
    End(ChannelId),
    /// The channel's own program has not ended, since it waits in it.
    OwnEnd,
    /// This axis, which this channel owns.
    Axis(AxisId, ChannelId),
}

/// The axes that a channel asks for which waits at a GET.
#[derive(Clone, Copy)]
pub(crate) struct AskedAxes {
    /// The channel.
    pub(crate) own: ChannelId,
    /// The axes.
    pub(crate) axes: AxisSet,
}

/// A mark, where it is waited for and does not stand.
fn mark_where(is_named: bool, stands: bool, mark: u8, channel: ChannelId) -> Option<Lack>
    ensures { result ≡ model.mark_where is_named stands mark channel }
{
    if is_named && !stands {
        Some(Lack::Mark(mark, channel))
    } else {
        None
    }
}

/// The mark of a channel, where the channel is named and the mark does not stand.
pub(crate) fn lacked_mark(board: &LastBoard, marks: &NamedMarks, channel: ChannelId) -> Option<Lack>
    ensures { (b : Board) → IsTold board.now b
        → result ≡ model.lacked_mark b marks.now.number (members_of marks.now.named) channel }
{
    let is_named = marks.named.contains(channel);
    let stands = board.stands(channel, marks.number);
    mark_where(is_named, stands, marks.number, channel)
}

/// Whether a program has ended.
fn is_ended(end: &Option<ChannelEnd>) -> bool
    ensures { result ≡ model.is_ended end.now }
{
    match end {
        Some(ChannelEnd::Ended(_)) => true,
        Some(ChannelEnd::Idle) | Some(ChannelEnd::Holding(_)) | Some(ChannelEnd::Alarmed(_)) => {
            false
        }
        None => false,
    }
}

/// The end of another channel's program, or of its own.
fn end_of_program(own: ChannelId, channel: ChannelId) -> Lack
    ensures { result ≡ model.end_of_program own channel }
{
    if channel == own {
        Lack::OwnEnd
    } else {
        Lack::End(channel)
    }
}

/// The end of a program, where it is waited for and the program has not ended.
fn end_where(is_named: bool, ended: bool, own: ChannelId, channel: ChannelId) -> Option<Lack>
    ensures { result ≡ model.end_where is_named ended own channel }
{
    if is_named && !ended {
        Some(end_of_program(own, channel))
    } else {
        None
    }
}

/// The end of a channel's program, where the channel is named and its program has not ended.
pub(crate) fn lacked_end(
    told: &Told,
    own: ChannelId,
    named: &ChannelSet,
    channel: ChannelId,
) -> Option<Lack>
    ensures { result ≡ model.lacked_end told.now.job.now told.now.run.now own (members_of named.now) channel }
{
    let is_named = named.contains(channel);
    let ended = is_ended(&end_of(told, channel));
    end_where(is_named, ended, own, channel)
}

/// An axis, where a channel other than the one that waits owns it.
fn axis_of_other(own: ChannelId, axis: AxisId, owner: &Option<ChannelId>) -> Option<Lack>
    ensures { result ≡ model.axis_of_other own axis owner.now }
{
    match owner {
        Some(owner) => {
            if *owner == own {
                None
            } else {
                Some(Lack::Axis(axis, *owner))
            }
        }
        None => None,
    }
}

/// An axis, where it is asked for and another channel owns it.
fn axis_where(
    is_asked: bool,
    own: ChannelId,
    axis: AxisId,
    owner: &Option<ChannelId>,
) -> Option<Lack>
    ensures { result ≡ model.axis_where is_asked own axis owner.now }
{
    if is_asked {
        axis_of_other(own, axis, owner)
    } else {
        None
    }
}

/// An axis of those that a channel asks for, where another channel owns it.
pub(crate) fn lacked_axis(board: &LastBoard, asked: &AskedAxes, axis: AxisId) -> Option<Lack>
    ensures { (b : Board) → IsTold board.now b
        → result ≡ model.lacked_axis b asked.now.own (members_of asked.now.axes) axis }
{
    let is_asked = asked.axes.contains(axis);
    let owner = board.owner_of(axis);
    axis_where(is_asked, asked.own, axis, &owner)
}
