//! How often each channel has gone past a mark number in a run.
ghost use Rattle.std.specs.Prelude.{◌≡◌, ◌≤◌, length, slice_get, unwrap_or};
ghost use Rattle.std.specs.List.{count_by};
ghost use Rattle.std.specs.Option.{option_and_then};
ghost use Rattle.explain_stops.specs.Passes as model;

use crate::mark_blocks::first_block;
use axis_sets::ChannelId;
use explain_places::Told;
use sync_types::{Action, Entry, Run};

/// A mark number in a channel.
#[derive(Clone, Copy, PartialEq, Eq)]
pub struct MarkRow {
    /// The number of the mark, 0 to 9.
    pub mark: u8,
    /// The channel.
    pub channel: ChannelId,
    /// How often the channel has raised its mark of this number, by WAITM or SETM, and gone on from there.
    pub passed: usize,
    /// Whether the channel has come to one more such block and has not gone on from it.
    pub stands: bool,
    /// The line of the channel's first block that can raise the mark; none where none of its blocks can.
    pub block: Option<u32>,
}

/// Whether an action raises the mark of this number of its channel.
fn raises(action: &Action, mark: u8) -> bool
    ensures { result ≡ model.raises mark action.now }
{
    match action {
        Action::WaitM(number, _) => *number == mark,
        Action::SetM(marks) => marks.contains(mark),
        Action::ClearM(_)
        | Action::Init(_, _)
        | Action::Start(_)
        | Action::WaitE(_)
        | Action::Release(_)
        | Action::Get(_)
        | Action::End
        | Action::Alarm(_) => false,
    }
}

/// Whether a step is one of a channel that raises this mark.
fn is_raising(entry: &Entry, channel: ChannelId, mark: u8) -> bool
    ensures { result ≡ model.is_raising channel mark entry.now }
{
    entry.channel == channel && raises(&entry.step.action, mark)
}

/// How many of these steps are.
fn count_raisings(entries: &[Entry], channel: ChannelId, mark: u8) -> usize
    ensures value { result ≡ count_by (model.is_raising channel mark) entries.now }
    ensures few { result ≤ length entries.now }
{
    let mut count = 0;
    for entry in entries {
        if is_raising(entry, channel, mark) {
            count += 1;
        }
    }
    count
}

/// How many steps of a run are.
#[tactic(auto, unfolding(crate::specs::Passes::raisings_of))]
fn raisings_of(run: &Run, channel: ChannelId, mark: u8) -> usize
    ensures { result ≡ model.raisings_of run.now channel mark }
{
    count_raisings(run.entries.as_slice(), channel, mark)
}

/// Whether the step of a place raises the mark, where it is the channel's; else what is so before it.
fn later_raising(run: &Run, channel: ChannelId, mark: u8, place: usize, before: bool) -> bool
    ensures { result ≡ unwrap_or (option_and_then (model.raised_in channel mark) (slice_get run.now.entries place))
        before }
{
    match run.entries.get(place) {
        Some(entry) => {
            if entry.channel == channel {
                raises(&entry.step.action, mark)
            } else {
                before
            }
        }
        None => before,
    }
}

/// Whether the last step of a channel raises the mark, so that the channel has not gone on from there.
#[tactic(auto, unfolding(crate::specs::Passes::stands_at))]
fn stands_at(run: &Run, channel: ChannelId, mark: u8) -> bool
    ensures { result ≡ model.stands_at run.now channel mark }
{
    let mut stands = false;
    for place in 0..run.entries.len() {
        stands = later_raising(run, channel, mark, place, stands);
    }
    stands
}

/// A mark number in a channel: how often the channel has gone past it, whether it stands there, and its first block that can
/// raise the mark.
#[tactic(auto, unfolding(crate::specs::Passes::mark_row))]
pub(crate) fn mark_row(told: &Told, mark: u8, channel: ChannelId) -> MarkRow
    ensures { result ≡ model.mark_row told.now.job.now told.now.run.now mark channel }
{
    let stands = stands_at(told.run, channel, mark);
    let raisings = raisings_of(told.run, channel, mark);
    MarkRow {
        mark,
        channel,
        passed: raisings.saturating_sub(if stands { 1 } else { 0 }),
        stands,
        block: first_block(told.job, channel, mark),
    }
}
