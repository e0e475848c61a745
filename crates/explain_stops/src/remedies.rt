//! What would end a wait for something that is lacking.
ghost use Rattle.std.specs.Prelude.{◌≡◌, ◌++◌};
ghost use Rattle.explain_stops.specs.Remedies as model;

use crate::ends::end_of;
use crate::lacks::Lack;
use crate::passes::{MarkRow, mark_row};
use explain_places::Told;
use growing_text::Text;
use sync_types::ChannelEnd;

/// What would end a wait for something that is lacking.
#[derive(Clone, Copy, PartialEq, Eq)]
pub enum Remedy {
    /// No block of the channel can raise the mark: a word is missing, or names another number or channel.
    Write,
    /// The channel is to come to a block that raises the mark.
    Reach,
    /// Both channels are to come to the mark equally often.
    Match,
    /// The channel is to be started.
    Start,
    /// The channel waits itself, which is to be settled first.
    Settle,
    /// The alarm of the channel is to be mended first.
    Mend,
    /// The channel is not to wait for its own end.
    Omit,
    /// The channel is to let the axis go.
    Release,
}

/// Whether no block of the channel can raise the mark, and none has.
fn is_never_raised(row: &MarkRow) -> bool
    ensures { result ≡ model.is_never_raised row.now }
{
    !row.block.is_some() && row.passed == 0
}

/// That the word is missing, where it is; or else this.
fn unless_missing(row: &MarkRow, other: Remedy) -> Remedy
    ensures { result ≡ model.unless_missing row.now other }
{
    if is_never_raised(row) {
        Remedy::Write
    } else {
        other
    }
}

/// Of a mark whose channel has ended.
fn ended_remedy(row: &MarkRow) -> Remedy
    ensures { result ≡ model.ended_remedy row.now }
{
    if row.passed == 0 {
        unless_missing(row, Remedy::Reach)
    } else {
        Remedy::Match
    }
}

/// Of a mark, by how its channel has stopped.
fn mark_remedy(row: &MarkRow, end: &Option<ChannelEnd>) -> Remedy
    ensures { result ≡ model.mark_remedy row.now end.now }
{
    match end {
        None => Remedy::Write,
        Some(ChannelEnd::Idle) => Remedy::Start,
        Some(ChannelEnd::Ended(_)) => ended_remedy(row),
        Some(ChannelEnd::Holding(_)) => unless_missing(row, Remedy::Settle),
        Some(ChannelEnd::Alarmed(_)) => unless_missing(row, Remedy::Mend),
    }
}

/// Of a program that has not ended, by how its channel has stopped.
fn stop_remedy(end: &Option<ChannelEnd>) -> Remedy
    ensures { result ≡ model.stop_remedy end.now }
{
    match end {
        None => Remedy::Start,
        Some(ChannelEnd::Idle) => Remedy::Start,
        Some(ChannelEnd::Ended(_)) => Remedy::Settle,
        Some(ChannelEnd::Holding(_)) => Remedy::Settle,
        Some(ChannelEnd::Alarmed(_)) => Remedy::Mend,
    }
}

/// Of an axis, by how its owner has stopped.
fn axis_remedy(end: &Option<ChannelEnd>) -> Remedy
    ensures { result ≡ model.axis_remedy end.now }
{
    match end {
        None => Remedy::Release,
        Some(ChannelEnd::Idle) => Remedy::Start,
        Some(ChannelEnd::Ended(_)) => Remedy::Release,
        Some(ChannelEnd::Holding(_)) => Remedy::Release,
        Some(ChannelEnd::Alarmed(_)) => Remedy::Mend,
    }
}

/// What would end a wait for something that is lacking.
#[tactic(auto, unfolding(crate::specs::Remedies::remedy_of))]
pub(crate) fn remedy_of(told: &Told, lack: &Lack) -> Remedy
    ensures { result ≡ model.remedy_of told.now.job.now told.now.run.now lack.now }
{
    match lack {
        Lack::Mark(mark, channel) => {
            mark_remedy(&mark_row(told, *mark, *channel), &end_of(told, *channel))
        }
        Lack::End(channel) => stop_remedy(&end_of(told, *channel)),
        Lack::OwnEnd => Remedy::Omit,
        Lack::Axis(_, owner) => axis_remedy(&end_of(told, *owner)),
    }
}

impl Remedy {
    /// What to do, in plain words. "That channel" is the one that could give what is lacking.
    #[tactic(auto, unfolding(crate::specs::Remedies::advice_of))]
    pub fn advice(self) -> &'static str
        ensures { result.now ≡ model.advice_of self }
    {
        match self {
            Remedy::Write => {
                "No block of that channel's programs can raise the mark. Correct the number of the mark or the channel, here or in the block that was meant; or write the WAITM or SETM that is missing there."
            }
            Remedy::Reach => {
                "That channel ended without coming to a block that raises the mark. Look at the jumps before that block."
            }
            Remedy::Match => {
                "That channel has raised the mark, but not once more. Let both come to this mark equally often: count the passes of their loops."
            }
            Remedy::Start => {
                "Start that channel: by START in a channel that runs, or by START at the end of its CHANNEL line."
            }
            Remedy::Settle => {
                "That channel waits too: mend its wait first. Where each waits for the other, let both come to their marks in the same order."
            }
            Remedy::Mend => "First mend the alarm of that channel.",
            Remedy::Omit => "Leave the channel itself out of its WAITE.",
            Remedy::Release => {
                "Let that channel do RELEASE of the axis before the block in which it stands, once it has moved the axis for the last time."
            }
        }
    }
}

/// Says an advice, in a line of its own.
#[tactic(auto, unfolding(crate::specs::Remedies::advice_text))]
pub(crate) fn say_advice(text: &mut Text, advice: &str)
    ensures { text.new ≡ text.old ++ model.advice_text advice.now }
{
    text.say("  What to do: ");
    text.say(advice);
    text.say("\n");
}
