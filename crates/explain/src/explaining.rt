//! A judged job, explained.
ghost use Rattle.std.specs.Prelude.{◌≡◌, ◌++◌, ◌^◌, ◌<◌, All, IfOk, length};
ghost use Rattle.channel_machine.specs.StartStates.{start_of};
ghost use Rattle.clash_check.specs.PairNumbers.{numbers_of};
ghost use Rattle.explain.specs.Clashes.{IsMetText};
ghost use Rattle.explain.specs.Explained as model;
ghost use Rattle.explain_texts.specs.Headlines.{headline, yes_line};
ghost use Rattle.explain.specs.Numbers.{IsUndecidedText};
ghost use Rattle.explain.specs.Room.{IsYesText};
ghost use Rattle.job_types.specs.SoundJob.{BlocksFit, IsSoundJob};
ghost use Rattle.order_clocks.specs.Tells.{is_before_in};
ghost use Rattle.zone_stretches.specs.Overlaps.{compared_pairs};
ghost use Rattle.zone_stretches.specs.Told.{IsTold};
ghost use Rattle.zone_stretches.specs.ZoneBoxes.{IsFit};
ghost use Rattle.explain_assumptions.specs.Assumptions.{assumptions_of};
ghost use Rattle.explain_stops.specs.Alarms.{alarm_text};
ghost use Rattle.explain_stops.specs.RaceTexts.{race_text};
ghost use Rattle.explain_stops.specs.Stuck.{last_board, stuck_text};
ghost use Rattle.sync_types.specs.Boards.{first_board};
ghost use Rattle.sync_types.specs.Runs.{ComesFrom};
ghost use Rattle.sync_types.specs.Turns.{AreEntries};

use crate::clash_text::no_told;
use crate::judged::Judged;
use crate::other_texts::{undecided_told, yes_told};
use axis_sets::ChannelId;
use explain_alarms::{AlarmState, alarm_state, say_state};
use explain_assumptions::{Assumed, assumptions_of, say_assumptions};
use explain_meetings::zone_pairs_of;
use explain_places::Told;
use explain_stops::{say_alarm, say_race, say_stuck};
use explain_texts::{say_headline, say_yes_line};
use growing_text::Text;
use out_of_memory::NoMemory;
use std::alloc::Global;
use sync_types::{Race, Verdict};

/// The explanation of RACE.
fn race_explained(alloc: Global, judged: &Judged, race: &Race) -> Text
    ensures { result ≡ race_text judged.now.lines.now judged.now.job.now race.now }
{
    let mut text = Text::new(alloc);
    say_race(&mut text, &judged.told(), race);
    text
}

/// The explanation of STUCK of this channel.
fn stuck_explained(alloc: Global, judged: &Judged, channel: ChannelId) -> Text
    requires few { length judged.now.run.now.entries < 2 ^ 32 }
    requires comes { ComesFrom judged.now.start.now judged.now.run.now }
    ensures { result ≡ stuck_text judged.now.lines.now judged.now.job.now judged.now.run.now
        (last_board judged.now.start.now judged.now.run.now) channel }
{
    let mut text = Text::new(alloc);
    say_stuck(&mut text, &judged.told(), judged.start, channel);
    text
}

/// Says what an alarmed block found; nothing where that is not known.
fn say_some(text: &mut Text, told: &Told, state: &Option<AlarmState>)
    ensures { text.new ≡ text.old ++ model.some_text told.now.lines.now told.now.job.now state.now }
{
    if let Some(state) = state {
        say_state(text, told, state);
    }
}

/// What an alarmed block found, as a text; nothing where that is not known.
fn state_told(
    alloc: Global,
    judged: &Judged,
    state: &Option<AlarmState>,
) -> Result<Vec<u8>, NoMemory>
    ensures { IfOk result (λ text. text.items ≡ model.some_text judged.now.lines.now judged.now.job.now state.now) }
{
    let mut text = Text::new(alloc);
    say_some(&mut text, &judged.told(), state);
    text.finish()
}

/// Says which channel's block found something, and what.
#[tactic(auto, unfolding(crate::specs::Explained::one_found_text))]
fn say_one_found(text: &mut Text, channel: ChannelId, found: &[u8])
    ensures { text.new ≡ text.old ++ model.one_found_text channel found.now }
{
    text.say("What the block of channel ");
    text.number(u64::from(channel.number));
    text.say(" found\n");
    text.bytes(found);
}

/// Says what the alarmed block of a channel found; nothing where that is nothing.
#[tactic(auto, unfolding(crate::specs::Explained::found_text))]
fn say_found(text: &mut Text, channel: ChannelId, found: &[u8])
    ensures { text.new ≡ text.old ++ model.found_text channel found.now }
{
    if !found.is_empty() {
        say_one_found(text, channel, found);
    }
}

/// The explanation of ALARM of this channel, whose block found this.
fn alarm_told(alloc: Global, judged: &Judged, channel: ChannelId, found: &[u8]) -> Text
    requires few { length judged.now.run.now.entries < 2 ^ 32 }
    requires comes { ComesFrom judged.now.start.now judged.now.run.now }
    ensures { result ≡ alarm_text judged.now.lines.now judged.now.job.now judged.now.run.now
        (last_board judged.now.start.now judged.now.run.now) channel ++ model.found_text channel found.now }
{
    let mut text = Text::new(alloc);
    say_alarm(&mut text, &judged.told(), judged.start, channel);
    say_found(&mut text, channel, found);
    text
}

/// The explanation of ALARM of this channel: why alarms stop channels, and what the block of this one found.
fn alarm_explained(alloc: Global, judged: &Judged, channel: ChannelId) -> Result<Text, NoMemory>
    requires sound { IsSoundJob judged.now.job.now }
    requires blocks { BlocksFit judged.now.job.now }
    requires few { length judged.now.run.now.entries < 2 ^ 32 }
    requires comes { ComesFrom judged.now.start.now judged.now.run.now }
    requires made { AreEntries (first_board (start_of judged.now.job.now)) judged.now.run.now.entries }
    ensures { IfOk result (λ text. model.IsAlarmText judged.now.lines.now judged.now.job.now judged.now.start.now
        judged.now.run.now channel text) }
{
    let state = alarm_state(alloc, judged.job, judged.run, channel)?;
    let found = state_told(alloc, judged, &state)?;
    Ok(alarm_told(alloc, judged, channel, found.as_slice()))
}

/// A verdict in one line, which more is to be said of.
fn headed(alloc: Global, verdict: &Verdict) -> Text
    ensures { result ≡ headline verdict.now }
{
    let mut text = Text::new(alloc);
    say_headline(&mut text, verdict);
    text
}

/// The explanation of NO.
fn no_explained(alloc: Global, judged: &Judged) -> Result<Text, NoMemory>
    requires sound { IsSoundJob judged.now.job.now }
    requires fit { All (All IsFit) judged.now.run.now.items }
    ensures { IfOk result (λ text. model.IsHeaded (headline judged.now.verdict.now)
        (IsMetText judged.now.lines.now judged.now.job.now judged.now.run.now judged.now.met.now) text) }
{
    no_told(alloc, judged, headed(alloc, judged.verdict))
}

/// The explanation of UNDECIDED.
fn undecided_explained(alloc: Global, judged: &Judged) -> Result<Text, NoMemory>
    requires whole { IsTold judged.now.job.now judged.now.run.now judged.now.stretches.now judged.now.clocks.now }
    ensures { IfOk result (λ text. model.IsHeaded (headline judged.now.verdict.now)
        (IsUndecidedText (numbers_of (is_before_in judged.now.clocks.now.rows) judged.now.job.now
        judged.now.stretches.now)) text) }
{
    undecided_told(alloc, judged, headed(alloc, judged.verdict))
}

/// The explanation of YES.
fn yes_explained(alloc: Global, judged: &Judged) -> Result<Text, NoMemory>
    requires sound { IsSoundJob judged.now.job.now }
    requires whole { IsTold judged.now.job.now judged.now.run.now judged.now.stretches.now judged.now.clocks.now }
    requires fit { All (All IsFit) judged.now.run.now.items }
    ensures { IfOk result (λ text. model.IsHeaded
        (yes_line (model.zones_told judged.now.job.now judged.now.run.now judged.now.clocks.now
        judged.now.stretches.now)) (IsYesText judged.now.lines.now judged.now.job.now judged.now.run.now
        (model.zones_told judged.now.job.now judged.now.run.now judged.now.clocks.now judged.now.stretches.now)
        (compared_pairs (is_before_in judged.now.clocks.now.rows) judged.now.job.now judged.now.stretches.now)) text) }
{
    let zones = zone_pairs_of(
        alloc,
        judged.job,
        judged.run,
        judged.stretches,
        judged.clocks,
    )?;
    let mut text = Text::new(alloc);
    say_yes_line(&mut text, zones.as_slice());
    yes_told(alloc, judged, zones.as_slice(), text)
}

/// What is said of the verdict on a judged job: the verdict in one line, and why.
fn verdict_explained(alloc: Global, judged: &Judged) -> Result<Text, NoMemory>
    requires sound { IsSoundJob judged.now.job.now }
    requires blocks { BlocksFit judged.now.job.now }
    requires whole { IsTold judged.now.job.now judged.now.run.now judged.now.stretches.now judged.now.clocks.now }
    requires fit { All (All IsFit) judged.now.run.now.items }
    requires few { length judged.now.run.now.entries < 2 ^ 32 }
    requires comes { ComesFrom judged.now.start.now judged.now.run.now }
    requires made { AreEntries (first_board (start_of judged.now.job.now)) judged.now.run.now.entries }
    ensures { IfOk result (λ text. model.IsVerdictText judged.now.lines.now judged.now.job.now judged.now.start.now
        judged.now.run.now judged.now.clocks.now judged.now.stretches.now judged.now.met.now
        judged.now.verdict.now text) }
{
    match judged.verdict {
        Verdict::Race(race) => Ok(race_explained(alloc, judged, race)),
        Verdict::Alarm(channel, _) => alarm_explained(alloc, judged, *channel),
        Verdict::Stuck(channel, _) => Ok(stuck_explained(alloc, judged, *channel)),
        Verdict::Undecided { .. } => undecided_explained(alloc, judged),
        Verdict::No(_, _) => no_explained(alloc, judged),
        Verdict::Yes => yes_explained(alloc, judged),
    }
}

/// Says what the run of a judged job takes for granted.
#[tactic(auto, unfolding(crate::specs::Explained::granted_text))]
fn say_granted(text: &mut Text, judged: &Judged, rows: &[Assumed])
    requires { rows.now ≡ assumptions_of judged.now.job.now judged.now.run.now }
    ensures { text.new ≡ text.old ++ model.granted_text judged.now.lines.now judged.now.job.now judged.now.run.now }
{
    say_assumptions(text, &judged.told(), rows);
}

/// The explanation of the verdict on a judged job, in plain text: the verdict in one line, and why; and below it what the run takes for
/// granted.
pub(crate) fn explain(alloc: Global, judged: &Judged) -> Result<Vec<u8>, NoMemory>
    requires sound { IsSoundJob judged.now.job.now }
    requires blocks { BlocksFit judged.now.job.now }
    requires whole { IsTold judged.now.job.now judged.now.run.now judged.now.stretches.now judged.now.clocks.now }
    requires fit { All (All IsFit) judged.now.run.now.items }
    requires few { length judged.now.run.now.entries < 2 ^ 32 }
    requires comes { ComesFrom judged.now.start.now judged.now.run.now }
    requires made { AreEntries (first_board (start_of judged.now.job.now)) judged.now.run.now.entries }
    ensures { IfOk result (λ text. model.IsExplained judged.now.lines.now judged.now.job.now judged.now.start.now
        judged.now.run.now judged.now.clocks.now judged.now.stretches.now judged.now.met.now
        judged.now.verdict.now text.items) }
{
    let mut text = verdict_explained(alloc, judged)?;
    let rows = assumptions_of(alloc, judged.job, judged.run)?;
    say_granted(&mut text, judged, rows.as_slice());
    text.finish()
}
