//! The verdict NO, said.
ghost use Rattle.std.specs.Prelude.{◌≡◌, ◌++◌, ◌∷◌, All, IfOk};
ghost use Rattle.std.specs.List.{flat_map};
ghost use Rattle.explain.specs.Clashes as model;
ghost use Rattle.explain.specs.Explained.{IsHeaded};
ghost use Rattle.explain.specs.LineTexts.{AreSaid};
ghost use Rattle.job_types.specs.SoundJob.{IsSoundJob};
ghost use Rattle.zone_stretches.specs.ZoneBoxes.{IsFit};

use crate::judged::Judged;
use crate::line_texts::{LineTexts, say_known, texts_of};
use explain_clashes::{Clash, clash_of};
use explain_meetings::{Group, groups_of};
use explain_places::{Meeting, Place, Told, say_zone};
use explain_texts::{
    say_boxes, say_depth, say_head, say_holders, say_margin, say_shift, say_stays, say_times,
};
use growing_text::Text;
use job_types::Job;
use out_of_memory::NoMemory;
use std::alloc::Global;

/// Says by what two boxes would be apart.
#[tactic(auto, unfolding(crate::specs::Clashes::ways_text))]
fn say_ways(text: &mut Text, job: &Job, met: &Meeting, clash: &Clash)
    ensures { text.new ≡ text.old ++ model.ways_text job.now met.now clash.now }
{
    say_shift(text, &clash.way);
    say_margin(text, job.margin, clash.margin);
    say_depth(text, job.depth, clash.depth);
    say_holders(text, met.left.name.channel, met.right.name.channel);
}

/// Says the first two boxes that meet, and by what they would be apart.
#[tactic(auto, unfolding(crate::specs::Clashes::first_text))]
fn say_first(text: &mut Text, told: &Told, first: &Meeting, clash: &Clash)
    ensures { text.new ≡ text.old ++ model.first_text told.now.lines.now told.now.job.now
        told.now.run.now first.now clash.now }
{
    say_head(text, told, first, &clash.common);
    say_boxes(text, first);
    say_times(text, told, first);
    say_ways(text, told.job, first, clash);
}

/// Says a box in short.
#[tactic(auto, unfolding(crate::specs::Clashes::short_text))]
fn say_short(text: &mut Text, told: &Told, known: &LineTexts, place: &Place)
    requires { AreSaid told.now.lines.now told.now.job.now known.now }
    ensures { text.new ≡ text.old ++ model.short_text told.now.lines.now told.now.job.now place.now }
{
    say_zone(text, place);
    say_known(text, told, known, place.name.line);
    say_stays(text, place.name.kind);
}

/// Says a pair of lines that meets, and how often.
#[tactic(auto, unfolding(crate::specs::Clashes::pair_text))]
fn say_pair(text: &mut Text, told: &Told, known: &LineTexts, met: &Meeting, count: u64)
    requires { AreSaid told.now.lines.now told.now.job.now known.now }
    ensures { text.new ≡ text.old ++ model.pair_text told.now.lines.now told.now.job.now met.now count }
{
    text.say("  ");
    say_short(text, told, known, &met.left);
    text.say(" and ");
    say_short(text, told, known, &met.right);
    text.say(": ");
    text.number(count);
    text.say("\n");
}

/// Says the pair of lines of a group.
#[tactic(auto, unfolding(crate::specs::Clashes::group_text))]
fn say_group(text: &mut Text, told: &Told, known: &LineTexts, met: &[Meeting], group: &Group)
    requires { AreSaid told.now.lines.now told.now.job.now known.now }
    ensures { text.new ≡ text.old ++ model.group_text told.now.lines.now told.now.job.now met.now group.now }
{
    match met.get(group.first) {
        Some(pair) => say_pair(text, told, known, pair, group.count),
        None => {}
    }
}

/// Says the pairs of lines of groups.
fn say_each(text: &mut Text, told: &Told, known: &LineTexts, met: &[Meeting], groups: &[Group])
    requires { AreSaid told.now.lines.now told.now.job.now known.now }
    ensures { text.new ≡ text.old ++ flat_map
        (model.group_text told.now.lines.now told.now.job.now met.now) groups.now }
{
    for group in groups {
        say_group(text, told, known, met, group);
    }
}

/// Says all pairs of lines that meet.
#[tactic(auto, unfolding(crate::specs::Clashes::groups_text))]
fn say_groups(text: &mut Text, told: &Told, known: &LineTexts, met: &[Meeting], groups: &[Group])
    requires { AreSaid told.now.lines.now told.now.job.now known.now }
    ensures { text.new ≡ text.old ++ model.groups_text told.now.lines.now told.now.job.now met.now groups.now }
{
    text.say("All pairs of lines that meet, each with how often:\n");
    say_each(text, told, known, met, groups);
}

/// The pairs of lines that meet, and the texts of these lines.
#[derive(Clone, Copy)]
struct LinePairs<'a> {
    groups: &'a [Group],
    known: &'a LineTexts,
}

/// Says of the verdict NO these first two boxes that meet, by what they would be apart, and all pairs of lines that meet.
fn say_met(text: &mut Text, judged: &Judged, pairs: &LinePairs<'_>, first: &Meeting, clash: &Clash)
    requires { AreSaid judged.now.lines.now judged.now.job.now pairs.now.known.now }
    ensures { text.new ≡ text.old ++ (model.first_text judged.now.lines.now judged.now.job.now judged.now.run.now
        first.now clash.now ++ model.groups_text judged.now.lines.now judged.now.job.now
        judged.now.met.now pairs.now.groups.now) }
{
    let told = judged.told();
    say_first(text, &told, first, clash);
    say_groups(text, &told, pairs.known, judged.met, pairs.groups);
}

/// A text, and after it what is said of the verdict NO, whose first two boxes that meet are these, with these others.
fn first_told(
    alloc: Global,
    judged: &Judged,
    mut text: Text,
    first: &Meeting,
    others: &[Meeting],
) -> Result<Text, NoMemory>
    requires sound { IsSoundJob judged.now.job.now }
    requires fit { All (All IsFit) judged.now.run.now.items }
    requires all { judged.now.met.now ≡ first.now ∷ others.now }
    ensures { IfOk result (λ all. IsHeaded text
        (model.IsNoText judged.now.lines.now judged.now.job.now judged.now.run.now first.now others.now) all) }
{
    let clash = clash_of(judged.job, judged.run, first);
    let groups = groups_of(alloc, judged.met)?;
    let known = texts_of(alloc, &judged.told(), judged.met, groups.as_slice())?;
    let pairs = LinePairs {
        groups: groups.as_slice(),
        known: &known,
    };
    say_met(&mut text, judged, &pairs, first, &clash);
    Ok(text)
}

/// A text, and after it what is said of the verdict NO: the first two boxes that meet, by what they would be apart, and all pairs of
/// lines that meet.
pub(crate) fn no_told(alloc: Global, judged: &Judged, text: Text) -> Result<Text, NoMemory>
    requires sound { IsSoundJob judged.now.job.now }
    requires fit { All (All IsFit) judged.now.run.now.items }
    ensures { IfOk result (λ all. IsHeaded text
        (model.IsMetText judged.now.lines.now judged.now.job.now judged.now.run.now judged.now.met.now) all) }
{
    match judged.met {
        [first, others @ ..] => first_told(alloc, judged, text, first, others),
        [] => Ok(text),
    }
}
