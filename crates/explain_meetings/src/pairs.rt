//! What is told of each two zones of a job.
ghost use Rattle.std.specs.Prelude.{◌≡◌, ◌≤◌, ◌++◌, ◌∷◌, [], All, IfOk, OnOk, find, map};
ghost use Rattle.std.specs.Option.{option_map};
ghost use Rattle.job_lines.specs.declared.limits.TheConstants.{DEPTH_LIMIT};
ghost use Rattle.job_types.specs.SoundJob.{IsSoundJob};
ghost use Rattle.explain_meetings.specs.PairSteps.{AreReady, two_with};
ghost use Rattle.explain_meetings.specs.ZonePairs as model;
ghost use Rattle.order_clocks.specs.Tells.{is_before_in};
ghost use Rattle.zone_stretches.specs.TimedZones.{each_two};
ghost use Rattle.zone_stretches.specs.Told.{IsTold};
ghost use Rattle.zone_stretches.specs.ZoneBoxes.{IsFit};

use crate::contexts::Scene;
use crate::counts::count_of_zones;
use crate::nearest::{Near, look_of_zones};
use axis_sets::{ChannelId, ZoneId};
use explain_pairs::{Absent, Comparison, PairKind, Presence, ZoneFacts, ZonePair};
use job_types::Job;
use order_clocks::Clocks;
use out_of_memory::NoMemory;
use std::alloc::{AllocError, Global};
use sync_types::Run;
use zone_stretches::{Stretch, Stretches, TimedZone, TimedZones, is_of};

/// Whether a zone is on in a stretch.
fn is_on(stretch: &Stretch) -> bool
    ensures { result ≡ model.is_on stretch.now }
{
    !stretch.boxes.is_empty()
}

/// Who holds the zone of these stretches in the first of them in which it is on; none where it is never on.
fn first_holder(stretches: &[Stretch]) -> Option<Option<ChannelId>>
    ensures { result ≡ option_map (λ stretch. stretch.name.channel) (find model.is_on stretches.now) }
{
    for stretch in stretches {
        if is_on(stretch) {
            return Some(stretch.name.channel);
        }
    }
    None
}

/// Whether a channel holds a zone in this stretch, if it is on there.
fn is_held_in(channel: ChannelId, stretch: &Stretch) -> bool
    ensures { result ≡ model.is_held_in channel stretch.now }
{
    !is_on(stretch) || is_of(channel, stretch.name.channel)
}

/// Whether a channel holds the zone of these stretches whenever it is on.
fn is_held_by(channel: ChannelId, stretches: &[Stretch]) -> bool
    ensures { result ≡ model.is_held_by channel stretches.now }
{
    for stretch in stretches {
        if !is_held_in(channel, stretch) {
            return false;
        }
    }
    true
}

/// When the zone of these stretches is on.
#[tactic(auto, unfolding(crate::specs::ZonePairs::presence_of))]
fn presence_of(stretches: &[Stretch]) -> Presence
    ensures { result ≡ model.presence_of stretches.now }
{
    match first_holder(stretches) {
        None => Presence::Never,
        Some(None) => Presence::Changing,
        Some(Some(channel)) => {
            if is_held_by(channel, stretches) {
                Presence::HeldBy(channel)
            } else {
                Presence::Changing
            }
        }
    }
}

/// The number of a zone, its group, and when it is on.
#[tactic(auto, unfolding(crate::specs::ZonePairs::facts_of))]
fn facts_of(time: &TimedZone) -> ZoneFacts
    ensures { result ≡ model.facts_of time.now.time }
{
    ZoneFacts {
        zone: time.zone.zone,
        group: time.zone.group,
        presence: presence_of(time.stretches),
    }
}

/// What is found of so many pairs of which these come nearest.
fn found_with(count: u64, near: &Near) -> Comparison
    ensures count { result.count ≡ count }
    ensures reach { result.reach ≡ near.now.reach }
{
    Comparison {
        count,
        reach: near.reach,
    }
}

/// What is found of the boxes of two zones; none where none are compared.
fn comparison_of(
    scene: &Scene,
    left: &TimedZone,
    right: &TimedZone,
) -> Result<Option<Comparison>, AllocError>
    requires fit { All (All IsFit) scene.now.run.now.items }
    requires deep { scene.now.job.now.depth ≤ DEPTH_LIMIT }
    requires ready { AreReady (is_before_in scene.now.clocks.now.rows) scene.now.job.now scene.now.run.now
        (left.now, right.now) }
    ensures { IfOk result (λ found. found ≡ model.comparison_of scene.now.job.now scene.now.run.now
        (model.pairs_of_two (is_before_in scene.now.clocks.now.rows) left.now.time right.now.time)) }
{
    let mut near = Vec::new(scene.alloc);
    look_of_zones(&mut near, scene, left, right)?;
    let nears = near.as_slice();
    if nears.is_empty() {
        return Ok(None);
    }
    let count = count_of_zones(scene.clocks, left, right);
    Ok(Some(found_with(count, &nears[0])))
}

/// What is told of two zones.
#[tactic(auto, unfolding(crate::specs::ZonePairs::two_of))]
fn two_of(scene: &Scene, left: &TimedZone, right: &TimedZone) -> Result<ZonePair, AllocError>
    requires fit { All (All IsFit) scene.now.run.now.items }
    requires deep { scene.now.job.now.depth ≤ DEPTH_LIMIT }
    requires ready { AreReady (is_before_in scene.now.clocks.now.rows) scene.now.job.now scene.now.run.now
        (left.now, right.now) }
    ensures { IfOk result (λ pair. pair ≡ model.two_of (is_before_in scene.now.clocks.now.rows) scene.now.job.now
        scene.now.run.now (left.now.time, right.now.time)) }
{
    let found = comparison_of(scene, left, right)?;
    Ok(ZonePair::of(&facts_of(left), &facts_of(right), found))
}

/// Adds what is told of two zones. Its parts are named here, as the check of a `push` asks for it.
fn add(pairs: &mut Vec<ZonePair>, pair: &ZonePair) -> Result<(), AllocError>
    ensures { OnOk result (pairs.new.items ≡ pairs.old.items ++ pair.now ∷ []) }
{
    let zones = pair.zones;
    let _zone: ZoneId = zones.0;
    let _kind: PairKind = pair.kind;
    let _parts: Option<(Absent, Comparison, ChannelId)> = None;
    pairs.push(*pair)?;
    Ok(())
}

/// What is told of each two of these zones. What rows are made of is named here, as the check of the loop asks for it.
fn each_two_of(scene: &Scene, zones: &TimedZones) -> Result<Vec<ZonePair>, AllocError>
    requires fit { All (All IsFit) scene.now.run.now.items }
    requires deep { scene.now.job.now.depth ≤ DEPTH_LIMIT }
    requires ready { All (AreReady (is_before_in scene.now.clocks.now.rows) scene.now.job.now scene.now.run.now)
        (each_two zones.now) }
    ensures { IfOk result (λ pairs. pairs.items ≡ map (two_with (is_before_in scene.now.clocks.now.rows)
        scene.now.job.now scene.now.run.now) (each_two zones.now)) }
{
    let _parts: Option<(ZoneId, PairKind, Absent, Comparison, ChannelId)> = None;
    let mut pairs = Vec::new(scene.alloc);
    for two in zones.pairs() {
        let pair = two_of(scene, &two.0, &two.1)?;
        add(&mut pairs, &pair)?;
    }
    Ok(pairs)
}

/// What is told of each two zones of a job in a run, in the order of their numbers: the first that holds of one group, a zone that is
/// never on, boxes that are compared, with their count and how near they come, and boxes that are all kept apart in time. It takes
/// memory for each two zones, and while two stretches are looked at for the boxes by which those of the second are compared.
pub fn zone_pairs_of(
    alloc: Global,
    job: &Job,
    run: &Run,
    stretches: &Stretches,
    clocks: &Clocks,
) -> Result<Vec<ZonePair>, NoMemory>
    requires sound { IsSoundJob job.now }
    requires whole { IsTold job.now run.now stretches.now clocks.now }
    requires fit { All (All IsFit) run.now.items }
    ensures { IfOk result (λ pairs. pairs.items
        ≡ model.zone_pairs_of (is_before_in clocks.now.rows) job.now run.now stretches.now) }
{
    let zones = TimedZones::of(job, stretches, clocks);
    let scene = Scene {
        alloc,
        job,
        run,
        clocks,
    };
    let pairs = each_two_of(&scene, &zones)?;
    Ok(pairs)
}
