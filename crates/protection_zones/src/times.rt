//! The time of all zones of a job in a run.
ghost use Rattle.std.specs.Prelude.{◌≡◌, ◌≤◌, ◌<◌, ◌^◌, All, IfOk, List, length, map};
ghost use Rattle.axis_sets.specs.declared.limits.TheConstants.{AXIS_LIMIT};
ghost use Rattle.job_types.specs.SoundJob.{IsSoundJob};
ghost use Rattle.job_types.specs.Zones.{zones_in_order};
ghost use Rattle.protection_zones.specs.Beginnings.{all_items};
ghost use Rattle.protection_zones.specs.Logs.{IsLog};
ghost use Rattle.sync_types.specs.Boards.{first_board};
ghost use Rattle.sync_types.specs.Runs.{ComesFrom};
ghost use Rattle.sync_types.specs.Views.{StartView};
ghost use Rattle.zone_stretches.specs.Occurrences.{OccurrenceView};
ghost use Rattle.zone_stretches.specs.Stretches.{all_stretches, stretches_of_zone};
ghost use Rattle.zone_stretches.specs.ZoneBoxes.{IsFit};

use crate::logs::{Log, log_of};
use crate::tenures::terms_of;
use crate::zone_time::Scene;
use axis_sets::{ZONE_LIMIT, ZoneId};
use job_types::Job;
use order_clocks::Clocks;
use out_of_memory::NoMemory;
use std::alloc::{AllocError, Global};
use sync_types::{Item, Run};
use zone_stretches::{Stretch, Stretches};

/// The stretches of a zone.
#[tactic(auto, unfolding(zone_stretches::specs::Stretches::stretches_of_zone))]
fn stretches_of_zone(alloc: Global, scene: &Scene, log: &Log) -> Result<Vec<Stretch>, AllocError>
    requires axes { length scene.now.job.now.axes ≤ AXIS_LIMIT }
    requires few { All (λ done. length done < 2 ^ 32) (all_items scene.now.items.now) }
    requires fit { All (All IsFit) (all_items scene.now.items.now) }
    ensures { (os : List OccurrenceView) → IsLog scene.now.job.now os log.now
        → IfOk result (λ stretches. stretches.items
        ≡ stretches_of_zone scene.now.job.now (all_items scene.now.items.now) os scene.now.zone.now) }
{
    let terms = terms_of(alloc, scene.job, log.exchanges.as_slice(), scene.zone)?;
    scene.stretches(alloc, log.outsets.as_slice(), terms.as_slice())
}

/// The stretches of each zone, in ascending order of the zones.
#[tactic(auto, unfolding(job_types::specs::Zones::zones_in_order))]
fn stretches_in_order(
    alloc: Global,
    job: &Job,
    items: &[Vec<Item>],
    log: &Log,
) -> Result<Vec<Vec<Stretch>>, AllocError>
    requires axes { length job.now.axes ≤ AXIS_LIMIT }
    requires few { All (λ done. length done < 2 ^ 32) (all_items items.now) }
    requires fit { All (All IsFit) (all_items items.now) }
    ensures { (os : List OccurrenceView) → IsLog job.now os log.now
        → IfOk result (λ zones. map (λ s. s.items) zones.items
        ≡ map (stretches_of_zone job.now (all_items items.now) os) (zones_in_order job.now)) }
{
    let mut zones = Vec::new(alloc);
    for index in 0..ZONE_LIMIT as u8 {
        if let Some(zone) = job.zone_line(ZoneId { number: index + 1 }) {
            let scene = Scene {
                job,
                zone: &zone,
                items,
            };
            let stretches = stretches_of_zone(alloc, &scene, log)?;
            zones.push(stretches)?;
        }
    }
    Ok(zones)
}

/// The stretches of each zone as they are told.
fn told(zones: Vec<Vec<Stretch>>) -> Stretches
    ensures { result.zones ≡ map (λ s. s.items) zones.items }
{
    Stretches { zones }
}

/// The time of each zone of a job in a run of it: its stretches in order, each with its boxes. They follow from the run alone, and
/// the clocks are not read. It takes memory for the stretches and boxes and, while it works, for the events of the run.
/// `NoMemory` where it finds too little.
pub fn stretches_of(
    alloc: Global,
    job: &Job,
    run: &Run,
    clocks: &Clocks,
) -> Result<Stretches, NoMemory>
    requires sound { IsSoundJob job.now }
    requires whole { (start : StartView) × ComesFrom start run.now }
    requires few_entries { length run.now.entries < 2 ^ 32 }
    requires few_items { All (λ done. length done < 2 ^ 32) run.now.items }
    requires fit { All (All IsFit) run.now.items }
    ensures { (start : StartView) → ComesFrom start run.now
        → IfOk result (λ s. s ≡ all_stretches job.now (first_board start) run.now) }
{
    let _ = clocks;
    let log = log_of(alloc, job, run.entries(), run.ends())?;
    let zones = stretches_in_order(alloc, job, run.items(), &log)?;
    Ok(told(zones))
}
