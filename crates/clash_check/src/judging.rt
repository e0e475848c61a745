//! The verdict on a whole run of a job.
ghost use Rattle.std.specs.Prelude.{◌≡◌, ◌<◌, ◌^◌, All, IfOk, length, sum_by};
ghost use Rattle.clash_check.specs.FirstAnswer.{first_some};
ghost use Rattle.clash_check.specs.Meetings.{verdict_by_names};
ghost use Rattle.clash_check.specs.Verdicts as model;
ghost use Rattle.job_types.specs.SoundJob.{IsSoundJob};
ghost use Rattle.order_clocks.specs.Tells.{is_before_in};
ghost use Rattle.sync_types.specs.declared.verdicts.Verdict.{Verdict};
ghost use Rattle.zone_stretches.specs.Told.{IsTold};
ghost use Rattle.zone_stretches.specs.ZoneBoxes.{IsFit};

use crate::contexts::Scene;
use crate::nearby::KEPT_LIMIT;
use crate::pair_counts::count;
use crate::sharing::first_by_threads;
use crate::zone_pairs::{first_of_pairs, zone_pairs};
use job_types::Job;
use order_clocks::Clocks;
use out_of_memory::NoMemory;
use std::alloc::Global;
use std::thread::Threads;
use stop_verdicts::stopped_verdict;
use sync_types::{PlaceName, Run, Verdict};
use zone_stretches::{Stretches, ascents_of, lists_of};

/// UNDECIDED where more pairs of boxes are to be compared than the job allows.
fn budget_verdict(job: &Job, run: &Run, stretches: &Stretches, clocks: &Clocks) -> Option<Verdict>
    requires told { IsTold job.now run.now stretches.now clocks.now }
    requires few_entries { length run.now.entries < 2 ^ 20 }
    requires few_items { sum_by length run.now.items < 2 ^ 20 }
    ensures { (later : Verdict) → model.or_else result later
        ≡ model.or_else (model.budget_verdict (is_before_in clocks.now.rows) job.now stretches.now) later }
{
    run.see_goes();
    let count = count(job, stretches, clocks);
    if count > u64::from(job.budget) {
        Some(Verdict::Undecided {
            count,
            budget: job.budget,
        })
    } else {
        None
    }
}

/// The verdict where it comes before any two boxes are compared.
fn verdict_before(job: &Job, run: &Run, stretches: &Stretches, clocks: &Clocks) -> Option<Verdict>
    requires told { IsTold job.now run.now stretches.now clocks.now }
    requires few_entries { length run.now.entries < 2 ^ 20 }
    requires few_items { sum_by length run.now.items < 2 ^ 20 }
    ensures { (later : Verdict) → model.or_else result later ≡ model.or_else (model.race_verdict clocks.now.race)
        (model.or_else (first_some (λ stop. model.alarm_by stop.0 stop.1) (model.stops_of job.now run.now))
        (model.or_else (first_some (λ stop. model.stuck_by stop.0 stop.1) (model.stops_of job.now run.now))
        (model.or_else (model.budget_verdict (is_before_in clocks.now.rows) job.now stretches.now) later))) }
{
    match stopped_verdict(job, run, clocks.first_race()) {
        Some(verdict) => Some(verdict),
        None => budget_verdict(job, run, stretches, clocks),
    }
}

/// NO by the names of two boxes that meet, and YES where there are none.
fn verdict_by_names(names: Option<(PlaceName, PlaceName)>) -> Verdict
    ensures { result ≡ verdict_by_names names }
{
    match names {
        Some((first, second)) => Verdict::No(first, second),
        None => Verdict::Yes,
    }
}

/// The verdict on a whole run of a job, the first that fits: RACE where the run has a race, with the first; ALARM of the lowest
/// channel that an alarm has stopped; STUCK of the lowest that waits; UNDECIDED where more pairs of boxes are to be compared than
/// the job allows; NO with the first two boxes that meet; YES. `NoMemory` where it finds too little for the pairs of zones, of 16
/// bytes each. It takes memory for the places of stretches too, and for what is kept of the boxes of one stretch at a time: a tree
/// over their covers, and their pieces as far as there is room. It works on without these, though not as fast.
pub fn judge(
    alloc: Global,
    job: &Job,
    run: &Run,
    stretches: &Stretches,
    clocks: &Clocks,
) -> Result<Verdict, NoMemory>
    requires sound { IsSoundJob job.now }
    requires whole { IsTold job.now run.now stretches.now clocks.now }
    requires few_entries { length run.now.entries < 2 ^ 20 }
    requires few_items { sum_by length run.now.items < 2 ^ 20 }
    requires fit { All (All IsFit) run.now.items }
    ensures { IfOk result (λ verdict. verdict ≡ model.verdict_by (is_before_in clocks.now.rows) clocks.now.race
        job.now run.now stretches.now) }
{
    if let Some(verdict) = verdict_before(job, run, stretches, clocks) {
        return Ok(verdict);
    }
    let scene = Scene {
        alloc,
        room: KEPT_LIMIT,
        job,
        run,
        clocks,
    };
    let lists = lists_of(stretches);
    let ascents = ascents_of(clocks, lists);
    let pairs = zone_pairs(alloc, lists.len())?;
    Ok(verdict_by_names(first_of_pairs(&scene, lists, &ascents, &pairs)))
}

/// The verdict that `judge` gives. The pairs of zones are shared out to threads, in at most 16 chunks, each with a thread of its own
/// where one can be made; the verdict does not depend on how. It takes memory as `judge` does, in each chunk at the same time, and
/// for what is found in the chunks; the pieces that are kept at one time take no more room than those of `judge`. Where it finds too
/// little for the chunks, it looks at one pair of zones after another. `NoMemory` as `judge` answers it.
pub fn judge_shared<R: Threads + Sync>(
    rt: &R,
    alloc: Global,
    job: &Job,
    run: &Run,
    stretches: &Stretches,
    clocks: &Clocks,
) -> Result<Verdict, NoMemory>
    requires sound { IsSoundJob job.now }
    requires whole { IsTold job.now run.now stretches.now clocks.now }
    requires few_entries { length run.now.entries < 2 ^ 20 }
    requires few_items { sum_by length run.now.items < 2 ^ 20 }
    requires fit { All (All IsFit) run.now.items }
    ensures { IfOk result (λ verdict. verdict ≡ model.verdict_by (is_before_in clocks.now.rows) clocks.now.race
        job.now run.now stretches.now) }
{
    if let Some(verdict) = verdict_before(job, run, stretches, clocks) {
        return Ok(verdict);
    }
    let scene = Scene {
        alloc,
        room: KEPT_LIMIT,
        job,
        run,
        clocks,
    };
    let lists = lists_of(stretches);
    let ascents = ascents_of(clocks, lists);
    let pairs = zone_pairs(alloc, lists.len())?;
    let names = first_by_threads(rt, &scene, lists, &ascents, &pairs);
    Ok(verdict_by_names(names))
}
