//! A run of a job is judged.
ghost use Rattle.std.specs.Prelude.{◌≡◌, ◌≤◌, All, IfOk, length};
ghost use Rattle.channel_machine.specs.StartStates.{start_of};
ghost use Rattle.clash_check.specs.Counts.{count_of};
ghost use Rattle.job_report.specs.Channels.{IsListedEnd};
ghost use Rattle.job_types.specs.SoundJob.{BlocksFit, IsSoundJob};
ghost use Rattle.order_clocks.specs.Tells.{is_before_in};
ghost use Rattle.product_run.specs.RunLaws.{step_limit};
ghost use Rattle.channel_machine.specs.Scripts.{IsMaximalRunOf, IsRunInOrder};
ghost use Rattle.turnmill.specs.Judgements.{IsJudgedByClocks};
ghost use Rattle.turnmill.specs.Output.{CallsForReport};

use clash_check::{count, judge, judge_shared};
use order_clocks::{Clocks, clocks_of};
use out_of_memory::NoMemory;
use product_run::run_in_order;
use protection_zones::{Stretches, stretches_of};
use std::alloc::Global;
use std::thread::Threads;
use sync_types::{Run, Verdict};
use tape_job::Job;

/// A run of a job and the verdict on it, with the clocks and the stretches of zones that the verdict rests on.
#[derive(Drop)]
pub(crate) struct Judgement {
    pub(crate) run: Run,
    pub(crate) clocks: Clocks,
    pub(crate) stretches: Stretches,
    pub(crate) verdict: Verdict,
}

/// Judges a run of a job after which no channel runs, in whatever order they took turns.
pub(crate) fn judge_run(alloc: Global, job: &Job, run: Run) -> Result<Judgement, NoMemory>
    requires accepted { IsSoundJob job.now }
    requires maximal { IsMaximalRunOf job.now (start_of job.now) run }
    ensures judged { IfOk result (λ j. IsJudgedByClocks job.now j.run j.clocks j.stretches j.verdict) }
    ensures same { IfOk result (λ j. j.run ≡ run) }
{
    let clocks = clocks_of(alloc, &run)?;
    let stretches = stretches_of(alloc, job, &run, &clocks)?;
    let verdict = judge(alloc, job, &run, &stretches, &clocks)?;
    Ok(Judgement {
        run,
        clocks,
        stretches,
        verdict,
    })
}

/// Judges a run as `judge_run` does. The pairs of zones are shared out to threads.
pub(crate) fn judge_by_threads<R: Threads + Sync>(
    rt: &R,
    alloc: Global,
    job: &Job,
    run: Run,
) -> Result<Judgement, NoMemory>
    requires accepted { IsSoundJob job.now }
    requires maximal { IsMaximalRunOf job.now (start_of job.now) run }
    ensures judged { IfOk result (λ j. IsJudgedByClocks job.now j.run j.clocks j.stretches j.verdict) }
    ensures same { IfOk result (λ j. j.run ≡ run) }
{
    let clocks = clocks_of(alloc, &run)?;
    let stretches = stretches_of(alloc, job, &run, &clocks)?;
    let verdict = judge_shared(rt, alloc, job, &run, &stretches, &clocks)?;
    Ok(Judgement {
        run,
        clocks,
        stretches,
        verdict,
    })
}

/// Runs a job in order, and judges the run.
pub(crate) fn judge_job(alloc: Global, job: &Job) -> Result<Judgement, NoMemory>
    requires accepted { IsSoundJob job.now }
    requires indices { BlocksFit job.now }
    ensures judged { IfOk result (λ j. IsJudgedByClocks job.now j.run j.clocks j.stretches j.verdict) }
    ensures in_order { IfOk result (λ j. IsRunInOrder job.now (start_of job.now) j.run) }
{
    let run = run_in_order(alloc, job)?;
    judge_run(alloc, job, run)
}

/// Runs a job in order, and judges the run for its report.
pub(crate) fn judge_in_order(alloc: Global, job: &Job) -> Result<Judgement, NoMemory>
    requires accepted { IsSoundJob job.now }
    requires indices { BlocksFit job.now }
    ensures reported { IfOk result (λ j. CallsForReport job.now j.run j.verdict) }
    ensures listed { IfOk result (λ j. All IsListedEnd j.run.ends) }
    ensures few { IfOk result (λ j. length j.run.entries ≤ step_limit) }
{
    judge_job(alloc, job)
}

/// How many pairs of boxes are compared.
pub(crate) fn pair_count(job: &Job, judgement: &Judgement) -> u64
    requires accepted { IsSoundJob job.now }
    requires judged { IsJudgedByClocks job.now judgement.now.run judgement.now.clocks
        judgement.now.stretches judgement.now.verdict }
    ensures { result ≡ count_of (is_before_in judgement.now.clocks.rows) job.now judgement.now.stretches }
{
    judgement.run.see_goes();
    count(job, &judgement.stretches, &judgement.clocks)
}
