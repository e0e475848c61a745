//! A job is run in order, and the run is judged.
ghost use Rattle.std.specs.Prelude.{◌≡◌, IfOk};
ghost use Rattle.explain.specs.Judgements.{AreMet, IsExplainedBy};
ghost use Rattle.job_types.specs.SoundJob.{BlocksFit, IsSoundJob};
ghost use Rattle.order_clocks.specs.Tells.{is_before_in};
ghost use Rattle.explain_meetings.specs.Meetings.{meetings_of};

use crate::progress::{Stage, Watch};
use clash_check::judge;
use explain_meetings::meetings_of;
use explain_places::Meeting;
use job_types::Job;
use order_clocks::{Clocks, clocks_of};
use out_of_memory::NoMemory;
use product_run::run_in_order;
use protection_zones::{Stretches, stretches_of};
use std::alloc::Global;
use sync_types::{Run, Verdict};

/// The run of a job in order and the verdict on it, with the clocks and the stretches of zones that the verdict rests on.
#[derive(Drop)]
pub(crate) struct Judgement {
    pub(crate) run: Run,
    pub(crate) clocks: Clocks,
    pub(crate) stretches: Stretches,
    pub(crate) verdict: Verdict,
}

/// Runs a job and judges the run.
pub(crate) fn judge_job<W: Watch>(
    alloc: Global,
    job: &Job,
    watch: &mut W,
) -> Result<Judgement, NoMemory>
    requires accepted { IsSoundJob job.now }
    requires indices { BlocksFit job.now }
    ensures { IfOk result (λ j. IsExplainedBy job.now j.run j.clocks j.stretches j.verdict) }
{
    watch.begins(Stage::Running);
    let run = run_in_order(alloc, job)?;
    watch.begins(Stage::Ordering);
    let clocks = clocks_of(alloc, &run)?;
    watch.begins(Stage::Timing);
    let stretches = stretches_of(alloc, job, &run, &clocks)?;
    watch.begins(Stage::Judging);
    let verdict = judge(alloc, job, &run, &stretches, &clocks)?;
    Ok(Judgement {
        run,
        clocks,
        stretches,
        verdict,
    })
}

/// All boxes that meet.
fn all_met(alloc: Global, job: &Job, judgement: &Judgement) -> Result<Vec<Meeting>, NoMemory>
    requires accepted { IsSoundJob job.now }
    requires judged { IsExplainedBy job.now judgement.now.run judgement.now.clocks
        judgement.now.stretches judgement.now.verdict }
    ensures { IfOk result (λ met. met.items ≡ meetings_of (is_before_in judgement.now.clocks.rows) job.now
        judgement.now.run judgement.now.stretches) }
{
    meetings_of(
        alloc,
        job,
        &judgement.run,
        &judgement.stretches,
        &judgement.clocks,
    )
}

/// All boxes that meet, where the verdict names the first two; else none.
pub(crate) fn met_in(
    alloc: Global,
    job: &Job,
    judgement: &Judgement,
) -> Result<Vec<Meeting>, NoMemory>
    requires accepted { IsSoundJob job.now }
    requires judged { IsExplainedBy job.now judgement.now.run judgement.now.clocks
        judgement.now.stretches judgement.now.verdict }
    ensures { IfOk result (λ met. AreMet (is_before_in judgement.now.clocks.rows) job.now judgement.now.run
        judgement.now.stretches judgement.now.verdict met.items) }
{
    match judgement.verdict {
        Verdict::No(_, _) => all_met(alloc, job, judgement),
        Verdict::Yes
        | Verdict::Race(_)
        | Verdict::Stuck(_, _)
        | Verdict::Alarm(_, _)
        | Verdict::Undecided { .. } => Ok(Vec::new(alloc)),
    }
}
