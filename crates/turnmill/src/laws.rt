//! What an input calls for is one, whichever run without a race is judged; and what the channels of every accepted job
//! do in every run of it, as the laws of all speeds ask.
ghost use Rattle.std.specs.Prelude.{ℕ, List};
ghost use Rattle.job_types.specs.Job.{JobView};
ghost use Rattle.job_types.specs.SoundJob.{IsSoundJob};
ghost use Rattle.speed_laws.specs.DoingLaws.{AreSound, TellTheBoard};
ghost use Rattle.sync_types.specs.Views.{RunView};
ghost use Rattle.sync_types.specs.declared.verdicts.Verdict.{Verdict};
ghost use Rattle.turnmill.specs.AnyRun.{QuietRunsAreReported};
ghost use Rattle.turnmill.specs.JobDoings.{doings_of};
ghost use Rattle.turnmill.specs.OneOutput.{CallsForOneOutput};

/// A law: an input calls for one output. How the call ends and the bytes that it writes are one.
pub fn inputs_call_for_one_output()
    ensures { (input : List ℕ) → CallsForOneOutput input }
{}

/// A law: an accepted job calls for the report of its run in order and the status of the verdict on it. Where a run
/// after which no channel runs has no race, in whatever order the channels took turns, the job calls for its report and
/// its status: they are the same.
pub fn quiet_runs_are_reported()
    ensures { (job : JobView) (run : RunView) (verdict : Verdict) → QuietRunsAreReported job run verdict }
{}

/// A law: in every run of an accepted job, however its channels take turns, a channel that runs knows where its axes
/// stand, and its motions join and have only axes that it owns; and its step tells the board where all its axes stand,
/// and which of the zones that it holds are on. So the laws `zones_never_meet`, `axes_never_jump` and
/// `channels_can_act` of `speed_laws` hold of it.
pub fn jobs_do_as_laws_ask()
    ensures moves { (job : JobView) → IsSoundJob job → AreSound job (doings_of job) }
    ensures tells { (job : JobView) → IsSoundJob job → TellTheBoard job (doings_of job) }
{}
