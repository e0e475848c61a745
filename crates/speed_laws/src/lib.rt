//! Laws of all speeds: what a verdict on the run in order says of every state that the channels of a job pass through, and
//! that any other maximal run would do. It runs no code.
#![tactic(auto)]

ghost use Rattle.std.specs.Prelude.{◌≡◌, ℕ, List, None, find};
ghost use Rattle.channel_machine.specs.StartStates.{start_of};
ghost use Rattle.job_types.specs.Job.{JobView};
ghost use Rattle.job_types.specs.SoundJob.{IsSoundJob};
ghost use Rattle.job_types.specs.declared.job.ZoneLine.{ZoneLine};
ghost use Rattle.order_clocks.specs.Clocked.{IsOrderOf, moves_in};
ghost use Rattle.schedule_laws.specs.Schedules.{IsQuietRun};
ghost use Rattle.speed_laws.specs.AlikeRuns.{QuietRunsHaveAlikeZoneTimes};
ghost use Rattle.speed_laws.specs.Cuts.{RunsAreCuts, ZonesHavePresentStretches};
ghost use Rattle.speed_laws.specs.DoingLaws.{AreSound, TellTheBoard};
ghost use Rattle.speed_laws.specs.Doings.{Doings};
ghost use Rattle.speed_laws.specs.Histories.{ChannelsHaveHistories, IsRunBy};
ghost use Rattle.speed_laws.specs.Safety.{CanAct, IsSafeAlways, MotionsJoin, NoAxisJumps, NoZoneSwitches};
ghost use Rattle.speed_laws.specs.ZoneTimes.{ZoneTimesInOrder};
ghost use Rattle.sync_types.specs.Boards.{first_board};
ghost use Rattle.sync_types.specs.Runs.{Script};
ghost use Rattle.sync_types.specs.Views.{RunView, StartView};
ghost use Rattle.zone_stretches.specs.Overlaps.{Order, compared_pairs};
ghost use Rattle.zone_stretches.specs.Pieces.{pair_meets};
ghost use Rattle.zone_stretches.specs.Stretches.{all_stretches};

/// A law: where no compared pair of a run without a race that speaks for all runs of an accepted job meets, no two zones of
/// different groups that are on meet in any state that small steps reach, in whatever order the channels act and however fast
/// each of them is, and each axis has one owner there.
pub fn zones_never_meet()
    ensures { (job : JobView) (doings : Doings) (speaking : List ℕ) (run : RunView) (before : Order)
        → IsSoundJob job → AreSound job doings → IsQuietRun doings.script (start_of job) speaking
        → IsRunBy job doings speaking run
        → IsOrderOf (first_board (start_of job)) (moves_in run.entries) before
        → find (pair_meets job run) (compared_pairs before job (all_stretches job (first_board (start_of job)) run))
        ≡ None
        → IsSafeAlways job doings }
{}

/// A law: no axis of an accepted job jumps, and no zone is switched but by its holder. Each motion begins where the motions before
/// it left its axes; and where a channel acts, whatever it waits for, hands over or takes then, and whoever goes on, each axis is
/// afterwards where it was, and each zone is on that was on, and no other.
pub fn axes_never_jump()
    ensures motions { (job : JobView) (doings : Doings) → AreSound job doings → MotionsJoin job doings }
    ensures axes { (job : JobView) (doings : Doings) → IsSoundJob job → AreSound job doings
        → TellTheBoard job doings → NoAxisJumps job doings }
    ensures zones { (job : JobView) (doings : Doings) → IsSoundJob job
        → TellTheBoard job doings → NoZoneSwitches job doings }
{}

/// A law: small steps of an accepted job do not get stuck: from every state that they reach each running channel can go on to
/// where it acts.
pub fn channels_can_act()
    ensures { (job : JobView) (doings : Doings) → IsSoundJob job → AreSound job doings → CanAct job doings }
{}

/// A law: in each whole run of an accepted job the time of each zone falls into its stretches: the first begins with the job,
/// each ends with a later event, with which the next one begins, and the last one lasts.
pub fn zone_times_are_in_order()
    ensures { (job : JobView) (run : RunView) → ZoneTimesInOrder job run }
{}

/// A law: what the events of a channel tell, in each run from a sound start, is its history by the grants that it gets: it
/// depends on nothing else that the other channels do.
pub fn channels_have_histories()
    ensures { (doings : Doings) (start : StartView) (cs : List ℕ) (c : ℕ) → ChannelsHaveHistories doings start cs c }
{}

/// A law: what a run has made of a run without a race that speaks for it is a cut of its events: with each event all that are
/// before it are made, and of each channel its first events.
pub fn runs_are_cuts()
    ensures { (script : Script) (start : StartView) (speaking made : List ℕ) → RunsAreCuts script start speaking made }
{}

/// A law: wherever a run of an accepted job is, each zone is in a stretch of the run without a race that speaks for it: the
/// stretch has begun, is not over, and is of the channel that holds the zone then, or of none where nobody holds it.
pub fn zones_have_present_stretches()
    ensures { (job : JobView) (doings : Doings) (speaking made : List ℕ) (zone : ZoneLine)
        → ZonesHavePresentStretches job doings speaking made zone }
{}

/// A law: a run without a race of an accepted job and each other maximal run have the same times of zones: of each zone the same
/// stretches with the same boxes and motions, one by one, and two of them may overlap in the one run where they may in the other.
pub fn quiet_runs_have_the_same_zone_times()
    ensures { (job : JobView) (doings : Doings) (quiet maximal : List ℕ) (run other : RunView) (before after : Order)
        → QuietRunsHaveAlikeZoneTimes job doings quiet maximal run other before after }
{}
