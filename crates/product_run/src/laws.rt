//! What is so of all runs of a job.
ghost use Rattle.std.specs.Prelude.{ℕ, List};
ghost use Rattle.job_types.specs.Job.{JobView};
ghost use Rattle.product_run.specs.RunLaws.{IsShort, MovesWhatItOwns, StandsByGrants, HasGotLast, GrantsFit, OwnsItsGrant, SwitchesWhatItHolds, HasFewEntries, RunsAreSound, RunsAreWhole, RunsInOrderAreMaximal};
ghost use Rattle.sync_types.specs.Views.{StartView, RunView};
ghost use Rattle.sync_types.specs.declared.Grant.{Grant};

/// A law: all channels of a job together make at most 800,008 steps, however they take turns: each step but the last of a
/// channel is after a block more.
pub fn runs_are_short()
    ensures { (job : JobView) (cs : List ℕ) → IsShort job cs }
{}

/// A law: each motion of a segment is one of axes that the channel's last grant gives, from where they stand. They stand at
/// first where the grant of the start has them, and then where each further grant has them, or where the segment before it
/// left them. In each run a channel that runs has got last what the board says that it goes on with.
pub fn segments_move_what_they_own()
    ensures moves { (job : JobView) (c : ℕ) (made : List Grant) (grant : Grant) → MovesWhatItOwns job c made grant }
    ensures stands { (job : JobView) (c : ℕ) (made : List Grant) (grant next : Grant) (axis : ℕ)
        → StandsByGrants job c made grant next axis }
    ensures granted { (job : JobView) (start : StartView) (cs : List ℕ) (c : ℕ) (grant : Grant)
        → HasGotLast job start cs c grant }
{}

/// A law: in each run of an accepted job, however its channels take turns, a channel that runs owns the axes of its grant and
/// no others, and its segment switches only zones that it holds: each axis that carries such a zone is its own.
pub fn segments_switch_what_they_hold()
    ensures owns { (job : JobView) (cs : List ℕ) (c : ℕ) (grant : Grant) → OwnsItsGrant job cs c grant }
    ensures holds { (job : JobView) (cs : List ℕ) (c : ℕ) → SwitchesWhatItHolds job cs c }
{}

/// A law: in each run of an accepted job, however its channels take turns, the grant with which a channel runs fits what is
/// kept of the channel after its segments so far, or a channel that starts where it has made none.
pub fn grants_fit_their_channels()
    ensures { (job : JobView) (cs : List ℕ) (c : ℕ) (grant : Grant) → GrantsFit job cs c grant }
{}

/// A law: the run in order is one of the runs after which no channel runs, however the channels of the job take turns.
pub fn runs_in_order_are_maximal()
    ensures { (job : JobView) (start : StartView) (run : RunView) → RunsInOrderAreMaximal job start run }
{}

/// A law: from a sound start each run after which no channel runs is a whole run, with items for each of its entries, and a
/// job's run has at most 800,008 of these.
pub fn runs_are_whole()
    ensures whole { (job : JobView) (start : StartView) (run : RunView) → RunsAreWhole job start run }
    ensures few { (job : JobView) (run : RunView) → HasFewEntries job run }
{}

/// A law: in each run of an accepted job after which no channel runs each motion is sound and has axes that there are, all channels together do
/// at most 800,000 things, one for each block that they may execute, and each alarm that stops a channel is in the table of
/// alarms.
pub fn runs_are_sound()
    ensures { (job : JobView) (run : RunView) → RunsAreSound job run }
{}
