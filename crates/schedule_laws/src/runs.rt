//! All runs of one script.
ghost use Rattle.std.specs.Prelude.{ℕ, List};
ghost use Rattle.schedule_laws.specs.Schedules.{AllMaximalRunsAgree, SpeaksForEveryRun};
ghost use Rattle.schedule_laws.specs.Tracking.{FieldsAreOfTheRun, QuietRunsAreClean, RunsAreTracked};
ghost use Rattle.sync_types.specs.Runs.{Script};
ghost use Rattle.sync_types.specs.Turns.{Move};
ghost use Rattle.sync_types.specs.Views.{StartView};

/// A law: where one maximal run has no race, no run has one, and every run goes on to a maximal one, with the same
/// events in the same order, the same grants of each channel, the same ends and the same board.
pub fn one_quiet_run_speaks_for_all()
    ensures every { (script : Script) (start : StartView) (cs vs : List ℕ) → SpeaksForEveryRun script start cs vs }
    ensures maximal { (script : Script) (start : StartView) (cs vs : List ℕ) → AllMaximalRunsAgree script start cs vs }
{}

/// A law: the machine of the laws of the board tracks every run, and a step of a run has no race exactly where that
/// of the machine is clean.
pub fn runs_are_tracked()
    ensures { (start : StartView) (moves : List Move) (i : ℕ) (m : Move) → RunsAreTracked start moves i m }
{}

/// A law: in every run the machine has the board, the number of events of each channel, and clocks that tell which
/// event is before which.
pub fn fields_are_those_of_the_run()
    ensures { (start : StartView) (moves : List Move) (i : ℕ) → FieldsAreOfTheRun start moves i }
{}

/// A law: a run has no race exactly where each step of the machine is clean that makes the same steps, and then the
/// machine ends as the run does.
pub fn quiet_runs_are_clean()
    ensures { (start : StartView) (moves : List Move) → QuietRunsAreClean start moves }
{}
