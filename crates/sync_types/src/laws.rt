//! What is true of every board.
ghost use Rattle.std.specs.Prelude.{ℕ, List};
ghost use Rattle.sync_types.specs.Boards.{Board};
ghost use Rattle.sync_types.specs.RunLaws.{NobodyCanGo, AlarmLetsNobodyGo, FewGoOn, RunIsReplay, EntriesAreReplay, SequentialIsOne, AllHaveEnds, MaximalRunsComeFrom, AreOneAlike, HasOneLowestName};
ghost use Rattle.sync_types.specs.Runs.{Script, Stage, IsRun, IsSequential};
ghost use Rattle.sync_types.specs.Togetherness.{StaysTogether};
ghost use Rattle.sync_types.specs.Turns.{Move, AreOfRunning, after_step};
ghost use Rattle.sync_types.specs.Views.{StartView};
ghost use Rattle.sync_types.specs.declared.Step.{Step};
ghost use Rattle.sync_types.specs.declared.Item.{Item};
ghost use Rattle.sync_types.specs.declared.runs.EventId.{EventId};

/// A law: from a sound start on, after any steps, each axis has one owner or is free at one position, and
/// all axes of a zone have its holder as their owner, or are free where it has none.
pub fn axes_stay_together()
    ensures { (start : StartView) (moves : List Move) → StaysTogether start moves }
{}

/// A law: a run is the replay of its steps, and of its entries, and from a sound start a maximal run gives
/// entries and ends that come from it.
pub fn runs_are_replays()
    ensures steps { (script : Script) (stage : Stage) (cs : List ℕ) → IsRun script stage cs
        → RunIsReplay script stage cs }
    ensures entries { (b : Board) (moves : List Move) → AreOfRunning b moves → EntriesAreReplay b moves }
    ensures whole { (script : Script) (start : StartView) (cs : List ℕ) (items : List (List Item))
        → MaximalRunsComeFrom script start cs items }
{}

/// A law: the sequential run is a maximal run, and there is only one.
pub fn the_sequential_run_is_one()
    ensures { (script : Script) (stage : Stage) (cs ds : List ℕ) → IsSequential script stage cs
        → SequentialIsOne script stage cs ds }
{}

/// A law: where no channel runs each channel has its end.
pub fn a_run_that_is_over_has_all_ends()
    ensures { (b : Board) → AllHaveEnds b }
{}

/// A law: to be one event is an equivalence, and an event has one lowest name.
pub fn events_are_one_alike()
    ensures alike { (b : Board) (moves : List Move) (e f g : EventId) → AreOneAlike b moves e f g }
    ensures lowest { (b : Board) (moves : List Move) (e f : EventId) → HasOneLowestName b moves e f }
{}

/// A law: after a step nobody still waits whose wait has its end, so nobody goes on in a step that alarms.
pub fn after_a_step_nobody_can_go()
    ensures settled { (b : Board) (c : ℕ) (step : Step) → NobodyCanGo (after_step b c step) }
    ensures alarms { (b : Board) (c : ℕ) (step : Step) → AlarmLetsNobodyGo b c step }
{}

/// A law: no more channels go on in a step than there can be.
pub fn few_go_on()
    ensures { (b : Board) (c : ℕ) (step : Step) → FewGoOn b c step }
{}
