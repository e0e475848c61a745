//! Laws of the board on which the channels of a run meet: two steps without a race may be taken in the other
//! order, and so one run without a race speaks for all runs. It runs no code.
#![tactic(auto)]

ghost use Rattle.std.specs.Prelude.{ℕ, List};
ghost use Rattle.board_laws.specs.Absorption.{GoingsAreAbsorbed, GoingsMayWait, StaysAtRest, StepsAreActs};
ghost use Rattle.board_laws.specs.Laws.{GoesAtOnce, SpeaksForAll, StepsSwap, ZonesGoWithAxes};
ghost use Rattle.board_laws.specs.Machine.{State};
ghost use Rattle.sync_types.specs.Boards.{Board};
ghost use Rattle.sync_types.specs.Runs.{Script};
ghost use Rattle.sync_types.specs.Views.{StartView};
ghost use Rattle.sync_types.specs.declared.Step.{Step};

/// A law: where all that is ready to go on and the own part of a step leave each other alone, it is the same whether
/// it goes on before that step or with what goes on after it.
pub fn goings_are_absorbed()
    ensures { (t : State) (q : ℕ) (step : Step) → GoingsAreAbsorbed t q step }
{}

/// A law: what goes on after a step may wait for the next step of another channel that runs; the one way is clean exactly
/// where the other is, and then both lead to the same state.
pub fn goings_may_wait()
    ensures { (b : State) (p q : ℕ) (p_step q_step : Step) → GoingsMayWait b p q p_step q_step }
{}

/// A law: whatever its action, a step makes of its own part what the laws let an action do.
pub fn steps_are_acts()
    ensures { (b : State) (p : ℕ) (step : Step) → StepsAreActs b p step }
{}

/// A law: each step leads from rest to rest, where clocks and places are within the counts of events and nobody is
/// left started.
pub fn steps_come_to_rest()
    ensures { (b : State) (p : ℕ) (step : Step) → StaysAtRest b p step }
{}

/// A law: two steps of running channels that are clean in one order are clean in the other, and lead to the same
/// state.
pub fn clean_steps_may_be_swapped()
    ensures { (b : State) (p q : ℕ) (p_step q_step : Step) → StepsSwap b p q p_step q_step }
{}

/// A law: where one run after which nobody runs is clean, every run is, and goes on to the same state.
pub fn one_clean_run_speaks_for_all()
    ensures { (script : Script) (x z : State) (ps vs : List ℕ) → SpeaksForAll script x ps z vs }
{}

/// A law: the rules of who goes on, one after another, are all at once in a clean step.
pub fn who_goes_on_goes_at_once()
    ensures { (b : State) (p : ℕ) (step : Step) → GoesAtOnce b p step }
{}

/// A law: zones go with the axes that carry them.
pub fn zones_go_with_axes()
    ensures { (start : StartView) (b : Board) (c : ℕ) (step : Step) → ZonesGoWithAxes start b c step }
{}
