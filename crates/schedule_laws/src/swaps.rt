//! Two steps in either order.
ghost use Rattle.std.specs.Prelude.{◌≡◌, ◌==◌, ◌≤◌, List, true, false, length, OnOk, OnErr};
ghost use Rattle.coord_core.specs.Boards.{replayed, with_step, HaveSameEntries};
ghost use Rattle.schedule_laws.specs.BoardPairs.{BothStay, TellTheSameWithoutRaces};
ghost use Rattle.schedule_laws.specs.Swaps.{StepsMaySwap};
ghost use Rattle.sync_types.specs.Boards.{is_running, first_board};
ghost use Rattle.sync_types.specs.Starts.{IsSound};
ghost use Rattle.sync_types.specs.Turns.{Move, AreEntries};
ghost use Rattle.sync_types.specs.Views.{StartView};

use axis_sets::ChannelId;
use coord_core::Board;
use out_of_memory::NoMemory;
use sync_types::Step;

// A step of a channel that runs, and then one of another, where there is room for them.
fn act_twice(
    board: &mut Board,
    first: ChannelId,
    first_step: &Step,
    second: ChannelId,
    second_step: &Step,
)
    requires first_runs { is_running ((replayed board.old).state first) ≡ true }
    requires second_runs { is_running ((replayed board.old).state second) ≡ true }
    requires differ { (second == first) ≡ false }
    requires room { 2 ≤ board.old.spare }
    ensures steps { HaveSameEntries board.new
        (with_step (with_step board.old first first_step.now) second second_step.now) }
    ensures sound { IsSound board.old.start }
    ensures lawful { AreEntries (first_board board.old.start) board.old.entries }
{
    board.entries();
    board.act_reserved(first, *first_step);
    board.act_reserved(second, *second_step);
}

/// Makes the steps of two channels that run on two boards that are the same: on the left first that of `p`, on the
/// right first that of `q`. Where the left shows no race in them, both boards are the same again, with the same
/// events in the same order, and the right shows none either. Where no memory is found both have the entries that
/// they had, the left has no less room, and the right is as before.
pub fn swap_steps(
    left: &mut Board,
    right: &mut Board,
    p: ChannelId,
    p_step: Step,
    q: ChannelId,
    q_step: Step,
) -> Result<(), NoMemory>
    requires same { HaveSameEntries left.old right.old }
    requires p_runs { is_running ((replayed left.old).state p) ≡ true }
    requires q_runs { is_running ((replayed left.old).state q) ≡ true }
    requires differ { (p == q) ≡ false }
    ensures left { OnOk result (HaveSameEntries left.new (with_step (with_step left.old p p_step) q q_step)) }
    ensures right { OnOk result (HaveSameEntries right.new (with_step (with_step right.old q q_step) p p_step)) }
    ensures law { OnOk result (TellTheSameWithoutRaces left.new right.new (length left.old.entries)) }
    ensures none { OnErr result (BothStay left.new left.old right.new right.old) }
{
    left.reserve(2)?;
    right.reserve(2)?;
    act_twice(left, p, &p_step, q, &q_step);
    act_twice(right, q, &q_step, p, &p_step);
    Ok(())
}

/// A law: where two channels run and a step of the one and then one of the other show no race, the steps in the
/// other order lead to the same board, with the same events in the same order, and show none.
pub fn steps_may_be_swapped()
    ensures { (start : StartView) (ms : List Move) (one other : Move) → StepsMaySwap start ms one other }
{}
