//! A board of one caller, who knows all that happens at it.
ghost use Rattle.std.specs.Prelude.{◌≡◌, Some};
ghost use Rattle.coord_core.specs.Histories.{history_of, answer_of};
ghost use Rattle.shared_board.specs.Passes.{told_of};
ghost use Rattle.sync_types.specs.Boards.{first_board};
ghost use Rattle.sync_types.specs.Turns.{AreEntries};

use axis_sets::ChannelId;
use coord_core::{Desk, Locked, Outcome, act_turn, close_turn, look_turn};
use std::sync::Wait;
use sync_types::Step;

/// A desk whose board one caller has for itself, in its pass. The pass tells all: for tests of who works at any desk.
#[derive(Drop)]
pub struct MemoryDesk {
    /// Tells it from other desks.
    pub number: u32,
}

/// The pass of a [`MemoryDesk`], with the board.
#[derive(Drop)]
pub struct MemoryPass {
    /// The number of its desk.
    pub number: u32,
    /// The channel.
    pub channel: ChannelId,
    /// The board, and whether it was closed.
    pub locked: Locked,
}

// Waits for good.
fn wait_in_vain<R: Wait>(rt: &R) -> Outcome
    ensures { ⊥ }
{
    for _ in rt.forever() {}
    unreachable!()
}

// Looks once. Nobody else makes a turn, so there is nothing to wait for.
fn look_or_wait<R: Wait>(rt: &R, locked: &Locked, channel: ChannelId) -> Outcome
    ensures answer { answer_of locked.now.board.start (history_of locked.now) channel ≡ Some result }
    ensures lawful { AreEntries (first_board locked.now.board.start) locked.now.board.entries }
{
    let _lawful = locked.board.entries();
    match look_turn(locked, channel) {
        Some(outcome) => outcome,
        None => wait_in_vain(rt),
    }
}

impl Desk for MemoryDesk {
    type Pass = MemoryPass;

    ghost fits = { λ desk pass. pass.number ≡ desk.number };

    ghost tells = { λ pass. Some (told_of pass.channel pass.locked) };

    fn wait_start<R: Wait>(&self, rt: &R, pass: &mut MemoryPass) -> Outcome {
        look_or_wait(rt, &pass.locked, pass.channel)
    }

    fn act_and_wait<R: Wait>(&self, rt: &R, pass: &mut MemoryPass, step: Step) -> Outcome {
        let first = act_turn(&mut pass.locked, pass.channel, step);
        let _lawful = pass.locked.board.entries();
        match first {
            Some(outcome) => outcome,
            None => wait_in_vain(rt),
        }
    }

    fn close<R: Wait>(&self, _rt: &R, pass: &mut MemoryPass) {
        close_turn(&mut pass.locked);
        let _lawful = pass.locked.board.entries();
    }
}
