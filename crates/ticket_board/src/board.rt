//! The board that callers take in turn.
ghost use Rattle.std.specs.Prelude.{◌≡◌, ◌≢◌, ◌||◌, true, false, Some};
ghost use Rattle.coord_core.specs.Desks.{Looks, ActsAndWaits, Closes};
ghost use Rattle.coord_core.specs.Histories.{runs};
ghost use Rattle.coord_core.specs.declared.outcome.Outcome.TheVariants as outcomes;
ghost use Rattle.ticket_board.specs.Passes.{IsPassOf, Makes, PutsMark, TellsClosing, is_no_memory, told_of};

use crate::held::HeldBoard;
use crate::pass::TicketPass;
use crate::rule::{Rules, View};
use atomic_table::Table;
use coord_core::{Desk, Outcome};
use crossbeam_utils::Backoff;
use std::alloc::Global;
use std::marker::Model;
use std::sync::Wait;
use sync_types::{StartState, Step};

/// A board that callers share without a lock: they take it one after another, in the order of their tickets.
#[derive(Drop)]
pub struct TicketBoard {
    pub(crate) table: Table<Option<HeldBoard>, View, StartState, Rules, Global>,
}

impl Model for TicketBoard {
    ghost use Rattle.std.specs.Prelude.{◌≡◌};
    ghost use Rattle.ticket_board.specs.Passes.{TicketBoardView};

    ghost Value = { TicketBoardView };

    ghost view = { λ b. record { table_id = b.table.shared.table_id; start = b.table.shared.key } };

    ghost invariant = { λ b. (b.table.shared.table_id.words ≡ 3) × (b.table.shared.table_id.slots ≡ 1) };
}

/// Looks in turn after turn, until the channel is told anything.
fn look_until<R: Wait>(rt: &R, board: &TicketBoard, pass: &mut TicketPass) -> Outcome
    requires { IsPassOf board.now pass.old }
    ensures fits { IsPassOf board.now pass.new }
    ensures mine { pass.new.mine ≡ pass.old.mine }
    ensures looked { Looks (told_of pass.old) (Some result) (told_of pass.new) }
    ensures memory { is_no_memory result ≡ false }
    ensures shut { pass.new.shut ≡ pass.old.shut }
{
    let backoff = Backoff::new();
    for _ in rt.forever() {
        if let Some(outcome) = pass.look_once(rt, &board.table.shared) {
            return outcome;
        }
        backoff.snooze();
    }
    unreachable!()
}

impl Desk for TicketBoard {
    type Pass = TicketPass;

    ghost fits = { IsPassOf };

    ghost tells = { λ pass. Some (told_of pass) };

    fn wait_start<R: Wait>(&self, rt: &R, pass: &mut TicketPass) -> Outcome
        requires { IsPassOf self.now pass.old }
        ensures fits { IsPassOf self.now pass.new }
        ensures memory { result ≢ outcomes.NoMemory }
        ensures mine { pass.new.mine ≡ pass.old.mine }
        ensures told { Looks (told_of pass.old) (Some result) (told_of pass.new) }
        ensures closing { TellsClosing pass.old result pass.new }
        ensures shut { pass.new.shut ≡ pass.old.shut }
    {
        look_until(rt, self, pass)
    }

    fn act_and_wait<R: Wait>(&self, rt: &R, pass: &mut TicketPass, step: Step) -> Outcome
        requires fits { IsPassOf self.now pass.old }
        requires runs { runs pass.old.start pass.old.seen pass.old.channel ≡ true }
        ensures fits { IsPassOf self.now pass.new }
        ensures mine { Makes pass.old step (Some result) pass.new }
        ensures told { ActsAndWaits (told_of pass.old) step result (told_of pass.new) }
        ensures closing { TellsClosing pass.old result pass.new }
        ensures shut { pass.new.shut ≡ (pass.old.shut || is_no_memory result) }
    {
        match pass.act_once(rt, &self.table.shared, step) {
            Some(outcome) => outcome,
            None => look_until(rt, self, pass),
        }
    }

    fn close<R: Wait>(&self, rt: &R, pass: &mut TicketPass)
        requires { IsPassOf self.now pass.old }
        ensures fits { IsPassOf self.now pass.new }
        ensures mine { pass.new.mine ≡ pass.old.mine }
        ensures told { Closes (told_of pass.old) (told_of pass.new) }
        ensures closing { (pass.new.seen.closed ≡ true)
            × (pass.old.seen.closed ≡ true → pass.new.seen ≡ pass.old.seen) }
        ensures shut { PutsMark pass.old pass.new }
    {
        pass.close_once(rt, &self.table.shared);
    }
}
