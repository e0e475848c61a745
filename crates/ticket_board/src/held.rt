//! The board that the slot holds. It lies on the heap, so one word is moved in and out, and not the board.
ghost use Rattle.std.specs.Prelude.{◌≡◌, ◌+◌, ◌<◌, false, [], IfOk};
ghost use Rattle.coord_core.specs.BoardTurns.{Brings, closed_after};
ghost use Rattle.coord_core.specs.Histories.{history_of, answer_of};
ghost use Rattle.sync_types.specs.Boards.{first_board};
ghost use Rattle.sync_types.specs.Starts.{IsSound};
ghost use Rattle.sync_types.specs.Turns.{AreEntries};
ghost use Rattle.ticket_board.specs.Rule.{length_with_mark};
ghost use Rattle.ticket_board.specs.Turns.{count_at};

use axis_sets::ChannelId;
use coord_core::{Board, Locked, Outcome, act_turn, close_turn, look_turn};
use out_of_memory::NoMemory;
use std::alloc::Global;
use std::marker::Model;
use sync_types::{StartState, Step};

/// A board, and whether it was closed. A contract sees it as these two.
#[derive(Drop)]
pub(crate) struct HeldBoard {
    locked: Box<Locked>,
}

impl Model for HeldBoard {
    ghost use Rattle.coord_core.specs.declared.locked.Locked.{Locked};

    ghost Value = { Locked };

    ghost view = { λ h. h.locked.value };
}

impl HeldBoard {
    /// A board at this start, with no entry, which is not closed.
    pub(crate) fn new(alloc: Global, start: &StartState) -> Result<HeldBoard, NoMemory>
        requires sound { IsSound start.now }
        ensures { IfOk result (λ held. (held.board.start ≡ start.now)
            × (held.board.entries ≡ []) × (held.closed ≡ false)) }
    {
        let locked = Locked {
            board: Board::new(alloc, start)?,
            closed: false,
        };
        Ok(HeldBoard {
            locked: Box::new(alloc, locked)?,
        })
    }

    /// What a turn that changes the board is to count: nothing at a closed one. A list in memory has room for one more in a
    /// word.
    pub(crate) fn to_count(&self) -> u64
        ensures more { result ≡ count_at self.now.closed }
        ensures few { length_with_mark (history_of self.now) + result < 18446744073709551616 }
    {
        let _longer = self.locked.board.entries().len() + 1;
        if self.locked.closed { 0 } else { 1 }
    }

    /// Brings a step of a channel.
    pub(crate) fn act(&mut self, channel: ChannelId, step: Step) -> Option<Outcome>
        ensures start { self.new.board.start ≡ self.old.board.start }
        ensures turn { Brings self.old.board.start channel step (history_of self.old) result (history_of self.new) }
    {
        act_turn(&mut *self.locked, channel, step)
    }

    /// Looks for a channel.
    pub(crate) fn look(&self, channel: ChannelId) -> Option<Outcome>
        ensures answer { result ≡ answer_of self.now.board.start (history_of self.now) channel }
    {
        look_turn(&*self.locked, channel)
    }

    /// Closes the board.
    pub(crate) fn close(&mut self)
        ensures board { self.new.board ≡ self.old.board }
        ensures turn { history_of self.new ≡ closed_after (history_of self.old) }
    {
        close_turn(&mut *self.locked);
    }

    /// The board alone. Its entries are lawful.
    pub(crate) fn into_board(self) -> Board
        ensures board { result ≡ self.board }
        ensures lawful { AreEntries (first_board result.start) result.entries }
    {
        let locked = Box::into_inner(self.locked);
        let _lawful = locked.board.entries();
        locked.board
    }
}
