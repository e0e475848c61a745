//! What the lock of a board holds, and the turns at it. Each is made by one caller, to whom it is lent for it.
ghost use Rattle.std.specs.Prelude.{◌≡◌, ◌≤◌, length, false, [], IfOk};
ghost use Rattle.coord_core.specs.BoardTurns.{Brings, closed_after};
ghost use Rattle.coord_core.specs.Histories.{answer_of, history_of};
ghost use Rattle.sync_types.specs.Boards.{first_board};
ghost use Rattle.sync_types.specs.Starts.{IsSound};
ghost use Rattle.sync_types.specs.Turns.{AreEntries};

use crate::shared::Pass;
use arrayvec::ArrayVec;
use coord_core::{Board, Locked, Outcome, act_turn, close_turn, look_turn};
use out_of_memory::NoMemory;
use std::alloc::Global;
use std::marker::Model;
use sync_types::{StartState, Step};

/// A board, whether it was closed, and where it started. A contract sees the first two, and the start is the board's.
#[derive(Drop)]
pub(crate) struct Held {
    locked: Locked,
    start: StartState,
}

impl Model for Held {
    ghost use Rattle.std.specs.Prelude.{◌≡◌};
    ghost use Rattle.coord_core.specs.declared.locked.Locked.{Locked};

    ghost Value = { Locked };

    ghost view = { λ h. h.locked };

    ghost invariant = { λ h. h.locked.board.start ≡ h.start };
}

/// The same lines.
fn copies<T: Copy + Default, const N: usize>(lines: &[T]) -> ArrayVec<T, N>
    requires { length lines.now ≤ N }
    ensures { result.items ≡ lines.now }
{
    let mut kept = ArrayVec::new();
    for line in lines {
        kept.push(*line);
    }
    kept
}

/// The same start state.
fn copy_of(start: &StartState) -> StartState
    ensures { result ≡ start.now }
{
    StartState {
        channels: copies(start.channels.as_slice()),
        axes: copies(start.axes.as_slice()),
        zones: copies(start.zones.as_slice()),
    }
}

impl Held {
    /// A board at this start, with no entry, which is not closed.
    pub(crate) fn new(alloc: Global, start: &StartState) -> Result<Held, NoMemory>
        requires sound { IsSound start.now }
        ensures start { IfOk result (λ held. held.board.start ≡ start.now) }
        ensures entries { IfOk result (λ held. held.board.entries ≡ []) }
        ensures open { IfOk result (λ held. held.closed ≡ false) }
    {
        let locked = Locked {
            board: Board::new(alloc, start)?,
            closed: false,
        };
        Ok(Held {
            locked,
            start: copy_of(start),
        })
    }

    /// The turn of a pass that brings a step.
    pub(crate) fn act(&mut self, pass: &Pass, step: Step) -> Option<Outcome>
        ensures start { self.new.board.start ≡ self.old.board.start }
        ensures turn { Brings self.old.board.start pass.now.channel step
            (history_of self.old) result (history_of self.new) }
    {
        act_turn(&mut self.locked, pass.channel, step)
    }

    /// The turn of a pass that looks.
    pub(crate) fn look(&self, pass: &Pass) -> Option<Outcome>
        ensures answer { result ≡ answer_of self.now.board.start (history_of self.now) pass.now.channel }
    {
        look_turn(&self.locked, pass.channel)
    }

    /// The turn that closes the board.
    pub(crate) fn close(&mut self)
        ensures board { self.new.board ≡ self.old.board }
        ensures turn { history_of self.new ≡ closed_after (history_of self.old) }
    {
        close_turn(&mut self.locked);
    }

    /// The board. Its entries are lawful.
    fn into_board(self) -> Board
        ensures board { result ≡ self.board }
        ensures lawful { AreEntries (first_board result.start) result.entries }
    {
        let board = self.locked.board;
        let _lawful = board.entries();
        board
    }

    /// The board, where it started as `first` did, and else that of `first`. Its entries are lawful.
    pub(crate) fn into_board_of(self, first: Held) -> Board
        ensures start { result.start ≡ first.board.start }
        ensures same { self.board.start ≡ first.board.start → result ≡ self.board }
        ensures lawful { AreEntries (first_board result.start) result.entries }
    {
        if self.start == first.start {
            self.into_board()
        } else {
            first.into_board()
        }
    }
}
