//! The board: where it started, its entries, and the state that these leave.
ghost use Rattle.std.specs.Prelude.{◌≡◌, ◌≤◌, ◌+◌, true, [], IfOk, OnOk, OnErr};
ghost use Rattle.sync_types.specs.Boards.{first_board, is_running, grant_in};
ghost use Rattle.sync_types.specs.Runs.{is_over, lowest_running};
ghost use Rattle.sync_types.specs.Starts.{IsSound};
ghost use Rattle.sync_types.specs.Togetherness.{AreTogether};
ghost use Rattle.sync_types.specs.Turns.{AreEntries};
ghost use Rattle.coord_core.specs.Boards.{BoardView, replayed, with_step, with_step_reserved, HaveSameEntries, channel_state};

use crate::ChannelState;
use crate::activities::{activity_of, channel_state, grant_in};
use crate::state::State;
use arrayvec::ArrayVec;
use axis_sets::ChannelId;
use out_of_memory::NoMemory;
use std::alloc::Global;
use std::marker::Model;
use sync_types::{Entry, Grant, StartState, Step};

/// The board of a run. A contract sees where it started, its entries, and for how many more there is room;
/// what it is follows from these, since it is the replay of the entries from the start.
#[derive(Drop)]
pub struct Board {
    state: State,
    entries: Vec<Entry>,
    // The room that was asked for and is not used yet.
    spare: usize,
}

impl Model for Board {
    ghost use Rattle.std.specs.Prelude.{◌≡◌, ◌+◌, ◌≤◌, vec_len, vec_capacity};
    ghost use Rattle.sync_types.specs.Boards.{first_board};
    ghost use Rattle.sync_types.specs.Starts.{IsSound};
    ghost use Rattle.sync_types.specs.Turns.{after_entries, AreEntries};
    ghost use Rattle.coord_core.specs.Boards.{BoardView};
    ghost use Rattle.coord_core.specs.Tables.{board_in, IsTable};

    ghost Value = { BoardView };

    ghost view = { λ b. record { start = b.state.table.start; entries = b.entries.items; spare = b.spare } };

    ghost invariant = { λ b. (board_in b.state.table b.state.channels
        ≡ after_entries (first_board b.state.table.start) b.entries.items)
        × AreEntries (first_board b.state.table.start) b.entries.items
        × IsTable b.state.table
        × IsSound b.state.table.start
        × (vec_len b.entries + b.spare ≤ vec_capacity b.entries) };
}

impl Board {
    /// The board at this start, with no entry and no room.
    pub fn new(alloc: Global, start: &StartState) -> Result<Board, NoMemory>
        requires sound { IsSound start.now }
        ensures start { IfOk result (λ board. board.start ≡ start.now) }
        ensures entries { IfOk result (λ board. board.entries ≡ []) }
    {
        Ok(Board {
            state: State::new(start),
            entries: Vec::new(alloc),
            spare: 0,
        })
    }

    /// Makes room for so many more entries, and leaves what room there is. Where no memory is found the board is as
    /// before.
    pub fn reserve(&mut self, count: usize) -> Result<(), NoMemory>
        ensures same { HaveSameEntries self.new self.old }
        ensures ok { OnOk result (count ≤ self.new.spare) }
        ensures room { self.old.spare ≤ self.new.spare }
        ensures err { OnErr result (self.new ≡ self.old) }
    {
        if self.spare < count {
            self.entries.reserve(count)?;
            self.spare = count;
        }
        Ok(())
    }

    /// One step of a channel that runs. Where no memory is found the board is as before.
    pub fn act(&mut self, channel: ChannelId, step: Step) -> Result<(), NoMemory>
        requires runs { is_running ((replayed self.old).state channel) ≡ true }
        ensures ok { OnOk result (HaveSameEntries self.new (with_step self.old channel step)) }
        ensures err { OnErr result (self.new ≡ self.old) }
        ensures together { OnOk result (AreTogether (replayed self.new)) }
    {
        self.reserve(1)?;
        self.act_reserved(channel, step);
        Ok(())
    }

    /// One step of a channel that runs, where there is room for it. It takes no memory.
    pub fn act_reserved(&mut self, channel: ChannelId, step: Step)
        requires runs { is_running ((replayed self.old).state channel) ≡ true }
        requires room { 1 ≤ self.old.spare }
        ensures step { self.new ≡ with_step_reserved self.old channel step }
        ensures together { AreTogether (replayed self.new) }
    {
        let mut entry = Entry {
            channel,
            step,
            goes: ArrayVec::new(),
        };
        self.state.step_on(channel, &entry.step, &mut entry.goes);
        let Ok(()) = self.entries.push(entry) else {
            unreachable!()
        };
        self.spare -= 1;
    }

    /// What a channel does. One that the board has not is idle.
    pub fn state_of(&self, channel: ChannelId) -> ChannelState
        ensures { result ≡ channel_state ((replayed self.now).state channel) }
    {
        channel_state(channel, activity_of(&self.state.channels, channel))
    }

    /// What a channel goes on with, or `None` where it does not run.
    pub fn grant_of(&self, channel: ChannelId) -> Option<Grant>
        ensures { result ≡ grant_in ((replayed self.now).state channel) }
    {
        grant_in(channel, activity_of(&self.state.channels, channel))
    }

    /// The lowest channel that runs, or `None` where none does.
    pub fn lowest_running(&self) -> Option<ChannelId>
        ensures { result ≡ lowest_running (replayed self.now) }
    {
        self.state.lowest_running()
    }

    /// Whether no channel runs.
    pub fn is_over(&self) -> bool
        ensures { result ≡ is_over (replayed self.now) }
    {
        self.state.is_over()
    }

    /// All entries, in order. Each is of a channel that ran then, and has who went on and with what; and the board
    /// started as it is sound.
    pub fn entries(&self) -> &[Entry]
        ensures all { result.now ≡ self.now.entries }
        ensures lawful { AreEntries (first_board self.now.start) self.now.entries }
        ensures sound { IsSound self.now.start }
    {
        self.entries.as_slice()
    }

    /// All entries, in order, without a copy.
    pub fn into_entries(self) -> Vec<Entry>
        ensures { result.items ≡ self.entries }
    {
        self.entries
    }
}
