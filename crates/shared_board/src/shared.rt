//! A board under a lock.
ghost use Rattle.std.specs.Prelude.{◌≡◌, ◌≢◌, None, IfOk};
ghost use Rattle.coord_core.specs.declared.outcome.Outcome.TheVariants as outcomes;
ghost use Rattle.shared_board.specs.Passes.{passes_of};
ghost use Rattle.sync_types.specs.Boards.{first_board};
ghost use Rattle.sync_types.specs.Starts.{IsSound, has_channel};
ghost use Rattle.sync_types.specs.Turns.{AreEntries};

use crate::held::Held;
use axis_sets::{CHANNEL_PLACES, ChannelId};
use coord_core::{Board, Desk, Outcome};
use out_of_memory::NoMemory;
use std::alloc::Global;
use std::sync::{Condvar, Mutex, Wait};
use sync_types::{StartState, Step};

/// A board that workers share under a lock. Who waits at it sleeps until another makes a turn.
///
/// No clause says what the lock held at a call: so of `wait_start`, `act_and_wait` and `close` the turns at what it holds are
/// proved, and which of them a call makes, and that sleepers are woken, is tested.
#[derive(Drop)]
pub struct SharedBoard {
    // The board as it was at first, by which `finish` knows where it started.
    first: Held,
    held: Mutex<Held>,
    // Wakes those that wait, after each turn that may have changed what they are told.
    changed: Condvar,
}

/// Names a channel at a [`SharedBoard`].
#[derive(PartialEq, Eq, Drop)]
pub struct Pass {
    /// The channel.
    pub channel: ChannelId,
}

/// Whether the start has the channel.
fn has_channel(start: &StartState, channel: ChannelId) -> bool
    ensures { result ≡ has_channel start.now channel }
{
    start.channels.iter().any(|line| line.0 == channel)
}

/// The pass of each channel of the start, the lowest first.
fn passes_of(alloc: Global, start: &StartState) -> Result<Vec<Pass>, NoMemory>
    ensures { IfOk result (λ passes. passes.items ≡ passes_of start.now) }
{
    let mut passes = Vec::new(alloc);
    for number in 1..CHANNEL_PLACES {
        let channel = ChannelId {
            number: number as u8,
        };
        if has_channel(start, channel) {
            passes.push(Pass { channel })?;
        }
    }
    Ok(passes)
}

impl SharedBoard {
    /// A board at this start, and a pass for each of its channels, the lowest first.
    pub fn new(alloc: Global, start: &StartState) -> Result<(SharedBoard, Vec<Pass>), NoMemory>
        requires sound { IsSound start.now }
        ensures start { IfOk result (λ made. made.0.first.board.start ≡ start.now) }
        ensures passes { IfOk result (λ made. made.1.items ≡ passes_of start.now) }
    {
        let passes = passes_of(alloc, start)?;
        let held = Held::new(alloc, start)?;
        let shared = SharedBoard {
            first: Held::new(alloc, start)?,
            held: Mutex::new(held),
            changed: Condvar::new(),
        };
        Ok((shared, passes))
    }

    /// The board, once all its passes are back. Its entries are lawful, and it started where this board did. Of a lock no clause
    /// can say so, hence it is tested: where the test failed, which no call can bring about, it would be the board of no step.
    pub fn finish(self) -> Board
        ensures start { result.start ≡ self.first.board.start }
        ensures lawful { AreEntries (first_board result.start) result.entries }
    {
        let SharedBoard {
            first,
            held,
            changed: _,
        } = self;
        held.into_inner().into_board_of(first)
    }

    // Looks after each turn of another, until the channel is told anything.
    fn look_and_wait<R: Wait>(&self, rt: &R, pass: &Pass) -> Outcome
        ensures { result ≢ outcomes.NoMemory }
    {
        let mut held = self.held.lock(rt);
        for _ in rt.forever() {
            if let Some(outcome) = held.look(pass) {
                return outcome;
            }
            held = self.changed.wait(rt, held);
        }
        unreachable!()
    }
}

impl Desk for SharedBoard {
    type Pass = Pass;

    ghost fits = { λ desk pass. Unit {0} };

    ghost tells = { λ pass. None };

    fn wait_start<R: Wait>(&self, rt: &R, pass: &mut Pass) -> Outcome {
        self.look_and_wait(rt, pass)
    }

    fn act_and_wait<R: Wait>(&self, rt: &R, pass: &mut Pass, step: Step) -> Outcome {
        let first = self.held.lock(rt).act(pass, step);
        self.changed.notify_all();
        match first {
            Some(outcome) => outcome,
            None => self.look_and_wait(rt, pass),
        }
    }

    fn close<R: Wait>(&self, rt: &R, _pass: &mut Pass) {
        self.held.lock(rt).close();
        self.changed.notify_all();
    }
}
