//! The repetitions that run in a program.

ghost use Rattle.std.specs.Prelude.{◌≡◌, ℕ, ◌+◌, ◌^◌, ◌<◌, ◌≤◌, ◌==◌, ◌∷◌, [], List, All, length, filter, position, IfSome};
ghost use Rattle.nc_control_flow.specs.Repetitions.{hop, is_over, is_within as within, place_past as past_of, going_after_passes, turn, Fits, OwnFits, TurnsTo};

use crate::limits::REPETITION_LIMIT;
use arrayvec::ArrayVec;
use std::marker::Model;

/// A repetition that runs.
#[derive(Clone, Copy, Default)]
pub(crate) struct Running {
    /// Whether it is a REPEATB, of one block.
    pub single: bool,
    /// The place of its first block.
    pub first: u32,
    /// The place of its last block.
    pub last: u32,
    /// The place of the REPEAT or REPEATB.
    pub own: u32,
    /// How many passes are still to begin.
    pub left: u16,
}

/// Where control stands between two blocks.
#[derive(Clone, Copy)]
pub(crate) enum Control {
    /// The block at this place has done all that it asks for.
    Done(u32),
    /// The block at this place is the next one.
    Comes(u32),
}

/// The repetitions that run in a program, `REPETITION_LIMIT` at most; a contract sees them as a list, the innermost
/// first.
#[derive(Drop)]
pub struct Repeats {
    running: ArrayVec<Running, REPETITION_LIMIT>,
}

impl Model for Repeats {
    ghost use Rattle.std.specs.Prelude.{All, List};
    ghost use Rattle.nc_control_flow.specs.declared.repeats.Running.{Running};
    ghost use Rattle.nc_control_flow.specs.Repetitions.{OwnFits};

    ghost Value = { List Running };

    ghost view = { λ r. r.running.items };

    ghost invariant = { λ r. All OwnFits r.running.items };
}

impl Default for Repeats {
    ghost is_default = { λ repeats. repeats ≡ [] };

    fn default() -> Repeats {
        Repeats::new()
    }
}

impl Repeats {
    /// None runs.
    pub fn new() -> Repeats
        ensures { result ≡ [] }
    {
        Repeats {
            running: ArrayVec::new(),
        }
    }

    /// The same repetitions once more.
    pub fn copied(&self) -> Repeats
        ensures { result ≡ self.now }
    {
        Repeats {
            running: copies(self.running.as_slice()),
        }
    }

    /// Ends all of them.
    pub fn clear(&mut self)
        ensures { self.new ≡ [] }
    {
        self.running.clear();
    }

    /// Whether no other repetition can run.
    pub(crate) fn is_full(&self) -> bool
        ensures full { result ≡ (length self.now == REPETITION_LIMIT) }
        ensures few { length self.now ≤ REPETITION_LIMIT }
    {
        self.running.as_slice().len() == REPETITION_LIMIT
    }

    /// Runs one more repetition, the innermost.
    pub(crate) fn begin(&mut self, repetition: Running)
        requires own { OwnFits repetition }
        requires room { length self.old < REPETITION_LIMIT }
        ensures { self.new ≡ repetition ∷ self.old }
    {
        self.running.insert(0, repetition);
    }

    /// Ends the repetitions whose blocks a leap to this place leaves.
    #[tactic(auto, using(crate::proofs::NoRepetitions::none_left))]
    pub(crate) fn leave(&mut self, place: u32)
        ensures { self.new ≡ filter (within place) self.old }
    {
        if !self.running.is_empty() {
            self.running = with_block(self.running.as_slice(), place);
        }
    }

    /// Goes on until no pass of a repetition is over, and gives the place of the next block.
    #[tactic(auto, unfolding(crate::specs::Repetitions::going_after_passes))]
    pub(crate) fn settle(&mut self, control: Control) -> u32
        requires { Fits control }
        ensures place { result ≡ (going_after_passes control self.old).place }
        ensures running { self.new ≡ (going_after_passes control self.old).running }
    {
        let mut control = control;
        loop {
            match self.hop(control) {
                Some(next) => control = next,
                None => return past(control),
            }
        }
    }

    /// Goes on by one step, or not where no pass of a repetition is over.
    #[tactic(auto, unfolding(crate::specs::Repetitions::hop))]
    fn hop(&mut self, control: Control) -> Option<Control>
        requires { Fits control }
        ensures step { TurnsTo (hop control self.old) result self.old self.new }
        ensures fits { IfSome result Fits }
    {
        match control {
            Control::Comes(_) => self.turn(control),
            Control::Done(pc) => match self.turn(control) {
                Some(next) => Some(next),
                None => self.turn(Control::Comes(pc + 1)),
            },
        }
    }

    /// Begins the blocks of the innermost repetition whose pass is over once more, or ends it.
    fn turn(&mut self, control: Control) -> Option<Control>
        ensures step { TurnsTo (turn control self.old) result self.old self.new }
        ensures fits { IfSome result Fits }
    {
        match over_at(self.running.as_slice(), control) {
            Some(at) => {
                let mut one = self.running.remove(at);
                if one.left == 0 {
                    return Some(Control::Done(one.own));
                }
                one.left -= 1;
                let first = one.first;
                self.running.insert(at, one);
                Some(Control::Comes(first))
            }
            None => None,
        }
    }
}

/// The same repetitions.
fn copies(running: &[Running]) -> ArrayVec<Running, REPETITION_LIMIT>
    requires { length running.now ≤ REPETITION_LIMIT }
    ensures { result.items ≡ running.now }
{
    let mut kept = ArrayVec::new();
    for one in running {
        kept.push(*one);
    }
    kept
}

/// Those of some repetitions that have the block at this place.
fn with_block(running: &[Running], place: u32) -> ArrayVec<Running, REPETITION_LIMIT>
    requires { length running.now ≤ REPETITION_LIMIT }
    ensures { result.items ≡ filter (within place) running.now }
{
    let mut kept = ArrayVec::new();
    for one in running {
        if is_within(one, place) {
            kept.push(*one);
        }
    }
    kept
}

/// Whether a place is one of a repetition's blocks.
fn is_within(repetition: &Running, place: u32) -> bool
    ensures { result ≡ within place repetition.now }
{
    repetition.first <= place && place <= repetition.last
}

/// Where the first of these repetitions whose pass is over stands.
fn over_at(running: &[Running], control: Control) -> Option<usize>
    ensures { result ≡ position (is_over control) running.now }
{
    running.iter().position(|one| match control {
        Control::Comes(pc) => !one.single && one.own == pc,
        Control::Done(pc) => one.single && one.first == pc,
    })
}

/// The place of the next block, where control goes on by itself.
fn past(control: Control) -> u32
    requires { Fits control }
    ensures { result ≡ past_of control }
{
    match control {
        Control::Comes(pc) => pc,
        Control::Done(pc) => pc + 1,
    }
}
