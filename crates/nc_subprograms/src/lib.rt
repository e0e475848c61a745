//! The levels of calls: where a subprogram returns to.
#![tactic(auto)]

ghost use Rattle.std.specs.Prelude.{◌≡◌, ◌≤◌, length};
ghost use Rattle.nc_subprograms.specs.Stack.{stack_after_call, Calls, Returns};

mod limits;
mod threads;

use arrayvec::ArrayVec;
use fault_codes::alarms::TOO_MANY_LEVELS;
pub use limits::{CALL_LIMIT, LEVEL_LIMIT};
use nc_control_flow::Repeats;
use std::marker::Model;

/// Where a program of a level stands.
#[derive(Default, Drop)]
pub struct Place {
    /// The number of the program.
    pub program: u16,
    /// The place of its block.
    pub pc: u32,
    /// How many passes of it are still to begin.
    pub passes: u16,
    /// The repetitions that run in it.
    pub repeats: Repeats,
}

impl Place {
    ghost use Rattle.std.specs.Prelude.{◌≡◌};

    /// The same place once more.
    pub fn copied(&self) -> Place
        ensures { result ≡ self.now }
    {
        Place {
            program: self.program,
            pc: self.pc,
            passes: self.passes,
            repeats: self.repeats.copied(),
        }
    }
}

/// The places to which the subprograms of a channel return; a contract sees them as a list, the
/// latest first.
#[derive(Drop)]
pub struct CallStack {
    places: ArrayVec<Place, CALL_LIMIT>,
}

impl Model for CallStack {
    ghost use Rattle.std.specs.Prelude.{List, reverse};
    ghost use Rattle.nc_subprograms.specs.declared.Place.{Place};

    ghost Value = { List Place };

    ghost view = { λ s. reverse s.places.items };
}

impl CallStack {
    ghost use Rattle.std.specs.Prelude.{◌≡◌, ◌==◌, [], length, reverse};

    /// The main program runs.
    pub fn new() -> CallStack
        ensures { result ≡ [] }
    {
        CallStack {
            places: ArrayVec::new(),
        }
    }

    /// The same stack once more.
    pub fn copied(&self) -> CallStack
        ensures { result ≡ self.now }
    {
        CallStack {
            places: copies(self.places.as_slice()),
        }
    }

    /// The places in the order of the calls: that of the main program first.
    pub fn places(&self) -> &[Place]
        ensures { result.now ≡ reverse self.now }
    {
        self.places.as_slice()
    }

    /// Whether the main program runs.
    pub fn is_main(&self) -> bool
        ensures { result ≡ (length self.now == 0) }
    {
        self.places.is_empty()
    }

    /// Calls a subprogram, which returns to this place.
    ///
    /// Alarm 6: the call would begin a seventeenth level. The stack is then unchanged.
    pub fn call(&mut self, place: Place) -> Result<(), u16>
        ensures { Calls (stack_after_call self.old place) result self.old self.new }
    {
        if self.places.len() == CALL_LIMIT {
            return Err(TOO_MANY_LEVELS);
        }
        self.places.push(place);
        Ok(())
    }

    /// Returns from the latest subprogram, and gives its place; None at the main level.
    pub fn ret(&mut self) -> Option<Place>
        ensures { Returns self.old result self.new }
    {
        self.places.pop()
    }
}

/// The same places.
fn copies(places: &[Place]) -> ArrayVec<Place, CALL_LIMIT>
    requires { length places.now ≤ CALL_LIMIT }
    ensures { result.items ≡ places.now }
{
    let mut kept = ArrayVec::new();
    for place in places {
        kept.push(place.copied());
    }
    kept
}

impl Default for CallStack {
    ghost use Rattle.std.specs.Prelude.{[]};

    ghost is_default = { λ stack. stack ≡ [] };

    fn default() -> CallStack {
        CallStack::new()
    }
}
