//! A board that several callers share.
ghost use Rattle.std.specs.Prelude.{◌≢◌, Option};
ghost use Rattle.coord_core.specs.Desks.{Told, Looks, ActsAndWaits, Closes, TellsOn, TellsOfRunning};
ghost use Rattle.coord_core.specs.declared.outcome.Outcome.TheVariants.{NoMemory};

use crate::Outcome;
use std::sync::Wait;
use sync_types::Step;

/// A board that several callers share. Each has a pass of the desk, for one channel.
///
/// Not proved of any call: that it returns, and when.
pub trait Desk {
    ghost use Rattle.std.specs.Prelude.{Option};
    ghost use Rattle.coord_core.specs.Desks.{Told};

    /// Names a channel at this desk.
    type Pass;

    /// The pass is one of this desk.
    ghost fits: { Self → Self.Pass → Type 0 };

    /// What the pass tells of the board, where it tells anything.
    ghost tells: { Self.Pass → Option Told };

    /// Waits until the channel is told anything.
    fn wait_start<R: Wait>(&self, rt: &R, pass: &mut Self::Pass) -> Outcome
        requires { fits self.now pass.old }
        ensures fits { fits self.now pass.new }
        ensures memory { result ≢ NoMemory }
        ensures told { TellsOn (λ before after. Looks before (Some result) after) (tells pass.old) (tells pass.new) };

    /// Brings a step of the channel, and waits until the channel is told anything. A step of a channel that does not run is
    /// dropped.
    fn act_and_wait<R: Wait>(&self, rt: &R, pass: &mut Self::Pass, step: Step) -> Outcome
        requires fits { fits self.now pass.old }
        requires runs { TellsOfRunning (tells pass.old) }
        ensures fits { fits self.now pass.new }
        ensures told { TellsOn (λ before after. ActsAndWaits before step result after)
            (tells pass.old) (tells pass.new) };

    /// Closes the board: every call after it answers `Closed`.
    fn close<R: Wait>(&self, rt: &R, pass: &mut Self::Pass)
        requires { fits self.now pass.old }
        ensures fits { fits self.now pass.new }
        ensures told { TellsOn Closes (tells pass.old) (tells pass.new) };
}
