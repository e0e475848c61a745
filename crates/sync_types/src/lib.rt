//! Plain types of a run: what a channel did, how it stopped, and what it may go on with.
#![tactic(auto)]

mod laws;
mod runs;
mod start;
mod threads;
mod verdicts;

use axis_sets::{AxisSet, ChannelId, ChannelSet, MarkSet, Positions, ZoneId, ZoneSet};
use fault_codes::Alarm;
pub use laws::{
    a_run_that_is_over_has_all_ends, after_a_step_nobody_can_go, axes_stay_together,
    events_are_one_alike, few_go_on, runs_are_replays, the_sequential_run_is_one,
};
use path_geometry::Motion;
pub use runs::{Entry, EventId, Go, Race, Run};
pub use start::StartState;
pub use verdicts::{PlaceName, StretchKind, Verdict};

/// One thing that a block does.
#[derive(Clone, PartialEq, Eq, Drop)]
pub enum Part {
    /// The axes of the motion move.
    Move(Motion),
    /// The zone is on from there, where this is true, or off.
    Switch(ZoneId, bool),
}

/// What a block of a channel does, with its line.
#[derive(Clone, PartialEq, Eq, Drop)]
pub struct Item {
    /// The line of the block, counted from 1.
    pub line: u32,
    /// What the block does.
    pub part: Part,
}

impl Item {
    ghost use Rattle.std.specs.Prelude.{◌≡◌, option_copied};
    ghost use Rattle.sync_types.specs.Items.{is_motion, motion_of};

    /// The motion, where the block moves axes.
    pub fn motion(&self) -> Option<&Motion>
        ensures { option_copied result ≡ motion_of self.now }
    {
        match &self.part {
            Part::Move(motion) => Some(motion),
            Part::Switch(_, _) => None,
        }
    }

    /// Whether the block moves axes.
    pub fn is_motion(&self) -> bool
        ensures { result ≡ is_motion self.now }
    {
        match &self.part {
            Part::Move(_) => true,
            Part::Switch(_, _) => false,
        }
    }
}

/// With what a segment of a channel ends: what the channel asks of the others.
#[derive(Clone, Copy, PartialEq, Eq)]
pub enum Action {
    /// Raise the own mark of this number, and wait until those of these other channels stand.
    WaitM(u8, ChannelSet),
    /// Raise these own marks.
    SetM(MarkSet),
    /// Lower these own marks; with no mark, lower all of them.
    ClearM(MarkSet),
    /// Select this program, by its place among the programs of the job, for this channel.
    Init(ChannelId, u16),
    /// Let these channels run.
    Start(ChannelSet),
    /// Wait until these channels are at the ends of their programs.
    WaitE(ChannelSet),
    /// Let these axes go.
    Release(AxisSet),
    /// Take these axes once all of them are free.
    Get(AxisSet),
    /// The program ends.
    End,
    /// An alarm with this code stops the channel.
    Alarm(u16),
}

/// The step of a channel after a segment.
#[derive(Clone, Copy, PartialEq, Eq)]
pub struct Step {
    /// The line of the block that ends the segment, counted from 1.
    pub line: u32,
    /// What that block asks for.
    pub action: Action,
    /// Where the axes stand that the channel owns, in micrometres.
    pub at: Positions,
    /// The zones that it holds and that are on.
    pub on: ZoneSet,
}

/// What a channel goes on with.
#[derive(Clone, Copy, Default, PartialEq, Eq)]
pub struct Grant {
    /// All axes that it owns.
    pub axes: AxisSet,
    /// Where axes stand that it has got, in micrometres; at the start all that it owns.
    pub at: Positions,
    /// The zones that it holds and that are on.
    pub on: ZoneSet,
    /// The place of its program among the programs of the job.
    pub program: Option<u16>,
}

/// How a channel has stopped.
#[derive(Clone, Copy, PartialEq, Eq)]
pub enum ChannelEnd {
    /// It has not started.
    Idle,
    /// At a program end, on this line.
    Ended(u32),
    /// On this line, where it waits for other channels or for axes.
    Holding(u32),
    /// With an alarm.
    Alarmed(Alarm),
}

impl Default for ChannelEnd {
    ghost use Rattle.std.specs.Prelude.{◌≡◌};
    ghost use Rattle.sync_types.specs.declared.ChannelEnd.TheVariants.{Idle};

    ghost is_default = { λ end. end ≡ Idle };

    fn default() -> ChannelEnd {
        ChannelEnd::Idle
    }
}
