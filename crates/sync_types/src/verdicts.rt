//! What is found of a run.
use crate::Race;
use axis_sets::{ChannelId, ZoneId};
use fault_codes::Alarm;

/// What happens in a stretch of a zone: what the channel does that holds it, or that none does.
#[derive(Clone, Copy, PartialEq, Eq)]
pub enum StretchKind {
    /// It has not started.
    Idle,
    /// It runs its program.
    Run,
    /// It waits for other channels or for axes.
    Hold,
    /// Its program has ended, or an alarm has stopped it.
    End,
    /// No channel holds the zone.
    Free,
}

/// How a box of a stretch is named.
#[derive(Clone, Copy, PartialEq, Eq)]
pub struct PlaceName {
    /// The zone.
    pub zone: ZoneId,
    /// The channel that holds it, or none.
    pub channel: Option<ChannelId>,
    /// The kind of the stretch.
    pub kind: StretchKind,
    /// The line of the box's motion, or where it stands that of the stretch.
    pub line: u32,
}

/// The verdict on a job.
#[derive(Clone, Copy, PartialEq, Eq)]
pub enum Verdict {
    /// The order of these two places is not settled, the first such race.
    Race(Race),
    /// This alarm stops this channel, the lowest that one stops.
    Alarm(ChannelId, Alarm),
    /// This channel waits on this line for good, the lowest that does.
    Stuck(ChannelId, u32),
    /// More pairs of boxes are to be compared than may be.
    Undecided {
        /// How many are to be compared.
        count: u64,
        /// How many may be compared.
        budget: u32,
    },
    /// These two boxes meet, the first that do.
    No(PlaceName, PlaceName),
    /// No two compared boxes meet.
    Yes,
}
