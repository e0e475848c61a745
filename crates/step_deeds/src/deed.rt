//! What a step does.
ghost use Rattle.axis_sets.specs.Sets.{IsEmpty};
ghost use Rattle.axis_sets.specs.declared.limits.TheConstants.{CHANNEL_PLACES};
ghost use Rattle.std.specs.Prelude.{◌≡◌, ℕ, ◌<◌, ◌↔◌, IsTrue, false, None, replicate};
ghost use Rattle.step_deeds.specs.Holds.{IsTraceless, goes_in};

use crate::holds::is_nobody;
use axis_sets::{AxisSet, CHANNEL_PLACES, ChannelId, ChannelSet, MarkSet};

/// At what a channel holds.
#[derive(Clone, Copy)]
pub enum Hold {
    /// Until this mark of each of these other channels stands.
    Marks(u8, ChannelSet),
    /// Until these channels are ended.
    Ends(ChannelSet),
    /// Until these axes are free or owned.
    Axes(AxisSet),
}

/// A hold and the line of its block.
#[derive(Clone, Copy)]
pub struct WaitAt {
    /// At what.
    pub hold: Hold,
    /// The line.
    pub line: u32,
}

/// The end of a hold, or a start.
#[derive(Clone, Copy)]
pub struct Wakeup {
    /// The hold that ends; none at a start.
    pub held: Option<WaitAt>,
    /// The axes that the channel took.
    pub took: AxisSet,
}

/// What happens in one step.
#[derive(Clone, Copy)]
pub struct StepEvents {
    /// The channel that acts.
    pub channel: ChannelId,
    /// The line of its block.
    pub line: u32,
    /// Its marks that did not stand and now stand.
    pub raises: MarkSet,
    /// Its marks that stood and now do not.
    pub lowers: MarkSet,
    /// The axes that it gives away.
    pub frees: AxisSet,
    /// The channels that it starts.
    pub starts: ChannelSet,
    /// Whether its program ends.
    pub ends: bool,
    /// The channels of an INIT or START, also of one that alarms.
    pub touches: ChannelSet,
    /// The hold that begins.
    pub begins: Option<Hold>,
    /// By channel: its start or the end of its hold in this step.
    pub goes: [Option<Wakeup>; CHANNEL_PLACES],
    /// By channel: those that go with one number go as one event.
    pub group: [u8; CHANNEL_PLACES],
}

impl StepEvents {
    /// Nothing, of the first channel at no line: a place for what happens.
    pub fn none() -> StepEvents
        ensures channel { result.channel ≡ 1 }
        ensures line { result.line ≡ 0 }
        ensures marks { IsEmpty result.raises × IsEmpty result.lowers }
        ensures sets { IsEmpty result.frees × IsEmpty result.starts × IsEmpty result.touches }
        ensures ends { result.ends ≡ false }
        ensures begins { result.begins ≡ None }
        ensures goes { result.goes ≡ replicate CHANNEL_PLACES None }
        ensures group { result.group ≡ replicate CHANNEL_PLACES 0 }
        ensures nobody { (c : ℕ) → goes_in result c ≡ false }
    {
        StepEvents {
            channel: ChannelId::default(),
            line: 0,
            raises: MarkSet::empty(),
            lowers: MarkSet::empty(),
            frees: AxisSet::empty(),
            starts: ChannelSet::empty(),
            ends: false,
            touches: ChannelSet::empty(),
            begins: None,
            goes: [None; CHANNEL_PLACES],
            group: [0; CHANNEL_PLACES],
        }
    }

    /// Whether the step is in no race for sure: no wait begins, no mark is lowered, no INIT or START names a
    /// channel, and nobody goes on.
    pub fn is_traceless(&self) -> bool
        ensures { IsTrue result ↔ IsTraceless self.now }
    {
        self.begins.is_none()
            && self.lowers.is_empty()
            && self.touches.is_empty()
            && is_nobody(&self.goes)
    }

    /// The number of the channel that acts.
    pub fn actor(&self) -> usize
        ensures channel { result ≡ self.now.channel }
        ensures within { result < CHANNEL_PLACES }
    {
        usize::from(self.channel.number)
    }
}
