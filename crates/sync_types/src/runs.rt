//! What a run has: an entry for each step, and what each channel did and how it stopped.
ghost use Rattle.std.specs.Prelude.{◌≡◌, option_copied, slice_get};

use crate::{ChannelEnd, Grant, Item, Step};
use arrayvec::ArrayVec;
use axis_sets::{CHANNEL_LIMIT, ChannelId};
use path_geometry::Motion;
use std::marker::Model;

/// A channel goes on, with this grant.
#[derive(Clone, Copy, Default, PartialEq, Eq)]
pub struct Go {
    /// The channel.
    pub channel: ChannelId,
    /// What it goes on with.
    pub grant: Grant,
}

/// A step of a run: who acted, what it did, and who goes on in the same step.
#[derive(Clone, PartialEq, Eq, Drop)]
pub struct Entry {
    /// The channel that acted.
    pub channel: ChannelId,
    /// What it did.
    pub step: Step,
    /// Who goes on, in order.
    pub goes: ArrayVec<Go, CHANNEL_LIMIT>,
}

impl Model for Entry {
    ghost use Rattle.sync_types.specs.Views.{EntryView};

    ghost Value = { EntryView };

    ghost view = { λ e. record { channel = e.channel; step = e.step; goes = e.goes.items } };

    ghost inverse = { λ e. record { channel = e.channel; step = e.step; goes = record { items = e.goes } } };
}

impl Entry {
    ghost use Rattle.axis_sets.specs.declared.limits.TheConstants.{CHANNEL_LIMIT};
    ghost use Rattle.std.specs.Prelude.{◌≡◌, ◌==◌, ◌≤◌, length};

    /// The channel that acted.
    pub fn channel(&self) -> ChannelId
        ensures { result ≡ self.now.channel }
    {
        self.channel
    }

    /// Whether the step is of `channel`.
    pub fn is_of(&self, channel: ChannelId) -> bool
        ensures { result ≡ (self.now.channel == channel) }
    {
        self.channel == channel
    }

    /// What the channel did.
    pub fn step(&self) -> &Step
        ensures { result.now ≡ self.now.step }
    {
        &self.step
    }

    /// Who goes on in the step, in order: no more channels than there can be.
    pub fn goes(&self) -> &[Go]
        ensures goes { result.now ≡ self.now.goes }
        ensures few { length result.now ≤ CHANNEL_LIMIT }
    {
        self.goes.as_slice()
    }
}

/// A whole run of a job.
#[derive(Drop)]
pub struct Run {
    /// Its steps, in order.
    pub entries: Vec<Entry>,
    /// For each entry what its channel did before that step.
    pub items: Vec<Vec<Item>>,
    /// For each channel of the job how it has stopped, the lowest channel first.
    pub ends: ArrayVec<ChannelEnd, CHANNEL_LIMIT>,
}

impl Model for Run {
    ghost use Rattle.std.specs.Prelude.{map};
    ghost use Rattle.sync_types.specs.Views.{RunView};

    ghost Value = { RunView };

    ghost view = { λ r. record {
      entries = r.entries.items;
      items = map (λ items. items.items) r.items.items;
      ends = r.ends.items;
    } };
}

/// The item of this place, counted from 0, if there is one.
fn item_at(items: &[Item], place: usize) -> Option<&Item>
    ensures { option_copied result ≡ slice_get items.now place }
{
    items.get(place)
}

impl Run {
    ghost use Rattle.axis_sets.specs.declared.limits.TheConstants.{CHANNEL_LIMIT};
    ghost use Rattle.std.specs.Prelude.{◌≡◌, ◌≤◌, [], All, length, map, option_copied, slice_get, slice_index_or};
    ghost use Rattle.sync_types.specs.Items.{motion_at};

    /// The steps of the run, in order.
    pub fn entries(&self) -> &[Entry]
        ensures { result.now ≡ self.now.entries }
    {
        self.entries.as_slice()
    }

    /// For each entry of the run what its channel did before that step.
    pub fn items(&self) -> &[Vec<Item>]
        ensures { map (λ items. items.items) result.now ≡ self.now.items }
    {
        self.items.as_slice()
    }

    /// What the channel of the entry at `place`, counted from 0, did before its step; nothing past the last entry.
    pub fn items_at(&self, place: usize) -> &[Item]
        ensures { result.now ≡ slice_index_or self.now.items place [] }
    {
        match self.items.get(place) {
            None => &[],
            Some(items) => items.as_slice(),
        }
    }

    /// The motion at `place`, counted from 1, among what the channel of the entry at `entry`, counted from 0, did
    /// before its step; nothing where no motion is there.
    pub fn motion_at(&self, entry: u32, place: u32) -> Option<&Motion>
        ensures { option_copied result ≡ motion_at self.now entry place }
    {
        match item_at(
            self.items_at(entry as usize),
            (place as usize).saturating_sub(1),
        ) {
            None => None,
            Some(item) => item.motion(),
        }
    }

    /// Sees that in no step of the run more channels go on than there can be.
    pub fn see_goes(&self)
        ensures { All (λ e. length e.goes ≤ CHANNEL_LIMIT) self.now.entries }
    {
        for entry in self.entries() {
            let _goes = entry.goes();
        }
    }

    /// For each channel of the job how it has stopped, the lowest channel first.
    pub fn ends(&self) -> &[ChannelEnd]
        ensures { result.now ≡ self.now.ends }
    {
        self.ends.as_slice()
    }
}

/// An event of a run: what a channel does in a step, or that it goes on in that step.
#[derive(Clone, Copy, PartialEq, Eq)]
pub struct EventId {
    /// The step, counted from 0.
    pub step: u32,
    /// The channel; where several channels go on as one event, the lowest of them.
    pub channel: ChannelId,
    /// Whether the channel goes on.
    pub go: bool,
}

impl EventId {
    ghost use Rattle.std.specs.Prelude.{◌≡◌};
    ghost use Rattle.sync_types.specs.Events.{is_same_event};

    /// Whether this name and `other` are letter by letter the same name of an event.
    pub fn is_same(&self, other: &EventId) -> bool
        ensures { result ≡ is_same_event self.now other.now }
    {
        self.step == other.step
            && self.channel.number == other.channel.number
            && (if self.go { other.go } else { !other.go })
    }
}

/// Two places of a run whose order the programs do not settle.
#[derive(Clone, Copy, PartialEq, Eq)]
pub struct Race {
    /// The letter of the rule, `a` to `g`.
    pub case: u8,
    /// The channel and the line of the first place.
    pub first: (ChannelId, u32),
    /// The channel and the line of the second place.
    pub second: (ChannelId, u32),
}
