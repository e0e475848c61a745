//! The events of a run, in few words.
ghost use Rattle.std.specs.Prelude.{◌≡◌, ℕ, ◌≤◌, ◌==◌, ◌&&◌, is_some};
ghost use Rattle.axis_sets.specs.Sets.{has};
ghost use Rattle.axis_sets.specs.declared.limits.TheConstants.{CHANNEL_LIMIT};
ghost use Rattle.step_deeds.specs.Holds.{departure_of};
ghost use Rattle.protection_zones.specs.Notes.{is_with, kind_of_act, lowest_of, read_act, read_going, shown_note, took_in};

use axis_sets::{AxisSet, CHANNEL_PLACES, ChannelId, ZoneSet};
use order_clocks::ReadStep;
use step_deeds::StepEvents;
use sync_types::{EventId, Go, Step, StretchKind};

/// An event of a run, in few words, without where axes of its channel stand.
#[derive(Clone, Copy)]
pub(crate) struct Occurrence {
    /// Its name.
    pub(crate) name: EventId,
    /// Its channel; where several go on as one event it is not always that of the name.
    pub(crate) channel: ChannelId,
    /// What the channel does from then on.
    pub(crate) kind: StretchKind,
    /// The line of the block where the channel acts; none where it goes on.
    pub(crate) line: Option<u32>,
    /// Its zones that are on.
    pub(crate) on: ZoneSet,
    /// The axes that an act lets go, or that one that goes on takes.
    pub(crate) axes: AxisSet,
}

/// What a channel does after its act.
#[tactic(auto, unfolding(crate::specs::Notes::kind_of_act))]
fn kind_of_act(read: &ReadStep) -> StretchKind
    ensures { result ≡ kind_of_act read.now }
{
    if read.deed.begins.is_some() {
        StretchKind::Hold
    } else if read.deed.ends || read.alarms {
        StretchKind::End
    } else {
        StretchKind::Run
    }
}

/// Whether a channel goes on as one event with another.
fn is_with(deed: &StepEvents, channel: ChannelId, number: u8) -> bool
    requires { number ≤ CHANNEL_LIMIT }
    ensures { result ≡ is_with deed.now channel number }
{
    let c = usize::from(number);
    deed.goes[c].is_some() && deed.group[c] == deed.group[usize::from(channel.number)]
}

/// The lowest channel of those that go on as one event with this one.
#[tactic(auto, unfolding(crate::specs::Notes::lowest_of))]
fn lowest_of(deed: &StepEvents, channel: ChannelId) -> ChannelId
    ensures { result ≡ lowest_of deed.now channel }
{
    for number in 1..CHANNEL_PLACES as u8 {
        if is_with(deed, channel, number) {
            return ChannelId { number };
        }
    }
    channel
}

/// The axes that a channel took as it went on.
fn took_in(deed: &StepEvents, channel: ChannelId) -> AxisSet
    ensures { (x : ℕ) → has result x ≡ took_in (departure_of deed.now channel) x }
{
    match &deed.goes[usize::from(channel.number)] {
        None => AxisSet::empty(),
        Some(gone) => gone.took,
    }
}

/// The note of an act, of the step of this place.
#[tactic(auto, unfolding(crate::specs::Notes::shown_note))]
pub(crate) fn act_note(place: u32, read: &ReadStep, step: &Step) -> Occurrence
    ensures { shown_note result step.now.at ≡ read_act place read.now step.now }
{
    Occurrence {
        name: EventId {
            step: place,
            channel: read.deed.channel,
            go: false,
        },
        channel: read.deed.channel,
        kind: kind_of_act(read),
        line: Some(step.line),
        on: step.on,
        axes: read.deed.frees,
    }
}

/// The note of one that goes on, in the step of this place.
pub(crate) fn going_note(place: u32, deed: &StepEvents, go: &Go) -> Occurrence
    ensures { shown_note result go.now.grant.at ≡ read_going place deed.now go.now }
{
    Occurrence {
        name: EventId {
            step: place,
            channel: lowest_of(deed, go.channel),
            go: true,
        },
        channel: go.channel,
        kind: StretchKind::Run,
        line: None,
        on: go.grant.on,
        axes: took_in(deed, go.channel),
    }
}
