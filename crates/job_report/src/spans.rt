//! Between which places of a run the steps of each channel stand.
ghost use Rattle.std.specs.Prelude.{◌≡◌, ℕ, ◌<◌, ◌==◌, if◌then◌else◌, slice_index_or};
ghost use Rattle.axis_sets.specs.declared.limits.TheConstants.{CHANNEL_PLACES};
ghost use Rattle.job_report.specs.Spans.{AreSpans};

use axis_sets::{CHANNEL_PLACES, ChannelId};
use sync_types::Entry;

/// By the number of each channel a place among the entries; the first is of no channel.
type Places = [usize; CHANNEL_PLACES];

/// For each channel the place of its first step and the place after its last, or 0 and 0 where it made none. A
/// report has the lines of one channel after another, and so need not look through all entries for each.
#[derive(Clone, Copy)]
pub(crate) struct StepSpans {
    pub(crate) first: Places,
    pub(crate) end: Places,
}

// What is kept of a channel.
fn place_of(places: &Places, channel: ChannelId) -> usize
    ensures value { result ≡ slice_index_or places.now channel 0 }
    ensures known { channel < CHANNEL_PLACES }
{
    places[usize::from(channel.number)]
}

// From now on this is kept of the channel.
fn set_place(places: &mut Places, channel: ChannelId, place: usize)
    ensures { (c : ℕ) → slice_index_or places.new c 0
        ≡ (if c == channel then place else slice_index_or places.old c 0) }
{
    places[usize::from(channel.number)] = place;
}

impl StepSpans {
    /// Where the steps of each channel stand among these entries.
    pub(crate) fn of(entries: &[Entry]) -> StepSpans
        ensures { AreSpans entries.now result }
    {
        let mut first = [0; CHANNEL_PLACES];
        let mut end = [0; CHANNEL_PLACES];
        for (place, entry) in entries.iter().enumerate() {
            let channel = entry.channel();
            if place_of(&end, channel) == 0 {
                set_place(&mut first, channel, place);
            }
            set_place(&mut end, channel, place + 1);
        }
        StepSpans { first, end }
    }

    /// The place of the first step of the channel, and the place after its last.
    pub(crate) fn span_of(&self, channel: ChannelId) -> (usize, usize)
        ensures first { result.0 ≡ slice_index_or self.now.first channel 0 }
        ensures end { result.1 ≡ slice_index_or self.now.end channel 0 }
        ensures known { channel < CHANNEL_PLACES }
    {
        (place_of(&self.first, channel), place_of(&self.end, channel))
    }
}
