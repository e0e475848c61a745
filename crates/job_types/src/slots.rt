//! Look-ups of the slots of a channel, and of their offsets.
ghost use Rattle.std.specs.Prelude.{◌≡◌};
ghost use Rattle.job_types.specs.Slots as model;

use crate::job::{GeoLine, Job, OffsetLine};
use axis_sets::{AxisId, ChannelId};

/// The GEO line of a slot of a channel: 0, 1, 2 for X, Y, Z.
#[tactic(auto, unfolding(crate::specs::Slots::slot_line))]
fn slot_line(job: &Job, channel: ChannelId, slot: u8) -> Option<GeoLine>
    ensures { result ≡ model.slot_line job.now channel slot }
{
    job.geo
        .iter()
        .copied()
        .find(|line| line.channel == channel && line.slot == slot)
}

/// The axis in a slot of a channel.
pub fn slot_axis(job: &Job, channel: ChannelId, slot: u8) -> Option<AxisId>
    ensures { result ≡ model.slot_axis job.now channel slot }
{
    match slot_line(job, channel, slot) {
        Some(line) => Some(line.axis),
        None => None,
    }
}

/// The line that gives a slot of a channel a settable offset under a word.
#[tactic(auto, unfolding(crate::specs::Slots::offset_line))]
pub fn offset_line(job: &Job, channel: ChannelId, word: u16, slot: u8) -> Option<OffsetLine>
    ensures { result ≡ model.offset_line job.now channel word slot }
{
    let mut lines = job.offsets.iter().copied();
    lines.find(|line| line.channel == channel && (line.g == word && line.slot == slot))
}
