//! Which stretches of two zones may overlap, and which of their boxes are compared.
ghost use Rattle.std.specs.Prelude.{◌≡◌, ◌||◌, not};
ghost use Rattle.job_types.specs.Axes.{is_of};
ghost use Rattle.order_clocks.specs.Tells.{is_before_in};
ghost use Rattle.sync_types.specs.Events.{is_same_event};
ghost use Rattle.zone_stretches.specs.Overlaps as model;

use crate::{Stretch, ZoneBox};
use axis_sets::ChannelId;
use order_clocks::Clocks;
use sync_types::EventId;

/// Whether an event is another or before it.
pub(crate) fn is_upto(clocks: &Clocks, a: &EventId, b: &EventId) -> bool
    ensures { result ≡ (is_same_event a.now b.now || is_before_in clocks.now.rows a.now b.now) }
{
    a.is_same(b) || clocks.before(*a, *b)
}

/// Whether the event with which a stretch ends is neither the one with which another begins nor before it.
pub(crate) fn is_open_at(clocks: &Clocks, last: Option<EventId>, first: Option<EventId>) -> bool
    ensures { result ≡ model.is_open_at (is_before_in clocks.now.rows) last first }
{
    match last {
        None => true,
        Some(last) => match first {
            None => true,
            Some(first) => !is_upto(clocks, &last, &first),
        },
    }
}

/// Whether two stretches may overlap: neither is over as the other begins.
#[tactic(auto, unfolding(crate::specs::Overlaps::may_overlap))]
pub fn may_overlap(clocks: &Clocks, left: &Stretch, right: &Stretch) -> bool
    ensures { result ≡ model.may_overlap (is_before_in clocks.now.rows) left.now right.now }
{
    is_open_at(clocks, left.last, right.first) && is_open_at(clocks, right.last, left.first)
}

/// Whether this is the channel.
pub fn is_of(channel: ChannelId, owner: Option<ChannelId>) -> bool
    ensures { result ≡ is_of channel owner }
{
    match owner {
        Some(owner) => owner == channel,
        None => false,
    }
}

/// Whether two stretches are of one channel.
pub fn share_channel(left: &Stretch, right: &Stretch) -> bool
    ensures { result ≡ model.share_channel left.now.name.channel right.now.name.channel }
{
    match left.name.channel {
        Some(channel) => is_of(channel, right.name.channel),
        None => false,
    }
}

/// Whether two boxes hold a place in common.
pub fn share_place(left: &ZoneBox, right: &ZoneBox) -> bool
    ensures { result ≡ model.share_place left.now right.now }
{
    left.from <= right.to && right.from <= left.to
}

/// Whether two boxes are compared: where their stretches are of one channel, those with a place in common.
pub fn are_compared(shared: bool, own: &ZoneBox, later: &ZoneBox) -> bool
    ensures { result ≡ (not shared || model.share_place own.now later.now) }
{
    !shared || share_place(own, later)
}
