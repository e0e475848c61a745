//! Zones, with their holders and whether they are on.
ghost use Rattle.std.specs.Prelude.{◌≡◌, ℕ, ◌==◌, ◌&&◌, false, map, length, if◌then◌else◌};
ghost use Rattle.std.specs.List.{list_any};
ghost use Rattle.axis_sets.specs.Sets.{has};
ghost use Rattle.sync_types.specs.Boards.{is_this};
ghost use Rattle.coord_core.specs.Tables.{shares, zone_after_step, zone_handed};

use crate::sets::has_none;
use arrayvec::ArrayVec;
use axis_sets::{AxisSet, ChannelId, ZONE_LIMIT, ZONE_PLACES, ZoneId, ZoneSet};

/// A zone, the axes that carry it, its holder, and whether it is on.
#[derive(Clone, Copy, PartialEq, Eq)]
pub(crate) struct ZoneState {
    pub(crate) zone: ZoneId,
    pub(crate) axes: AxisSet,
    pub(crate) holder: Option<ChannelId>,
    pub(crate) on: bool,
}

/// The zones of a job.
pub(crate) type Zones = ArrayVec<ZoneState, ZONE_LIMIT>;

impl Default for ZoneState {
    ghost use Rattle.std.specs.Prelude.{◌≡◌, None, false};
    ghost use Rattle.axis_sets.specs.Sets.{IsEmpty};

    // Nobody holds it, no axis carries it, and it is off.
    ghost is_default = { λ zone. (zone.zone ≡ 1) × IsEmpty zone.axes × (zone.holder ≡ None) × (zone.on ≡ false) };

    fn default() -> ZoneState {
        ZoneState {
            zone: ZoneId::default(),
            axes: AxisSet::empty(),
            holder: None,
            on: false,
        }
    }
}

// Whether this channel is the holder.
fn is_this(holder: Option<ChannelId>, channel: ChannelId) -> bool
    ensures { result ≡ is_this holder channel }
{
    match holder {
        Some(other) => other == channel,
        None => false,
    }
}

// The zone after a step of the channel that says which of its zones are on.
fn zone_after_step(zone: ZoneState, channel: ChannelId, on: &ZoneSet) -> ZoneState
    ensures { result ≡ zone_after_step channel on.now zone }
{
    let is_on = if is_this(zone.holder, channel) {
        on.contains(zone.zone)
    } else {
        zone.on
    };
    ZoneState { on: is_on, ..zone }
}

// Whether one of these axes carries a zone.
fn shares(carrying: AxisSet, axes: AxisSet) -> bool
    ensures { result ≡ shares carrying axes }
{
    !has_none(carrying, axes)
}

// The zone after these axes have got this owner, or none.
fn zone_handed(zone: ZoneState, axes: AxisSet, holder: &Option<ChannelId>) -> ZoneState
    ensures { result ≡ zone_handed axes holder.now zone }
{
    let holder = if shares(zone.axes, axes) {
        *holder
    } else {
        zone.holder
    };
    ZoneState { holder, ..zone }
}

// Of each zone that the channel holds it says whether it is on.
fn note_on_each(zones: &mut [ZoneState], channel: ChannelId, on: &ZoneSet)
    ensures { zones.new ≡ map (zone_after_step channel on.now) zones.old }
{
    for zone in zones.iter_mut() {
        *zone = zone_after_step(*zone, channel, on);
    }
}

// Each zone goes with these axes to their new holder, or to none.
fn hand_over_each(zones: &mut [ZoneState], axes: AxisSet, holder: &Option<ChannelId>)
    ensures { zones.new ≡ map (zone_handed axes holder.now) zones.old }
{
    for zone in zones.iter_mut() {
        *zone = zone_handed(*zone, axes, holder);
    }
}

// The channel says which of the zones are on that it holds.
pub(crate) fn note_on(zones: &mut Zones, channel: ChannelId, on: &ZoneSet)
    ensures { zones.new.items ≡ map (zone_after_step channel on.now) zones.old.items }
{
    note_on_each(zones.as_mut_slice(), channel, on);
}

// Zones go with these axes to their new holder, or to none.
pub(crate) fn hand_over(zones: &mut Zones, axes: AxisSet, holder: &Option<ChannelId>)
    ensures { zones.new.items ≡ map (zone_handed axes holder.now) zones.old.items }
{
    hand_over_each(zones.as_mut_slice(), axes, holder);
}

// The zones that the channel holds and that are on.
pub(crate) fn zones_on(zones: &[ZoneState], channel: ChannelId) -> ZoneSet
    ensures members { (z : ℕ) → has result z ≡ list_any
        (λ zone. (zone.zone == z) && (is_this zone.holder channel && zone.on)) zones.now }
    ensures none { has result 0 ≡ false }
    ensures size { length result ≡ ZONE_PLACES }
{
    let mut on = ZoneSet::empty();
    for zone in zones {
        if is_this(zone.holder, channel) && zone.on {
            on = on.with(zone.zone);
        }
    }
    on
}
