//! Where the channels of a job start.
use arrayvec::ArrayVec;
use axis_sets::{AXIS_LIMIT, AxisId, AxisSet, CHANNEL_LIMIT, ChannelId, ZONE_LIMIT, ZoneId};
use micro_units::Um;
use std::marker::Model;

/// The channels, axes and zones of a job, as they are before the first step.
#[derive(Clone, Default, PartialEq, Eq, Drop)]
pub struct StartState {
    /// Each channel, the place of its selected program among the programs of the job, and whether it runs.
    pub channels: ArrayVec<(ChannelId, Option<u16>, bool), CHANNEL_LIMIT>,
    /// Each axis, the channel that owns it, or none where it is free, and where it stands in micrometres.
    pub axes: ArrayVec<(AxisId, Option<ChannelId>, Um), AXIS_LIMIT>,
    /// Each zone, the axes that carry it, the channel that holds it, or none, and whether it is on.
    pub zones: ArrayVec<(ZoneId, AxisSet, Option<ChannelId>, bool), ZONE_LIMIT>,
}

impl Model for StartState {
    ghost use Rattle.sync_types.specs.Views.{StartView};

    ghost Value = { StartView };

    ghost view = { λ s. record { channels = s.channels.items; axes = s.axes.items; zones = s.zones.items } };

    ghost inverse = { λ s. record {
      channels = record { items = s.channels };
      axes = record { items = s.axes };
      zones = record { items = s.zones };
    } };
}
