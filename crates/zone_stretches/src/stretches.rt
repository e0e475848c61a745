//! What is told of the time of zones.
ghost use Rattle.std.specs.Prelude.{◌≡◌};
ghost use Rattle.zone_stretches.specs.Times.{lists_in};

use std::marker::Model;
use swept_boxes::Box3;
use sync_types::{EventId, PlaceName};

/// A box of a stretch: what its zone sweeps at some places of it.
#[derive(Clone, Copy, PartialEq, Eq)]
pub struct ZoneBox {
    /// The line of its motion, or where it stands that with which its part began.
    pub line: u32,
    /// The place of its motion, or none where it stands.
    pub motion: Option<u32>,
    /// The first place that it holds: 0 is the stretch's beginning, and each item of the stretch's entry has a place.
    pub from: u32,
    /// The last place that it holds.
    pub to: u32,
    /// The zone box of what its motion covers, or of where the zone stands.
    pub cover: Box3,
}

/// A stretch of a zone: what the channel does in it that holds the zone, or that none holds it.
#[derive(Drop)]
pub struct Stretch {
    /// How a box is named that stands from the stretch's beginning.
    pub name: PlaceName,
    /// The event with which it begins; none where it begins with the job.
    pub first: Option<EventId>,
    /// The event with which it ends; none where it lasts.
    pub last: Option<EventId>,
    /// The entry of the run whose items its places count, where the channel runs; else that of its first event, or 0.
    pub entry: u32,
    /// The boxes, in order; none where the zone is off.
    pub boxes: Vec<ZoneBox>,
}

impl Model for Stretch {
    ghost use Rattle.zone_stretches.specs.Stretches.{StretchView};

    ghost Value = { StretchView };

    ghost view = { λ s. record {
      name = s.name;
      first = s.first;
      last = s.last;
      entry = s.entry;
      boxes = s.boxes.items;
    } };
}

/// The time of all zones of a job.
#[derive(Drop)]
pub struct Stretches {
    /// For each zone, in ascending order of the zones, its stretches in order.
    pub zones: Vec<Vec<Stretch>>,
}

impl Model for Stretches {
    ghost use Rattle.std.specs.Prelude.{map};
    ghost use Rattle.zone_stretches.specs.Stretches.{StretchesView};

    ghost Value = { StretchesView };

    ghost view = { λ s. record { zones = map (λ stretches. stretches.items) s.zones.items } };
}

/// The stretches of all zones.
pub fn lists_of(stretches: &Stretches) -> &[Vec<Stretch>]
    ensures { lists_in result.now ≡ stretches.now.zones }
{
    stretches.zones.as_slice()
}
