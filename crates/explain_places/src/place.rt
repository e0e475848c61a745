//! Boxes of zones, and what is told of them.
ghost use Rattle.std.specs.Prelude.{◌≡◌, option_copied};
ghost use Rattle.explain_places.specs.Places as model;

use path_geometry::Motion;
use swept_boxes::Box3;
use sync_types::{EventId, PlaceName, Run};

/// A box of a zone, with what is told of its stretch.
#[derive(Clone, Copy)]
pub struct Place {
    /// How the box is named.
    pub name: PlaceName,
    /// The event with which its stretch begins; none where it begins with the job.
    pub first: Option<EventId>,
    /// The event with which its stretch ends; none where it lasts.
    pub last: Option<EventId>,
    /// The entry of the run whose items the places of its stretch count.
    pub entry: u32,
    /// The place of its motion among those items, counted from 1; none where it stands.
    pub motion: Option<u32>,
    /// The first place of the stretch that it holds.
    pub from: u32,
    /// The last place that it holds.
    pub to: u32,
    /// The box.
    pub cover: Box3,
}

/// Two boxes that meet, that of the zone with the lower number first.
#[derive(Clone, Copy)]
pub struct Meeting {
    /// The box of the zone with the lower number.
    pub left: Place,
    /// That of the other zone.
    pub right: Place,
}

/// The motion of a box; none where it stands.
pub fn motion_of<'a>(run: &'a Run, place: &Place) -> Option<&'a Motion>
    ensures { option_copied result ≡ model.place_motion run.now place.now }
{
    match place.motion {
        None => None,
        Some(motion) => run.motion_at(place.entry, motion),
    }
}
