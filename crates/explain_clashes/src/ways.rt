//! In which direction axes can part two zones that meet.
ghost use Rattle.std.specs.Prelude.{◌≡◌, ◌<◌, ◌+◌, ◌-ℤ◌, false, slice_get};
ghost use Rattle.std.specs.Option.{option_map_or};
ghost use Rattle.explain_reach.specs.Reaches.{reach_along};
ghost use Rattle.explain_clashes.specs.Ways as model;
ghost use Rattle.explain_clashes.specs.WaySteps.{IsLeastSoFar, lesser};

use explain_places::{Meeting, Place};
use explain_reach::Way;
use job_types::{Job, ZoneLine};
use swept_boxes::Box3;

/// Whether an axis carries a zone in a direction.
fn is_carried_by(zone: &ZoneLine, direction: usize) -> bool
    ensures { result ≡ option_map_or model.has_carrier (slice_get zone.now.sides direction) false }
{
    match zone.sides.get(direction) {
        Some(side) => side.carrier.is_some(),
        None => false,
    }
}

/// Whether an axis carries the zone of a box in a direction, by its line.
#[tactic(auto, unfolding(crate::specs::Ways::is_carried))]
fn is_carried(job: &Job, place: &Place, direction: usize) -> bool
    ensures { result ≡ model.is_carried job.now place.now direction }
{
    match job.zone_line(place.name.zone) {
        Some(zone) => is_carried_by(&zone, direction),
        None => false,
    }
}

/// Whether an axis carries one of two zones in a direction.
#[tactic(auto, unfolding(crate::specs::Ways::is_either_carried))]
fn is_either_carried(job: &Job, met: &Meeting, direction: usize) -> bool
    ensures { result ≡ model.is_either_carried job.now met.now direction }
{
    is_carried(job, &met.left, direction) || is_carried(job, &met.right, direction)
}

/// Whether axes can give two zones room in a direction. Where they carry neither zone in any, each direction counts.
#[tactic(auto, unfolding(crate::specs::Ways::gives_room))]
fn gives_room(job: &Job, met: &Meeting, direction: usize) -> bool
    ensures { result ≡ model.gives_room job.now met.now direction }
{
    let x = is_either_carried(job, met, 0);
    let y = is_either_carried(job, met, 1);
    let z = is_either_carried(job, met, 2);
    is_either_carried(job, met, direction) || !(x || y || z)
}

/// The lesser of a way that was found and one more, or the one that was found where they are equal.
fn lesser(found: Option<Way>, way: Way) -> Way
    ensures { result ≡ lesser found way }
{
    match found {
        None => way,
        Some(found) => { if way.shift < found.shift { way } else { found } }
    }
}

/// The least way that was found in the directions below this one, or in this one.
fn least_with(found: Option<Way>, job: &Job, met: &Meeting, direction: usize) -> Option<Way>
    requires in_space { direction < 3 }
    requires below { IsLeastSoFar (model.gives_room job.now met.now) met.now.left.cover
        met.now.right.cover direction found }
    ensures { IsLeastSoFar (model.gives_room job.now met.now) met.now.left.cover
        met.now.right.cover (direction + 1) result }
{
    if gives_room(job, met, direction) {
        let way = Way::along(&met.left.cover, &met.right.cover, direction);
        Some(lesser(found, way))
    } else {
        found
    }
}

/// The first direction in which two boxes of zones reach into each other the least, of those in which axes can give room.
pub(crate) fn way_for(job: &Job, met: &Meeting) -> Way
    ensures { model.IsLeastWay (model.gives_room job.now met.now) met.now.left.cover met.now.right.cover 3 result }
{
    let x = least_with(None, job, met, 0);
    let y = least_with(x, job, met, 1);
    match least_with(y, job, met, 2) {
        Some(way) => way,
        None => unreachable!(),
    }
}
