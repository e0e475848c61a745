//! The ways of the points that zones travel with.
ghost use Rattle.std.specs.Prelude.{◌≡◌, ◌<◌, ◌==◌, ◌++◌, IfOk, flat_map, take, find, option_copied};
ghost use Rattle.path_geometry.specs.Motions.{axes_of};
ghost use Rattle.explain_pictures.specs.Focus.{view_of};
ghost use Rattle.explain_pictures.specs.Tracks as model;
ghost use Rattle.swept_boxes.specs.Boxes.{low_of, high_of};

use crate::boxes::stretches_at;
use crate::kept::keep;
use crate::scene::{DrawnStretch, Scene, is_apart};
use crate::turns::{signed, turn_of};
use axis_sets::AxisId;
use explain_views::{Track, Turn};
use job_types::{Job, Side, ZoneLine};
use micro_units::Um;
use out_of_memory::NoMemory;
use path_geometry::Motion;
use swept_boxes::Box3;
use zone_stretches::{Stretch, ZoneBox, motion_at, zone_at};

/// Where the point of a side stands during a box that does not move it: at the position of its carrier, or in the middle of the
/// box where it has none.
#[tactic(auto, unfolding(crate::specs::Tracks::standing))]
fn standing(side: &Side, low: i32, high: i32, margin: Um) -> i64
    ensures { result ≡ model.standing side.now low high margin }
{
    match side.carrier {
        Some(_) => i64::from(low)
            .saturating_sub(i64::from(side.lo.micrometres))
            .saturating_add(i64::from(margin.micrometres)),
        None => i64::from(low).saturating_add(i64::from(high)) / 2,
    }
}

/// Where an axis is at the start and at the end of a motion; nothing where the motion has it not.
fn ends_of(motion: &Motion, axis: AxisId) -> Option<&(AxisId, Um, Um)>
    ensures { option_copied result ≡ find (λ end. end.0 == axis) (axes_of motion.now) }
{
    let ends = motion.ends().axes.as_slice();
    ends.iter().find(|end| end.0 == axis)
}

/// Where the point of a side is at the start and at the end of a motion; nothing where the motion does not move it.
#[tactic(auto, unfolding(crate::specs::Tracks::moving))]
fn moving(side: &Side, motion: &Motion) -> Option<(i64, i64)>
    ensures { result ≡ model.moving side.now motion.now }
{
    match side.carrier {
        Some((axis, minus)) => match ends_of(motion, axis) {
            Some(ends) => Some((signed(ends.1, minus), signed(ends.2, minus))),
            None => None,
        },
        None => None,
    }
}

/// Where the point of a side of a zone is at the start and at the end of a box.
#[tactic(auto, unfolding(crate::specs::Tracks::side_ends))]
fn side_ends(job: &Job, side: &Side, low: i32, high: i32, motion: &Motion) -> (i64, i64)
    ensures { result ≡ model.side_ends job.now side.now low high motion.now }
{
    match moving(side, motion) {
        Some(ends) => ends,
        None => {
            let stands = standing(side, low, high, job.margin);
            (stands, stands)
        }
    }
}

/// How a zone turns with a motion; nothing where that is no arc in two of its directions.
fn turn_with(zone: &ZoneLine, motion: &Motion) -> Option<Turn>
    ensures { result ≡ model.turn_with zone.now motion.now }
{
    match motion {
        Motion::Line(_) | Motion::Rapid(_) => None,
        Motion::Arc(arc) => turn_of(zone, arc),
    }
}

/// Whether each axis of a motion goes by itself.
fn is_rapid(motion: &Motion) -> bool
    ensures { result ≡ model.is_rapid motion.now }
{
    match motion {
        Motion::Rapid(_) => true,
        Motion::Line(_) | Motion::Arc(_) => false,
    }
}

/// The bounds of a box along a direction.
fn bounds_of(cover: &Box3, direction: usize) -> (i32, i32)
    requires { direction < 3 }
    ensures low { result.0 ≡ low_of cover.now direction }
    ensures high { result.1 ≡ high_of cover.now direction }
{
    (cover.lo[direction], cover.hi[direction])
}

/// Where the point of a zone is along a direction at the start and at the end of a box.
#[tactic(auto, unfolding(crate::specs::Tracks::ends_along))]
fn ends_along(
    job: &Job,
    zone: &ZoneLine,
    own: &ZoneBox,
    motion: &Motion,
    direction: usize,
) -> (i64, i64)
    requires { direction < 3 }
    ensures { result ≡ model.ends_along job.now zone.now own.now motion.now direction }
{
    let (low, high) = bounds_of(&own.cover, direction);
    match zone.sides.as_slice().get(direction) {
        Some(side) => side_ends(job, side, low, high, motion),
        None => (0, 0),
    }
}

/// The way of a zone during a box.
#[tactic(auto, unfolding(crate::specs::Tracks::track_of))]
pub(crate) fn track_of(
    job: &Job,
    zone: &ZoneLine,
    channel: u8,
    own: &ZoneBox,
    motion: &Motion,
) -> Track
    ensures { result ≡ model.track_of job.now zone.now channel own.now motion.now }
{
    let x = ends_along(job, zone, own, motion, 0);
    let y = ends_along(job, zone, own, motion, 1);
    let z = ends_along(job, zone, own, motion, 2);
    Track {
        channel,
        zone: zone.zone.number,
        line: own.line,
        is_rapid: is_rapid(motion),
        is_pale: false,
        from: [x.0, y.0, z.0],
        to: [x.1, y.1, z.1],
        turn: turn_with(zone, motion),
    }
}

/// A way, pale or not.
fn in_tint(track: Track, pale: bool) -> Track
    ensures { result ≡ model.in_tint pale track }
{
    let mut tinted = track;
    tinted.is_pale = pale;
    tinted
}

/// The way of a box of a stretch of a zone; none where it stands or nobody holds the zone.
#[tactic(auto, unfolding(crate::specs::Tracks::track_at))]
fn track_at(drawn: &DrawnStretch<'_>, own: &ZoneBox) -> Option<Track>
    ensures { result ≡ model.track_at drawn.now.job.now drawn.now.run.now drawn.now.pale drawn.now.zone.now
        drawn.now.stretch.now own.now }
{
    let stretch = drawn.stretch;
    match stretch.name.channel {
        Some(channel) => match motion_at(drawn.run, stretch.entry, own.motion) {
            Some(motion) => {
                let track = track_of(drawn.job, drawn.zone, channel.number, own, motion);
                Some(in_tint(track, drawn.pale))
            }
            None => None,
        },
        None => None,
    }
}

/// Adds the way of a box of a stretch, while there is room.
fn add_box(
    tracks: &mut Vec<Track>,
    limit: usize,
    drawn: &DrawnStretch<'_>,
    own: &ZoneBox,
) -> Result<(), NoMemory>
    ensures { IfOk result (λ _. take limit tracks.new.items
        ≡ take limit (tracks.old.items
        ++ model.tracks_of_box drawn.now.job.now drawn.now.run.now drawn.now.pale drawn.now.zone.now
        drawn.now.stretch.now own.now)) }
{
    match track_at(drawn, own) {
        Some(track) => keep(tracks, limit, track),
        None => Ok(()),
    }
}

/// Adds the ways of a stretch, pale where it is apart in time from what is looked at.
#[tactic(auto, unfolding(crate::specs::Focus::view_of))]
fn add_stretch(
    tracks: &mut Vec<Track>,
    limit: usize,
    scene: &Scene,
    zone: &ZoneLine,
    stretch: &Stretch,
) -> Result<(), NoMemory>
    ensures { IfOk result (λ _. take limit tracks.new.items
        ≡ take limit (tracks.old.items ++ model.tracks_of_stretch (view_of scene.now) zone.now stretch.now)) }
{
    let pale = is_apart(scene, stretch);
    let drawn = DrawnStretch {
        job: scene.job,
        run: scene.run,
        zone,
        stretch,
        pale,
    };
    for own in &stretch.boxes {
        add_box(tracks, limit, &drawn, own)?;
    }
    Ok(())
}

/// Adds the ways of stretches of a zone.
fn add_stretches(
    tracks: &mut Vec<Track>,
    limit: usize,
    scene: &Scene,
    zone: &ZoneLine,
    stretches: &[Stretch],
) -> Result<(), NoMemory>
    ensures { IfOk result (λ _. take limit tracks.new.items
        ≡ take limit (tracks.old.items
        ++ flat_map (model.tracks_of_stretch (view_of scene.now) zone.now) stretches.now)) }
{
    for stretch in stretches {
        add_stretch(tracks, limit, scene, zone, stretch)?;
    }
    Ok(())
}

/// Adds the ways of the zone of this place.
#[tactic(auto, unfolding(crate::specs::Tracks::tracks_of_zone, crate::specs::Focus::view_of))]
fn add_zone(
    tracks: &mut Vec<Track>,
    limit: usize,
    scene: &Scene,
    place: usize,
) -> Result<(), NoMemory>
    ensures { IfOk result (λ _. take limit tracks.new.items
        ≡ take limit (tracks.old.items ++ model.tracks_of_zone (view_of scene.now) place)) }
{
    match zone_at(scene.job, place) {
        Some(zone) => add_stretches(
            tracks,
            limit,
            scene,
            &zone,
            stretches_at(scene.stretches, place),
        ),
        None => Ok(()),
    }
}

/// Adds the ways of all zones, while there is room.
#[tactic(auto, unfolding(crate::specs::Tracks::all_tracks, crate::specs::Focus::view_of))]
pub(crate) fn add_zones(
    tracks: &mut Vec<Track>,
    limit: usize,
    scene: &Scene,
) -> Result<(), NoMemory>
    ensures { IfOk result (λ _. take limit tracks.new.items
        ≡ take limit (tracks.old.items ++ model.all_tracks (view_of scene.now))) }
{
    let stretches = scene.stretches;
    for place in 0..stretches.zones.len() {
        add_zone(tracks, limit, scene, place)?;
    }
    Ok(())
}
