//! The boxes of all zones, by the pieces of their motions, each with the look of its holder.
ghost use Rattle.std.specs.Prelude.{◌≡◌, ◌≤◌, ◌++◌, All, IfOk, flat_map, map, slice_index_or, take, []};
ghost use Rattle.job_lines.specs.declared.limits.TheConstants.{DEPTH_LIMIT};
ghost use Rattle.zone_stretches.specs.ZoneBoxes.{IsFit};
ghost use Rattle.explain_pictures.specs.Boxes as model;
ghost use Rattle.explain_pictures.specs.Focus.{view_of};

use crate::kept::keep;
use crate::scene::{DrawnStretch, Scene, is_apart};
use explain_views::{Look, Tile};
use job_types::ZoneLine;
use out_of_memory::NoMemory;
use swept_boxes::Box3;
use sync_types::PlaceName;
use zone_stretches::{Stretch, Stretches, ZoneBox, boxes_by_pieces, zone_at};

/// How a box is drawn: as one of the channel that holds its zone, or as one that nobody holds.
pub(crate) fn look_of(name: &PlaceName) -> Look
    ensures { result ≡ model.look_of name.now }
{
    match name.channel {
        Some(channel) => Look::Held(channel.number),
        None => Look::Free,
    }
}

/// A box of a stretch, pale or not, with its own line and the look of its holder.
fn tile_of(stretch: &Stretch, own: &ZoneBox, pale: bool) -> Tile
    ensures { result ≡ model.tile_of pale stretch.now own.now }
{
    let mut name = stretch.name;
    name.line = own.line;
    Tile {
        space: own.cover,
        look: look_of(&stretch.name),
        name,
        moves: own.motion.is_some(),
        is_labelled: false,
        is_pale: pale,
    }
}

/// A piece of a box.
fn in_piece(tile: &Tile, piece: &Box3) -> Tile
    ensures { result ≡ model.in_piece tile.now piece.now }
{
    let mut part = *tile;
    part.space = *piece;
    part
}

/// Adds a box by these pieces, while there is room.
fn add_pieces(
    tiles: &mut Vec<Tile>,
    limit: usize,
    pieces: &[Box3],
    tile: &Tile,
) -> Result<(), NoMemory>
    ensures { IfOk result (λ _. take limit tiles.new.items
        ≡ take limit (tiles.old.items ++ map (model.in_piece tile.now) pieces.now)) }
{
    for piece in pieces {
        keep(tiles, limit, in_piece(tile, piece))?;
    }
    Ok(())
}

/// Adds a box of a stretch by its pieces.
fn add_box(
    tiles: &mut Vec<Tile>,
    limit: usize,
    drawn: &DrawnStretch<'_>,
    own: &ZoneBox,
) -> Result<(), NoMemory>
    requires fit { All (All IsFit) drawn.now.run.now.items }
    requires deep { drawn.now.job.now.depth ≤ DEPTH_LIMIT }
    ensures { IfOk result (λ _. take limit tiles.new.items
        ≡ take limit (tiles.old.items
        ++ model.tiles_of_box drawn.now.job.now drawn.now.run.now drawn.now.pale drawn.now.zone.now
        drawn.now.stretch.now own.now)) }
{
    let stretch = drawn.stretch;
    let pieces = boxes_by_pieces(drawn.job, drawn.run, drawn.zone, stretch, own);
    add_pieces(
        tiles,
        limit,
        pieces.as_slice(),
        &tile_of(stretch, own, drawn.pale),
    )
}

/// Adds the boxes of a stretch, pale where it is apart in time from what is looked at.
#[tactic(auto, unfolding(crate::specs::Focus::view_of))]
fn add_stretch(
    tiles: &mut Vec<Tile>,
    limit: usize,
    scene: &Scene,
    zone: &ZoneLine,
    stretch: &Stretch,
) -> Result<(), NoMemory>
    requires fit { All (All IsFit) scene.now.run.now.items }
    requires deep { scene.now.job.now.depth ≤ DEPTH_LIMIT }
    ensures { IfOk result (λ _. take limit tiles.new.items
        ≡ take limit (tiles.old.items ++ model.tiles_of_stretch (view_of scene.now) zone.now stretch.now)) }
{
    let pale = is_apart(scene, stretch);
    let drawn = DrawnStretch {
        job: scene.job,
        run: scene.run,
        zone,
        stretch,
        pale,
    };
    for own in &stretch.boxes {
        add_box(tiles, limit, &drawn, own)?;
    }
    Ok(())
}

/// Adds the boxes of stretches of a zone.
fn add_stretches(
    tiles: &mut Vec<Tile>,
    limit: usize,
    scene: &Scene,
    zone: &ZoneLine,
    stretches: &[Stretch],
) -> Result<(), NoMemory>
    requires fit { All (All IsFit) scene.now.run.now.items }
    requires deep { scene.now.job.now.depth ≤ DEPTH_LIMIT }
    ensures { IfOk result (λ _. take limit tiles.new.items
        ≡ take limit (tiles.old.items
        ++ flat_map (model.tiles_of_stretch (view_of scene.now) zone.now) stretches.now)) }
{
    for stretch in stretches {
        add_stretch(tiles, limit, scene, zone, stretch)?;
    }
    Ok(())
}

/// The stretches of the zone of this place.
pub(crate) fn stretches_at(stretches: &Stretches, place: usize) -> &[Stretch]
    ensures { result.now ≡ slice_index_or stretches.now.zones place [] }
{
    match stretches.zones.get(place) {
        None => &[],
        Some(list) => list.as_slice(),
    }
}

/// Adds the boxes of the zone of this place.
#[tactic(auto, unfolding(crate::specs::Boxes::tiles_of_zone, crate::specs::Focus::view_of))]
fn add_zone(
    tiles: &mut Vec<Tile>,
    limit: usize,
    scene: &Scene,
    place: usize,
) -> Result<(), NoMemory>
    requires fit { All (All IsFit) scene.now.run.now.items }
    requires deep { scene.now.job.now.depth ≤ DEPTH_LIMIT }
    ensures { IfOk result (λ _. take limit tiles.new.items
        ≡ take limit (tiles.old.items ++ model.tiles_of_zone (view_of scene.now) place)) }
{
    match zone_at(scene.job, place) {
        Some(zone) => add_stretches(
            tiles,
            limit,
            scene,
            &zone,
            stretches_at(scene.stretches, place),
        ),
        None => Ok(()),
    }
}

/// Adds the boxes of all zones, while there is room.
#[tactic(auto, unfolding(crate::specs::Boxes::all_tiles, crate::specs::Focus::view_of))]
pub(crate) fn add_zones(tiles: &mut Vec<Tile>, limit: usize, scene: &Scene) -> Result<(), NoMemory>
    requires fit { All (All IsFit) scene.now.run.now.items }
    requires deep { scene.now.job.now.depth ≤ DEPTH_LIMIT }
    ensures { IfOk result (λ _. take limit tiles.new.items
        ≡ take limit (tiles.old.items ++ model.all_tiles (view_of scene.now))) }
{
    let stretches = scene.stretches;
    for place in 0..stretches.zones.len() {
        add_zone(tiles, limit, scene, place)?;
    }
    Ok(())
}
