//! The two boxes that the verdict names, in red.
ghost use Rattle.std.specs.Prelude.{◌≡◌, ◌≤◌, ◌++◌, ◌==◌, true, All, IfOk, find, option_copied};
ghost use Rattle.job_lines.specs.declared.limits.TheConstants.{DEPTH_LIMIT};
ghost use Rattle.zone_stretches.specs.ZoneBoxes.{IsFit};
ghost use Rattle.explain_pictures.specs.Focus.{stretch_of};
ghost use Rattle.explain_pictures.specs.Named as model;

use crate::kept::add;
use axis_sets::ZoneId;
use explain_places::{Meeting, Place};
use explain_views::{Look, Tile};
use job_types::{Job, ZoneLine};
use out_of_memory::NoMemory;
use std::alloc::Global;
use swept_boxes::Box3;
use sync_types::Run;
use zone_stretches::{Stretch, ZoneBox, boxes_by_pieces};

/// A piece of a box, labelled or not.
fn named_piece(tile: &Tile, piece: &Box3, marked: bool) -> Tile
    ensures { result ≡ model.named_piece marked tile.now piece.now }
{
    let mut part = *tile;
    part.space = *piece;
    part.is_labelled = marked;
    part
}

/// Adds a box by these pieces, of which the first alone is labelled.
fn add_pieces(tiles: &mut Vec<Tile>, pieces: &[Box3], tile: &Tile) -> Result<(), NoMemory>
    ensures { IfOk result (λ _. tiles.new.items ≡ tiles.old.items ++ model.labelled true tile.now pieces.now) }
{
    let mut marked = true;
    for piece in pieces {
        add(tiles, named_piece(tile, piece, marked))?;
        marked = false;
    }
    Ok(())
}

/// The box of a place, in this look and with its name.
fn named_tile(place: &Place, look: Look) -> Tile
    ensures { result ≡ model.named_tile look place.now }
{
    Tile {
        space: place.cover,
        look,
        name: place.name,
        moves: place.motion.is_some(),
        is_labelled: true,
        is_pale: false,
    }
}

/// The zone of this number in a job.
fn zone_of(job: &Job, zone: ZoneId) -> Option<&ZoneLine>
    ensures { option_copied result ≡ find (λ line. line.zone == zone) job.now.zones }
{
    job.zones.iter().find(|line| line.zone == zone)
}

/// The stretch of a box, of which it is said what a box needs to be cut into pieces.
fn stretch_of(alloc: Global, place: &Place) -> Stretch
    ensures { result ≡ stretch_of place.now }
{
    Stretch {
        name: place.name,
        first: place.first,
        last: place.last,
        entry: place.entry,
        boxes: Vec::new(alloc),
    }
}

/// The box of a place.
fn box_of(place: &Place) -> ZoneBox
    ensures { result ≡ model.box_of place.now }
{
    ZoneBox {
        line: place.name.line,
        motion: place.motion,
        from: place.from,
        to: place.to,
        cover: place.cover,
    }
}

/// Adds a box that the verdict names.
#[tactic(auto, unfolding(crate::specs::Named::tiles_of_place))]
fn add_place(
    alloc: Global,
    tiles: &mut Vec<Tile>,
    job: &Job,
    run: &Run,
    place: &Place,
    look: Look,
) -> Result<(), NoMemory>
    requires fit { All (All IsFit) run.now.items }
    requires deep { job.now.depth ≤ DEPTH_LIMIT }
    ensures { IfOk result (λ _. tiles.new.items ≡ tiles.old.items
        ++ model.tiles_of_place job.now run.now look place.now) }
{
    match zone_of(job, place.name.zone) {
        Some(zone) => {
            let stretch = stretch_of(alloc, place);
            let pieces = boxes_by_pieces(job, run, zone, &stretch, &box_of(place));
            add_pieces(tiles, pieces.as_slice(), &named_tile(place, look))
        }
        None => Ok(()),
    }
}

/// Adds both boxes that the verdict names, if it names any.
#[tactic(auto, unfolding(crate::specs::Named::named_tiles))]
pub(crate) fn add_named(
    alloc: Global,
    tiles: &mut Vec<Tile>,
    job: &Job,
    run: &Run,
    first: Option<&Meeting>,
) -> Result<(), NoMemory>
    requires fit { All (All IsFit) run.now.items }
    requires deep { job.now.depth ≤ DEPTH_LIMIT }
    ensures { IfOk result (λ _. tiles.new.items ≡ tiles.old.items
        ++ model.named_tiles job.now run.now (option_copied first.entry)) }
{
    if let Some(met) = first {
        add_place(alloc, tiles, job, run, &met.left, Look::First)?;
        add_place(alloc, tiles, job, run, &met.right, Look::Second)?;
    }
    Ok(())
}
