//! The picture of a judged job.
ghost use Rattle.std.specs.Prelude.{◌≡◌, ◌≤◌, ◌++◌, ◌||◌, ◌+◌, All, IfOk, length, nat_lt, option_copied, take};
ghost use Rattle.job_lines.specs.declared.limits.TheConstants.{DEPTH_LIMIT};
ghost use Rattle.explain_pictures.specs.Boxes.{all_tiles};
ghost use Rattle.explain_pictures.specs.Focus.{view_of};
ghost use Rattle.explain_pictures.specs.Kept.{IsShortened};
ghost use Rattle.explain_pictures.specs.Moments.{channels_of, moments_from};
ghost use Rattle.explain_pictures.specs.Named.{named_tiles};
ghost use Rattle.explain_pictures.specs.Spans as spans;
ghost use Rattle.explain_pictures.specs.Tracks.{all_tracks};
ghost use Rattle.zone_stretches.specs.ZoneBoxes.{IsFit};

use crate::kept::shortened;
use crate::moments::{add_entries, channels_of};
use crate::named::add_named;
use crate::scene::Scene;
use crate::spans::named_spans;
use crate::{boxes, tracks};
use explain_places::Meeting;
use explain_views::{Moment, Picture, Tile, Track};
use out_of_memory::NoMemory;
use std::alloc::Global;
use sync_types::Entry;
use zone_stretches::Stretches;

/// Up to how many boxes are drawn, and up to how many ways.
pub const TILE_LIMIT: usize = 20_000;

/// Up to how many moments are drawn.
pub const MOMENT_LIMIT: usize = 2_000;

/// The first boxes of all zones, and whether there are more. `NoMemory` where too little memory is found.
fn first_tiles(alloc: Global, scene: &Scene) -> Result<(Vec<Tile>, bool), NoMemory>
    requires fit { All (All IsFit) scene.now.run.now.items }
    requires deep { scene.now.job.now.depth ≤ DEPTH_LIMIT }
    ensures { IfOk result (λ tiles. IsShortened TILE_LIMIT (all_tiles (view_of scene.now)) tiles.0.items tiles.1) }
{
    let mut tiles = Vec::new(alloc);
    boxes::add_zones(&mut tiles, TILE_LIMIT + 1, scene)?;
    let is_cut = shortened(&mut tiles, TILE_LIMIT);
    Ok((tiles, is_cut))
}

/// The first ways of all zones, and whether there are more. `NoMemory` where too little memory is found.
fn first_tracks(alloc: Global, scene: &Scene) -> Result<(Vec<Track>, bool), NoMemory>
    ensures { IfOk result (λ tracks. IsShortened TILE_LIMIT (all_tracks (view_of scene.now)) tracks.0.items tracks.1) }
{
    let mut tracks = Vec::new(alloc);
    tracks::add_zones(&mut tracks, TILE_LIMIT + 1, scene)?;
    let is_cut = shortened(&mut tracks, TILE_LIMIT);
    Ok((tracks, is_cut))
}

/// The first moments of a run, and whether there are more. `NoMemory` where too little memory is found.
fn first_moments(alloc: Global, entries: &[Entry]) -> Result<(Vec<Moment>, bool), NoMemory>
    ensures { IfOk result (λ moments. IsShortened MOMENT_LIMIT (moments_from 0 entries.now) moments.0.items moments.1) }
{
    let mut moments = Vec::new(alloc);
    add_entries(&mut moments, MOMENT_LIMIT + 1, entries)?;
    let is_cut = shortened(&mut moments, MOMENT_LIMIT);
    Ok((moments, is_cut))
}

/// The picture of a judged job, of which these boxes are the first that meet, if any do: all boxes of its zones by the pieces of
/// their motions, up to 20,000, and over them in red the two that meet, with their times; the ways of the zones, up to 20,000; and what
/// the channels do in each step, up to 2,000 moments. What is apart in time from what is looked at is pale. Where something is left
/// out, `is_cut` is true. `NoMemory` where too little memory is found.
pub fn picture_of(
    alloc: Global,
    scene: &Scene,
    first: Option<&Meeting>,
) -> Result<Picture, NoMemory>
    requires fit { All (All IsFit) scene.now.run.now.items }
    requires deep { scene.now.job.now.depth ≤ DEPTH_LIMIT }
    ensures tiles { IfOk result (λ picture. picture.tiles.items
        ≡ take TILE_LIMIT (all_tiles (view_of scene.now))
        ++ named_tiles scene.now.job.now scene.now.run.now (option_copied first.entry)) }
    ensures tracks { IfOk result (λ picture. picture.tracks.items
        ≡ take TILE_LIMIT (all_tracks (view_of scene.now))) }
    ensures moments { IfOk result (λ picture. picture.moments.items
        ≡ take MOMENT_LIMIT (moments_from 0 scene.now.run.now.entries)) }
    ensures spans { IfOk result (λ picture. picture.spans.items ≡ spans.named_spans (option_copied first.entry)) }
    ensures channels { IfOk result (λ picture. picture.channels.items ≡ channels_of scene.now.job.now) }
    ensures cut { IfOk result (λ picture. picture.is_cut
        ≡ (nat_lt TILE_LIMIT (length (all_tiles (view_of scene.now)))
        || (nat_lt TILE_LIMIT (length (all_tracks (view_of scene.now)))
        || nat_lt MOMENT_LIMIT (length (moments_from 0 scene.now.run.now.entries))))) }
{
    let (mut tiles, few_tiles) = first_tiles(alloc, scene)?;
    let (tracks, few_tracks) = first_tracks(alloc, scene)?;
    let run = scene.run;
    let (moments, few_moments) = first_moments(alloc, run.entries.as_slice())?;
    add_named(alloc, &mut tiles, scene.job, scene.run, first)?;
    Ok(Picture {
        tiles,
        tracks,
        moments,
        spans: named_spans(alloc, first)?,
        channels: channels_of(alloc, scene.job)?,
        is_cut: few_tiles || few_tracks || few_moments,
    })
}
