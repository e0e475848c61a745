//! How far a picture reaches.
ghost use Rattle.std.specs.Prelude.{◌≡◌};
ghost use Rattle.std.specs.Int.{int_max, int_min};
ghost use Rattle.explain_views.specs.Extents as model;
ghost use Rattle.explain_views.specs.Marks.{along};

use crate::shapes::{Picture, Tile, Track};

/// The lowest and the highest place of a picture along a direction.
#[derive(Clone, Copy)]
pub struct Extent {
    /// The lowest.
    pub low: i64,
    /// The highest.
    pub high: i64,
}

impl Extent {
    /// How long it is.
    pub fn length(&self) -> i64
        ensures { result ≡ model.length_of self.now }
    {
        self.high.saturating_sub(self.low)
    }
}

/// The lesser of two numbers.
fn lesser(a: i64, b: i64) -> i64
    ensures { result ≡ int_min a b }
{
    a.min(b)
}

/// The greater of two numbers.
fn greater(a: i64, b: i64) -> i64
    ensures { result ≡ int_max a b }
{
    a.max(b)
}

/// An extent that reaches to two places too.
fn reach(extent: Extent, low: i64, high: i64) -> Extent
    ensures { result ≡ model.reach extent low high }
{
    Extent {
        low: lesser(lesser(extent.low, low), high),
        high: greater(greater(extent.high, low), high),
    }
}

/// A bound of a tile along a direction.
#[tactic(auto, unfolding(crate::specs::Marks::along))]
fn bound(bounds: &[i32; 3], direction: usize) -> i64
    ensures { result ≡ along bounds.now direction }
{
    match bounds.as_slice().get(direction) {
        Some(place) => i64::from(*place),
        None => 0,
    }
}

/// A place along a direction.
#[tactic(auto, unfolding(crate::specs::Marks::along))]
pub fn along(at: &[i64; 3], direction: usize) -> i64
    ensures { result ≡ along at.now direction }
{
    match at.as_slice().get(direction) {
        Some(place) => *place,
        None => 0,
    }
}

/// The low and the high bound of a tile along a direction.
pub(crate) fn bounds_of(tile: &Tile, direction: usize) -> (i64, i64)
    ensures low { result.0 ≡ along tile.now.space.lo direction }
    ensures high { result.1 ≡ along tile.now.space.hi direction }
{
    (
        bound(&tile.space.lo, direction),
        bound(&tile.space.hi, direction),
    )
}

/// An extent that reaches to a tile too.
fn reach_tile(extent: Extent, tile: &Tile, direction: usize) -> Extent
    ensures { result ≡ model.reach_tile direction extent tile.now }
{
    let (low, high) = bounds_of(tile, direction);
    reach(extent, low, high)
}

/// An extent that reaches to the ends of a track too.
fn reach_track(extent: Extent, track: &Track, direction: usize) -> Extent
    ensures { result ≡ model.reach_track direction extent track.now }
{
    reach(
        extent,
        along(&track.from, direction),
        along(&track.to, direction),
    )
}

/// How far tiles reach along a direction; the origin is always in it.
fn extent_of_tiles(tiles: &[Tile], direction: usize) -> Extent
    ensures { result ≡ model.extent_of_tiles tiles.now direction }
{
    let mut extent = Extent { low: 0, high: 0 };
    for tile in tiles {
        extent = reach_tile(extent, tile, direction);
    }
    extent
}

/// An extent that reaches to the ends of tracks too.
fn reach_tracks(extent: Extent, tracks: &[Track], direction: usize) -> Extent
    ensures { result ≡ model.reach_tracks direction extent tracks.now }
{
    let mut extent = extent;
    for track in tracks {
        extent = reach_track(extent, track, direction);
    }
    extent
}

/// How far a picture reaches along a direction; the origin is always in it.
#[tactic(auto, unfolding(crate::specs::Extents::extent_of))]
pub fn extent_of(picture: &Picture, direction: usize) -> Extent
    ensures { result ≡ model.extent_of picture.now direction }
{
    let extent = extent_of_tiles(picture.tiles.as_slice(), direction);
    reach_tracks(extent, picture.tracks.as_slice(), direction)
}

/// Whether a track moves along a direction.
fn moves(track: &Track, direction: usize) -> bool
    ensures { result ≡ model.moves direction track.now }
{
    along(&track.from, direction) != along(&track.to, direction)
}

/// Whether any track of a picture moves along a direction.
#[tactic(auto, unfolding(crate::specs::Extents::has_motion))]
pub fn has_motion(picture: &Picture, direction: usize) -> bool
    ensures { result ≡ model.has_motion picture.now direction }
{
    let tracks = picture.tracks.as_slice();
    tracks.iter().any(|track| moves(track, direction))
}
