//! The quarters of an arc, from its start to its end.
ghost use Rattle.std.specs.Prelude.{◌≡◌, ◌+◌, ◌<◌, ◌≤◌, length};
ghost use Rattle.std.specs.List.{All, Any};
ghost use Rattle.path_geometry.specs.Arcs.{start_seen, end_seen};
ghost use Rattle.path_geometry.specs.Motions.{IsSoundArc};
ghost use Rattle.path_geometry.specs.Path.{Point, IsOnArc, point_seen};
ghost use Rattle.arc_quadrants.specs.Bounds.{IsBound, bounds_between};
ghost use Rattle.arc_quadrants.specs.Quadrants.{turned_back};
ghost use Rattle.arc_quadrants.specs.Quarters as parts;
ghost use Rattle.arc_quadrants.specs.Quarters.{quarters_of, IsFit};

use crate::seen::{Seen, begin_quadrant, end_quadrant, is_ahead, seen_ends, sizes, turned_back};
use arrayvec::ArrayVec;
use path_geometry::Arc;

/// A part of an arc that lies in one quadrant of its plane, seen from the centre.
#[derive(Clone, Copy, Default, PartialEq, Eq)]
pub struct Quarter {
    /// The quadrant, 0 to 3: so many quarter turns back bring it to quadrant 0.
    pub turn: u8,
    /// The direction in which it begins, turned back to quadrant 0: the parts along the two axes.
    pub from: (u64, u64),
    /// The direction in which it ends, turned back likewise.
    pub to: (u64, u64),
}

/// The quarters of an arc, in order, between one and five of them: one for each quadrant on the way.
///
/// The first begins at the arc's start and the last ends at its end. Where a quarter begins or ends on an axis that the arc
/// crosses, its direction has the outer radius as its length.
pub fn quarters(arc: &Arc) -> ArrayVec<Quarter, 5>
    requires { IsSoundArc arc.now }
    ensures quarters { result.items ≡ quarters_of arc.now }
    ensures covers { (point : Point) → IsOnArc arc.now point
        → Any (λ q. IsBound (bounds_between arc.now.inner arc.now.outer q.from q.to)
        (turned_back q.turn (point_seen arc.now point)) point.under) result.items }
    ensures fit { All IsFit result.items }
    ensures some { 0 < length result.items }
{
    let (start, end) = seen_ends(arc);
    let count = quarter_count(start, end);
    let mut quarters = ArrayVec::new();
    for place in 0..count {
        quarters.push(quarter_at(arc.outer, start, end, place));
    }
    quarters
}

/// How many quadrants the way goes through, where so many follow the first at the least.
fn entered(further: u8, ahead: bool) -> u8
    requires { further < 4 }
    ensures value { result ≡ parts.quadrant_count further ahead }
    ensures few { (0 < result) × (result ≤ 5) }
{
    if further > 0 {
        further + 1
    } else if ahead {
        1
    } else {
        5
    }
}

fn quarter_count(start: Seen, end: Seen) -> u8
    ensures value { result ≡ parts.quarter_count start end }
    ensures few { (0 < result) × (result ≤ 5) }
{
    let further = (end_quadrant(end) + 4 - begin_quadrant(start)) % 4;
    entered(further, is_ahead(start, end))
}

/// The direction in which the quarter at this place begins.
fn from_at(outer: u32, start: Seen, place: u8) -> (u64, u64)
    ensures { result ≡ parts.from_at outer start place }
{
    if place == 0 {
        sizes(turned_back(begin_quadrant(start), start))
    } else {
        (outer as u64, 0)
    }
}

/// The direction in which the quarter at this place ends.
fn to_at(outer: u32, start: Seen, end: Seen, place: u8) -> (u64, u64)
    requires { place < 5 }
    ensures { result ≡ parts.to_at outer start end place }
{
    if place + 1 == quarter_count(start, end) {
        sizes(turned_back(end_quadrant(end), end))
    } else {
        (0, outer as u64)
    }
}

fn quarter_at(outer: u32, start: Seen, end: Seen, place: u8) -> Quarter
    requires { place < 5 }
    ensures { result ≡ parts.quarter_at outer start end place }
{
    Quarter {
        turn: (begin_quadrant(start) + place) % 4,
        from: from_at(outer, start, place),
        to: to_at(outer, start, end, place),
    }
}
