//! The pieces of a motion, and its cover.
ghost use Rattle.std.specs.Prelude.{◌≡◌, ◌<◌, ◌≤◌, ◌^◌, length, slice_get};
ghost use Rattle.std.specs.List.{All, Any, flat_map};
ghost use Rattle.arc_quadrants.specs.Quarters.{IsFit};
ghost use Rattle.path_geometry.specs.Motions.{IsSound, IsSoundArc};
ghost use Rattle.path_geometry.specs.Path.{Point, IsOnPath};
ghost use Rattle.swept_boxes.specs.Cover.{cover_of, AreSmallest};
ghost use Rattle.swept_boxes.specs.Pieces.{pieces_at, pieces_of_line, pieces_of_rapid, pieces_of_quarter, quarters_in};
ghost use Rattle.swept_boxes.specs.Ranges.{Hold, LieIn};
ghost use Rattle.swept_boxes.specs.declared.limits.TheConstants.{PIECE_LIMIT};

use crate::Ranges;
use crate::arcs::{arc_cover, box_of_part, ranges_over};
use crate::lines::{box_of_ends, line_part};
use arc_quadrants::{Quarter, part_of_quarter, parts_at, quarters};
use arrayvec::ArrayVec;
use path_geometry::{Arc, Ends, Motion};
use std::marker::Model;

/// The pieces of a motion that are left, in order. A contract sees the list of them.
#[derive(Clone, Drop)]
pub struct Pieces<'a> {
    motion: &'a Motion,
    quarters: ArrayVec<Quarter, 5>,
    depth: u8,
    next: u8,
}

impl<'a> Model for Pieces<'a> {
    ghost use Rattle.std.specs.Prelude.{◌≡◌, List, drop, ◌≤◌};
    ghost use Rattle.path_geometry.specs.Motions.{IsSound};
    ghost use Rattle.swept_boxes.specs.Ranges.{RangesView};
    ghost use Rattle.swept_boxes.specs.Pieces.{pieces_at, quarters_in};

    ghost Value = { List RangesView };

    ghost view = { λ p. drop p.next (pieces_at p.motion.now p.depth) };

    ghost invariant = { λ p. IsSound p.motion.now × (p.quarters.items ≡ quarters_in p.motion.now) × (p.depth ≤ 4) };
}

impl<'a> Iterator for Pieces<'a> {
    ghost use Rattle.std.specs.Iterator.{YieldsFirst, item_count};

    type Item = Ranges;

    ghost next_gives = { YieldsFirst (λ left. left) };

    ghost remaining = { item_count (λ left. left) };

    fn next(&mut self) -> Option<Ranges> {
        let place = self.next;
        match piece_at(self.motion, self.quarters.as_slice(), self.depth, place) {
            Some(piece) => {
                self.next = place + 1;
                Some(piece)
            }
            None => None,
        }
    }
}

/// The piece of a line at a place.
#[tactic(auto, using(crate::proofs::PieceLaws::line_places))]
fn line_piece(ends: &Ends, depth: u8, place: u8) -> Option<Ranges>
    requires { depth ≤ 4 }
    ensures { result ≡ slice_get (pieces_of_line ends.now depth) place }
{
    let parts = parts_at(depth);
    if place < parts {
        Some(line_part(ends, parts, place))
    } else {
        None
    }
}

/// The piece of a rapid at a place.
fn rapid_piece(ends: &Ends, place: u8) -> Option<Ranges>
    ensures { result ≡ slice_get (pieces_of_rapid ends.now) place }
{
    if place == 0 {
        Some(box_of_ends(ends))
    } else {
        None
    }
}

/// The piece of one quarter of an arc at a place.
fn quarter_piece(arc: &Arc, quarter: &Quarter, depth: u8, place: u8) -> Ranges
    requires sound { IsSoundArc arc.now }
    requires fit { IsFit quarter.now }
    requires deep { depth ≤ 4 }
    requires within { place < 2 ^ depth }
    ensures { slice_get (pieces_of_quarter arc.now depth quarter.now) place ≡ Some result }
{
    let (from, to) = part_of_quarter(quarter.from, quarter.to, depth, place);
    ranges_over(arc, box_of_part(arc, quarter.turn, from, to))
}

/// The quarter at a place.
fn quarter_at(quarters: &[Quarter], place: usize) -> Option<Quarter>
    ensures { result ≡ slice_get quarters.now place }
{
    match quarters.get(place) {
        Some(quarter) => Some(*quarter),
        None => None,
    }
}

/// The piece of an arc at a place.
fn arc_piece(arc: &Arc, quarters: &[Quarter], depth: u8, place: u8) -> Option<Ranges>
    requires sound { IsSoundArc arc.now }
    requires fit { All IsFit quarters.now }
    requires deep { depth ≤ 4 }
    ensures { result ≡ slice_get (flat_map (pieces_of_quarter arc.now depth) quarters.now) place }
{
    let parts = parts_at(depth);
    match quarter_at(quarters, (place / parts) as usize) {
        Some(quarter) => Some(quarter_piece(arc, &quarter, depth, place % parts)),
        None => None,
    }
}

/// The piece of a motion at a place, counted from 0, where there is one.
fn piece_at(motion: &Motion, quarters: &[Quarter], depth: u8, place: u8) -> Option<Ranges>
    requires sound { IsSound motion.now }
    requires quarters { quarters.now ≡ quarters_in motion.now }
    requires deep { depth ≤ 4 }
    ensures { result ≡ slice_get (pieces_at motion.now depth) place }
{
    match motion {
        Motion::Line(ends) => line_piece(ends, depth, place),
        Motion::Rapid(ends) => rapid_piece(ends, place),
        Motion::Arc(arc) => arc_piece(arc, quarters, depth, place),
    }
}

/// The quarters of a motion along an arc, and none for another.
fn quarters_in(motion: &Motion) -> ArrayVec<Quarter, 5>
    requires { IsSound motion.now }
    ensures { result.items ≡ quarters_in motion.now }
{
    match motion {
        Motion::Arc(arc) => quarters(arc),
        _ => ArrayVec::new(),
    }
}

/// The pieces of a motion at a depth, in order, each as a range in micrometres for every axis of the motion.
///
/// A straight line is cut into equal parts, one at depth 0 and twice as many at each further depth, up to 16 at depth 4; the
/// bounds of a part are rounded outwards to whole micrometres. An uninterpolated rapid is one piece at every depth. An arc is cut
/// into quarters at the axis crossings, at most five of them, and each quarter into as many parts as a line.
pub fn pieces_of(motion: &Motion, depth: u8) -> Pieces<'_>
    requires sound { IsSound motion.now }
    requires deep { depth ≤ 4 }
    ensures pieces { result ≡ pieces_at motion.now depth }
    ensures covers { (point : Point) → IsOnPath motion.now point → Any (λ piece. Hold piece point) result }
    ensures in_cover { All (λ piece. LieIn piece (cover_of motion.now)) result }
    ensures few { length result ≤ PIECE_LIMIT }
{
    Pieces {
        motion,
        quarters: quarters_in(motion),
        depth,
        next: 0,
    }
}

/// The cover of a motion.
fn cover_ranges(motion: &Motion) -> Ranges
    requires { IsSound motion.now }
    ensures { result ≡ cover_of motion.now }
{
    match motion {
        Motion::Line(ends) => box_of_ends(ends),
        Motion::Rapid(ends) => box_of_ends(ends),
        Motion::Arc(arc) => arc_cover(arc),
    }
}

/// The smallest ranges in micrometres that hold all pieces of the motion at depth 0. They hold its pieces at every depth.
pub fn cover(motion: &Motion) -> Ranges
    requires { IsSound motion.now }
    ensures cover { result ≡ cover_of motion.now }
    ensures smallest { AreSmallest result (pieces_at motion.now 0) }
{
    cover_ranges(motion)
}
