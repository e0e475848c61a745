//! Vectors of an arc's plane, seen from its centre.
ghost use Rattle.std.specs.Prelude.{◌≡◌, ◌<◌, ◌≤◌, ℤ, pos, ◌-ℤ◌, ◌*ℤ◌, ◌<ℤ◌, ◌↔◌, IsTrue};
ghost use Rattle.std.specs.Int.RustNames.{unsigned_abs};
ghost use Rattle.path_geometry.specs.Arcs.{start_seen, end_seen};
ghost use Rattle.path_geometry.specs.Ends.{start_of, end_of};
ghost use Rattle.path_geometry.specs.Motions.{IsSoundArc};
ghost use Rattle.path_geometry.specs.Vectors as vectors;
ghost use Rattle.arc_quadrants.specs.Quadrants as quadrants;
ghost use Rattle.arc_quadrants.specs.Quarters as parts;
ghost use Rattle.micro_units.specs.declared.limits.TheConstants.{CHANGE_LIMIT};

use axis_sets::AxisId;
use micro_units::Um;
use path_geometry::{Arc, Ends};
use std::marker::Model;

/// A vector of the plane, its parts in micrometres and at most 20,000,000 in size.
#[derive(Clone, Copy)]
pub(crate) struct Seen {
    u: i32,
    v: i32,
}

impl Model for Seen {
    ghost use Rattle.std.specs.Prelude.{◌≤◌};
    ghost use Rattle.std.specs.Int.RustNames.{unsigned_abs};
    ghost use Rattle.path_geometry.specs.Vectors.{Vector};
    ghost use Rattle.micro_units.specs.declared.limits.TheConstants.{CHANGE_LIMIT};

    ghost Value = { Vector };

    ghost view = { λ p. record { u = p.u; v = p.v } };

    ghost invariant = { λ p. (unsigned_abs p.u ≤ CHANGE_LIMIT) × (unsigned_abs p.v ≤ CHANGE_LIMIT) };

    ghost inverse = { λ p. record { u = p.u; v = p.v } };
}

/// Where an axis starts and where it ends.
fn ends_of(ends: &Ends, axis: AxisId) -> (Um, Um)
    ensures start { result.0 ≡ start_of ends.now axis }
    ensures end { result.1 ≡ end_of ends.now axis }
{
    for (of, start, end) in ends.axes.as_slice() {
        if of.index == axis.index {
            return (*start, *end);
        }
    }
    (Um::default(), Um::default())
}

fn away(position: Um, centre: Um) -> i32
    requires { unsigned_abs (position -ℤ centre) ≤ CHANGE_LIMIT }
    ensures value { result ≡ position -ℤ centre }
    ensures near { unsigned_abs result ≤ CHANGE_LIMIT }
{
    position.micrometres - centre.micrometres
}

/// The start and the end of an arc.
pub(crate) fn seen_ends(arc: &Arc) -> (Seen, Seen)
    requires { IsSoundArc arc.now }
    ensures start { result.0 ≡ start_seen arc.now }
    ensures end { result.1 ≡ end_seen arc.now }
{
    let (start_u, end_u) = ends_of(&arc.ends, arc.first);
    let (start_v, end_v) = ends_of(&arc.ends, arc.second);
    let start = Seen {
        u: away(start_u, arc.centre.0),
        v: away(start_v, arc.centre.1),
    };
    let end = Seen {
        u: away(end_u, arc.centre.0),
        v: away(end_v, arc.centre.1),
    };
    (start, end)
}

/// The quadrant in which an arc with this start begins.
pub(crate) fn begin_quadrant(start: Seen) -> u8
    ensures { result ≡ quadrants.begin_quadrant start }
{
    let Seen { u, v } = start;
    if u > 0 && v >= 0 {
        0
    } else if u <= 0 && v > 0 {
        1
    } else if u < 0 && v <= 0 {
        2
    } else {
        3
    }
}

/// The quadrant in which an arc with this end ends.
pub(crate) fn end_quadrant(end: Seen) -> u8
    ensures { result ≡ quadrants.end_quadrant end }
{
    let Seen { u, v } = end;
    if u >= 0 && v > 0 {
        0
    } else if u < 0 && v >= 0 {
        1
    } else if u <= 0 && v < 0 {
        2
    } else {
        3
    }
}

/// A vector turned back by so many quarters, at most three.
pub(crate) fn turned_back(turn: u8, p: Seen) -> Seen
    requires { turn < 4 }
    ensures { result ≡ quadrants.turned_back turn p }
{
    match turn {
        0 => p,
        1 => Seen { u: p.v, v: -p.u },
        2 => Seen { u: -p.u, v: -p.v },
        _ => Seen { u: -p.v, v: p.u },
    }
}

/// The sizes of the parts of a vector.
pub(crate) fn sizes(p: Seen) -> (u64, u64)
    ensures { result ≡ parts.sizes p }
{
    (p.u.unsigned_abs() as u64, p.v.unsigned_abs() as u64)
}

fn product(a: i32, b: i32) -> i64
    requires first { unsigned_abs a ≤ CHANGE_LIMIT }
    requires second { unsigned_abs b ≤ CHANGE_LIMIT }
    ensures value { result ≡ a *ℤ b }
    ensures near { unsigned_abs result ≤ 400000000000000 }
{
    a as i64 * b as i64
}

fn difference(a: i64, b: i64) -> i64
    requires first { unsigned_abs a ≤ 400000000000000 }
    requires second { unsigned_abs b ≤ 400000000000000 }
    ensures { result ≡ a -ℤ b }
{
    a - b
}

fn cross(a: Seen, b: Seen) -> i64
    ensures { result ≡ vectors.cross a b }
{
    difference(product(a.u, b.v), product(a.v, b.u))
}

/// Whether the end lies ahead of the start by less than half a turn.
pub(crate) fn is_ahead(start: Seen, end: Seen) -> bool
    ensures { IsTrue result ↔ (pos 0 <ℤ vectors.cross start end) }
{
    cross(start, end) > 0
}
