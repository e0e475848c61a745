//! The boxes of the parts of an arc.
ghost use Rattle.std.specs.Prelude.{◌≡◌, ◌<◌, ◌≤◌, ◌==◌, ℤ, ◌+ℤ◌, map};
ghost use Rattle.std.specs.Int.{int_max, int_min};
ghost use Rattle.std.specs.Int.RustNames.{unsigned_abs};
ghost use Rattle.std.specs.List.{All};
ghost use Rattle.arc_quadrants.specs.Bounds.{IsDirection, bounds_between};
ghost use Rattle.arc_quadrants.specs.Quarters.{IsFit};
ghost use Rattle.path_geometry.specs.Motions.{IsSoundArc};
ghost use Rattle.swept_boxes.specs.Cover as covers;
ghost use Rattle.swept_boxes.specs.PlaneBoxes as boxes;
ghost use Rattle.swept_boxes.specs.Pieces as spec;
ghost use Rattle.micro_units.specs.Position.{IsPosition};

use crate::Ranges;
use crate::lines::range_between;
use arc_quadrants::{Quarter, quarter_box, quarters};
use arrayvec::ArrayVec;
use axis_sets::AxisId;
use micro_units::Um;
use path_geometry::Arc;
use std::marker::Model;

/// A box in the plane of an arc, seen from its centre, in micrometres.
#[derive(Clone, Copy)]
pub(crate) struct PlaneBox {
    u_low: i32,
    u_high: i32,
    v_low: i32,
    v_high: i32,
}

impl Model for PlaneBox {
    ghost use Rattle.std.specs.Prelude.{◌≤◌};
    ghost use Rattle.std.specs.Int.RustNames.{unsigned_abs};
    ghost use Rattle.swept_boxes.specs.PlaneBoxes.{BoxInPlane};

    ghost Value = { BoxInPlane };

    ghost view = { λ b. record { u_low = b.u_low; u_high = b.u_high; v_low = b.v_low; v_high = b.v_high } };

    ghost invariant = { λ b. (unsigned_abs b.u_low ≤ 33554432) × (unsigned_abs b.u_high ≤ 33554432)
        × (unsigned_abs b.v_low ≤ 33554432) × (unsigned_abs b.v_high ≤ 33554432) };

    ghost inverse = { λ b. record { u_low = b.u_low; u_high = b.u_high; v_low = b.v_low; v_high = b.v_high } };
}

/// Bounds in quadrant 0, turned ahead by so many quarters, at most three.
fn turned_ahead(turn: u8, u_low: u32, u_high: u32, v_low: u32, v_high: u32) -> PlaneBox
    requires turn { turn < 4 }
    requires u_low { u_low ≤ 33554432 }
    requires u_high { u_high ≤ 33554432 }
    requires v_low { v_low ≤ 33554432 }
    requires v_high { v_high ≤ 33554432 }
    ensures { result ≡ boxes.turned_ahead turn
        (record { u_low = u_low; u_high = u_high; v_low = v_low; v_high = v_high }) }
{
    let (u_low, u_high) = (u_low as i32, u_high as i32);
    let (v_low, v_high) = (v_low as i32, v_high as i32);
    match turn {
        0 => PlaneBox {
            u_low,
            u_high,
            v_low,
            v_high,
        },
        1 => PlaneBox {
            u_low: -v_high,
            u_high: -v_low,
            v_low: u_low,
            v_high: u_high,
        },
        2 => PlaneBox {
            u_low: -u_high,
            u_high: -u_low,
            v_low: -v_high,
            v_high: -v_low,
        },
        _ => PlaneBox {
            u_low: v_low,
            u_high: v_high,
            v_low: -u_high,
            v_high: -u_low,
        },
    }
}

/// The box of the part of a quarter between two directions.
pub(crate) fn box_of_part(arc: &Arc, turn: u8, from: (u64, u64), to: (u64, u64)) -> PlaneBox
    requires radii { arc.now.inner ≤ arc.now.outer }
    requires outer { arc.now.outer < 33554432 }
    requires turn { turn < 4 }
    requires from { IsDirection from }
    requires to { IsDirection to }
    ensures { result ≡ boxes.turned_ahead turn (bounds_between arc.now.inner arc.now.outer from to) }
{
    let [u_low, u_high, v_low, v_high] = quarter_box(arc.inner, arc.outer, from, to);
    turned_ahead(turn, u_low, u_high, v_low, v_high)
}

fn moved(centre: Um, by: i32) -> Um
    requires centre { IsPosition centre }
    requires near { unsigned_abs by ≤ 33554432 }
    ensures { result ≡ centre +ℤ by }
{
    Um {
        micrometres: centre.micrometres + by,
    }
}

fn is_same(a: AxisId, b: AxisId) -> bool
    ensures { result ≡ (a == b) }
{
    a.index == b.index
}

/// The range of an axis of an arc over a box of its plane.
fn range_over(arc: &Arc, area: PlaneBox, entry: (AxisId, Um, Um)) -> (AxisId, Um, Um)
    requires first { IsPosition arc.now.centre.0 }
    requires second { IsPosition arc.now.centre.1 }
    ensures { result ≡ spec.range_over arc.now area entry }
{
    let axis = entry.0;
    if is_same(axis, arc.first) {
        (
            axis,
            moved(arc.centre.0, area.u_low),
            moved(arc.centre.0, area.u_high),
        )
    } else if is_same(axis, arc.second) {
        (
            axis,
            moved(arc.centre.1, area.v_low),
            moved(arc.centre.1, area.v_high),
        )
    } else {
        range_between(entry)
    }
}

/// The ranges of all axes of an arc over a box of its plane.
pub(crate) fn ranges_over(arc: &Arc, area: PlaneBox) -> Ranges
    requires first { IsPosition arc.now.centre.0 }
    requires second { IsPosition arc.now.centre.1 }
    ensures { result ≡ spec.ranges_over arc.now area }
{
    let mut axes = ArrayVec::new();
    for entry in arc.ends.axes.as_slice() {
        axes.push(range_over(arc, area, *entry));
    }
    Ranges { axes }
}

fn lesser(a: i32, b: i32) -> i32
    requires first { unsigned_abs a ≤ 33554432 }
    requires second { unsigned_abs b ≤ 33554432 }
    ensures value { result ≡ int_min a b }
    ensures near { unsigned_abs result ≤ 33554432 }
{
    a.min(b)
}

fn greater(a: i32, b: i32) -> i32
    requires first { unsigned_abs a ≤ 33554432 }
    requires second { unsigned_abs b ≤ 33554432 }
    ensures value { result ≡ int_max a b }
    ensures near { unsigned_abs result ≤ 33554432 }
{
    a.max(b)
}

/// The smallest box that holds two.
fn joined(a: PlaneBox, b: PlaneBox) -> PlaneBox
    ensures { result ≡ boxes.smallest_box a b }
{
    PlaneBox {
        u_low: lesser(a.u_low, b.u_low),
        u_high: greater(a.u_high, b.u_high),
        v_low: lesser(a.v_low, b.v_low),
        v_high: greater(a.v_high, b.v_high),
    }
}

/// The box of a whole quarter.
fn box_of_quarter(arc: &Arc, quarter: &Quarter) -> PlaneBox
    requires sound { IsSoundArc arc.now }
    requires fit { IsFit quarter.now }
    ensures { result ≡ covers.box_of_quarter arc.now quarter.now }
{
    box_of_part(arc, quarter.turn, quarter.from, quarter.to)
}

/// The smallest box that holds all quarters.
fn box_of_quarters(arc: &Arc, quarters: &[Quarter]) -> PlaneBox
    requires sound { IsSoundArc arc.now }
    requires fit { All IsFit quarters.now }
    ensures { result ≡ boxes.joined_all (map (covers.box_of_quarter arc.now) quarters.now) }
{
    match quarters.split_first() {
        Some((first, rest)) => {
            let mut area = box_of_quarter(arc, first);
            for quarter in rest {
                area = joined(area, box_of_quarter(arc, quarter));
            }
            area
        }
        None => PlaneBox {
            u_low: 0,
            u_high: 0,
            v_low: 0,
            v_high: 0,
        },
    }
}

/// The smallest ranges that hold an arc's pieces at depth 0.
pub(crate) fn arc_cover(arc: &Arc) -> Ranges
    requires { IsSoundArc arc.now }
    ensures { result ≡ covers.cover_of_arc arc.now }
{
    ranges_over(arc, box_of_quarters(arc, quarters(arc).as_slice()))
}
