//! The equal parts of a straight line, and the box of its ends.
ghost use Rattle.std.specs.Prelude.{◌≡◌, ℤ, pos, ◌*◌, ◌<◌, ◌≤◌, ◌*ℤ◌};
ghost use Rattle.std.specs.Int.{int_max, int_min};
ghost use Rattle.std.specs.Int.RustNames.{unsigned_abs};
ghost use Rattle.number_laws.specs.Floors.{floor_div, ceil_div};
ghost use Rattle.path_geometry.specs.Path.{way_divided};
ghost use Rattle.swept_boxes.specs.Pieces.{low_of_part, high_of_part, part_of_line, range_between, box_of_ends};
ghost use Rattle.micro_units.specs.declared.limits.TheConstants.{BOUND_LIMIT};
ghost use Rattle.arc_quadrants.specs.declared.halves.TheConstants.{PART_LIMIT};

use crate::Ranges;
use arrayvec::ArrayVec;
use axis_sets::AxisId;
use micro_units::Um;
use path_geometry::Ends;

fn scaled(position: i32, by: u8) -> i64
    requires few { by ≤ PART_LIMIT }
    requires near { unsigned_abs position ≤ BOUND_LIMIT }
    ensures value { result ≡ position *ℤ pos by }
    ensures small { unsigned_abs result ≤ 800000000 }
{
    position as i64 * by as i64
}

// The position at this part of the way, times the number of parts.
fn mark(start: i32, end: i32, parts: u8, part: u8) -> i64
    requires few { parts ≤ PART_LIMIT }
    requires within { part ≤ parts }
    requires start_near { unsigned_abs start ≤ BOUND_LIMIT }
    requires end_near { unsigned_abs end ≤ BOUND_LIMIT }
    ensures value { result ≡ way_divided start end parts part }
    ensures near { unsigned_abs result ≤ 1600000000 }
{
    scaled(start, parts - part) + scaled(end, part)
}

fn rounded_down(top: i64, under: u8) -> i64
    requires some { 0 < under }
    requires near { unsigned_abs top ≤ 1600000000 }
    ensures { result ≡ floor_div top under }
{
    top.div_euclid(under as i64)
}

fn rounded_up(top: i64, under: u8) -> i64
    requires some { 0 < under }
    requires near { unsigned_abs top ≤ 1600000000 }
    ensures { result ≡ ceil_div top under }
{
    -(-top).div_euclid(under as i64)
}

fn floor_at(start: i32, end: i32, parts: u8, part: u8) -> i64
    requires some { 0 < parts }
    requires few { parts ≤ PART_LIMIT }
    requires within { part ≤ parts }
    requires start_near { unsigned_abs start ≤ BOUND_LIMIT }
    requires end_near { unsigned_abs end ≤ BOUND_LIMIT }
    ensures value { result ≡ floor_div (way_divided start end parts part) parts }
    ensures near { unsigned_abs result ≤ BOUND_LIMIT }
{
    rounded_down(mark(start, end, parts, part), parts)
}

fn ceil_at(start: i32, end: i32, parts: u8, part: u8) -> i64
    requires some { 0 < parts }
    requires few { parts ≤ PART_LIMIT }
    requires within { part ≤ parts }
    requires start_near { unsigned_abs start ≤ BOUND_LIMIT }
    requires end_near { unsigned_abs end ≤ BOUND_LIMIT }
    ensures value { result ≡ ceil_div (way_divided start end parts part) parts }
    ensures near { unsigned_abs result ≤ BOUND_LIMIT }
{
    rounded_up(mark(start, end, parts, part), parts)
}

// The least position in this part of the way, rounded down.
fn part_low(start: Um, end: Um, parts: u8, part: u8) -> Um
    requires few { parts ≤ PART_LIMIT }
    requires within { part < parts }
    ensures { result ≡ low_of_part start end parts part }
{
    let (start, end) = (start.micrometres, end.micrometres);
    let low = floor_at(start, end, parts, part).min(floor_at(start, end, parts, part + 1));
    Um {
        micrometres: low as i32,
    }
}

// The greatest position in this part of the way, rounded up.
fn part_high(start: Um, end: Um, parts: u8, part: u8) -> Um
    requires few { parts ≤ PART_LIMIT }
    requires within { part < parts }
    ensures { result ≡ high_of_part start end parts part }
{
    let (start, end) = (start.micrometres, end.micrometres);
    let high = ceil_at(start, end, parts, part).max(ceil_at(start, end, parts, part + 1));
    Um {
        micrometres: high as i32,
    }
}

/// The ranges of one of the equal parts of the line between these ends.
pub(crate) fn line_part(ends: &Ends, parts: u8, part: u8) -> Ranges
    requires few { parts ≤ PART_LIMIT }
    requires within { part < parts }
    ensures { result ≡ part_of_line ends.now parts part }
{
    let mut axes = ArrayVec::new();
    for (axis, start, end) in ends.axes.as_slice() {
        axes.push((
            *axis,
            part_low(*start, *end, parts, part),
            part_high(*start, *end, parts, part),
        ));
    }
    Ranges { axes }
}

/// Each axis from the lesser to the greater of its start and its end.
pub(crate) fn box_of_ends(ends: &Ends) -> Ranges
    ensures { result ≡ box_of_ends ends.now }
{
    let mut axes = ArrayVec::new();
    for entry in ends.axes.as_slice() {
        axes.push(range_between(*entry));
    }
    Ranges { axes }
}

/// An axis from the lesser to the greater of its start and its end.
pub(crate) fn range_between(entry: (AxisId, Um, Um)) -> (AxisId, Um, Um)
    ensures { result ≡ range_between entry }
{
    let (axis, start, end) = entry;
    (axis, lesser(start, end), greater(start, end))
}

fn lesser(a: Um, b: Um) -> Um
    ensures { result ≡ int_min a b }
{
    Um {
        micrometres: a.micrometres.min(b.micrometres),
    }
}

fn greater(a: Um, b: Um) -> Um
    ensures { result ≡ int_max a b }
{
    Um {
        micrometres: a.micrometres.max(b.micrometres),
    }
}
