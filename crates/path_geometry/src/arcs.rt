//! Arcs by their centre and by their radius.
ghost use Rattle.std.specs.Prelude.{◌≡◌, ◌<◌, ◌≤◌, ◌==◌, ◌&&◌, ◌+◌, ◌*◌, ◌/◌, ◌^◌, find, pos, neg_ℤ, ◌+ℤ◌, ◌-ℤ◌, ◌≤ℤ◌, unsigned_abs, if◌then◌else◌, IfOk, IfNone, Some, None, Ok, Err};
ghost use Rattle.micro_units.specs.Root.{floor_root, ceil_root};
ghost use Rattle.number_laws.specs.Floors.{floor_div};
ghost use Rattle.path_geometry.specs.Arcs as spec;
ghost use Rattle.path_geometry.specs.Ends.{start_of, end_of};
ghost use Rattle.path_geometry.specs.Vectors.{square};
ghost use Rattle.path_geometry.specs.Motions.{AreSound, HavePlane, IsSound};
ghost use Rattle.micro_units.specs.Position.{is_position, IsPosition};
ghost use Rattle.micro_units.specs.declared.limits.TheConstants.{CHANGE_LIMIT};

use crate::vector::{Vector, square_of};
use crate::{Arc, Ends, Motion};
use arrayvec::ArrayVec;
use axis_sets::AxisId;
use fault_codes::alarms::{ARC_DEGENERATE, OUT_OF_RANGE, RADIUS_DIFFERS, RADIUS_TOO_SMALL};
use micro_units::{POSITION_LIMIT, Um, isqrt_ceil, isqrt_floor};

/// The entry of an axis.
fn entry_of(ends: &Ends, axis: AxisId) -> Option<(AxisId, Um, Um)>
    ensures { result ≡ find (λ e. e.0 == axis) ends.now.axes }
{
    ends.axes.as_slice().iter().copied().find(|e| e.0 == axis)
}

/// Where an axis starts and where it ends.
fn course_of(ends: &Ends, axis: AxisId) -> (Um, Um)
    requires { AreSound ends.now }
    ensures start { result.0 ≡ start_of ends.now axis }
    ensures end { result.1 ≡ end_of ends.now axis }
    ensures start_range { IsPosition result.0 }
    ensures end_range { IsPosition result.1 }
{
    match entry_of(ends, axis) {
        Some(entry) => (entry.1, entry.2),
        None => (Um::default(), Um::default()),
    }
}

/// A position seen from another.
fn seen(position: Um, from: Um) -> Um
    requires position { IsPosition position }
    requires from { IsPosition from }
    ensures value { result ≡ position -ℤ from }
    ensures size { unsigned_abs result ≤ CHANGE_LIMIT }
{
    Um {
        micrometres: position.micrometres - from.micrometres,
    }
}

fn start_about(ends: &Ends, first: AxisId, second: AxisId, centre: &(Um, Um)) -> Vector
    requires ends { AreSound ends.now }
    requires centre { IsPosition centre.now.0 × IsPosition centre.now.1 }
    ensures { result ≡ spec.start_about ends.now first second centre.now }
{
    Vector {
        u: seen(course_of(ends, first).0, centre.0),
        v: seen(course_of(ends, second).0, centre.1),
    }
}

fn end_about(ends: &Ends, first: AxisId, second: AxisId, centre: &(Um, Um)) -> Vector
    requires ends { AreSound ends.now }
    requires centre { IsPosition centre.now.0 × IsPosition centre.now.1 }
    ensures { result ≡ spec.end_about ends.now first second centre.now }
{
    Vector {
        u: seen(course_of(ends, first).1, centre.0),
        v: seen(course_of(ends, second).1, centre.1),
    }
}

/// The way in the plane from the start to the end.
fn way_of(ends: &Ends, first: AxisId, second: AxisId) -> Vector
    requires { AreSound ends.now }
    ensures { result ≡ spec.way_of ends.now first second }
{
    let (u, v) = (course_of(ends, first), course_of(ends, second));
    Vector {
        u: seen(u.1, u.0),
        v: seen(v.1, v.0),
    }
}

fn copy_of(ends: &Ends) -> Ends
    ensures { result ≡ ends.now }
{
    let mut axes = ArrayVec::new();
    for end in ends.axes.as_slice() {
        axes.push(*end);
    }
    Ends { axes }
}

/// An arc about a centre, its radii with this room on either side.
#[tactic(auto, unfolding(crate::specs::Arcs::arc_with))]
fn arc_with(ends: &Ends, first: AxisId, second: AxisId, centre: &(Um, Um), room: u32) -> Arc
    requires ends { AreSound ends.now }
    requires centre { IsPosition centre.now.0 × IsPosition centre.now.1 }
    requires room { room ≤ 2 }
    ensures { result ≡ spec.arc_with ends.now first second centre.now room }
{
    let start = start_about(ends, first, second, centre).square();
    let end = end_about(ends, first, second, centre).square();
    Arc {
        ends: copy_of(ends),
        first,
        second,
        centre: (centre.0, centre.1),
        inner: root_below(start.min(end)).saturating_sub(room),
        outer: root_above(start.max(end)) + room,
        full: way_of(ends, first, second).square() == 0,
    }
}

/// The radius of this square, rounded down.
fn root_below(square: u64) -> u32
    requires { square ≤ 800000000000000 }
    ensures value { result ≡ floor_root square }
    ensures size { result ≤ 28284271 }
{
    isqrt_floor(u128::from(square)) as u32
}

/// The radius of this square, rounded up.
fn root_above(square: u64) -> u32
    requires { square ≤ 800000000000000 }
    ensures value { result ≡ ceil_root square }
    ensures size { result ≤ 28284272 }
{
    isqrt_ceil(u128::from(square)) as u32
}

/// Whether the two radii with these squares differ by more than 10.
fn differ(greater: u64, lesser: u64) -> bool
    requires order { lesser ≤ greater }
    requires size { greater ≤ 800000000000000 }
    ensures { result ≡ spec.differ greater lesser }
{
    let apart = greater - lesser;
    apart > 100 && square_of_size(apart - 100) > u128::from(400 * lesser)
}

fn square_of_size(size: u64) -> u128
    requires { size ≤ 800000000000000 }
    ensures { result ≡ size * size }
{
    u128::from(size) * u128::from(size)
}

/// The alarm of an arc by its centre, which is a whole turn or not.
#[tactic(auto, unfolding(crate::specs::Arcs::centre_alarm))]
fn centre_alarm(full: bool, start: Vector, end: Vector) -> Option<u16>
    ensures { result ≡ spec.centre_alarm full start end }
{
    let (s, e) = (start.square(), end.square());
    if s == 0 || e == 0 {
        Some(RADIUS_TOO_SMALL)
    } else if differ(s.max(e), s.min(e)) {
        Some(RADIUS_DIFFERS)
    } else if !full && start.is_one_way(end) {
        Some(ARC_DEGENERATE)
    } else {
        None
    }
}

/// The arc of these ends about a centre, on which the first axis turns towards the second; a whole turn
/// where the two start where they end.
///
/// Its inner radius is the lesser distance from the centre to the start and to the end, rounded down, its
/// outer the greater, rounded up. All lengths are in micrometres. The first of these alarms counts:
/// 22 where the start or the end is the centre, 20 where the two distances differ by more than 10,
/// 21 where the start and the end differ and lie in one direction from the centre.
#[tactic(auto, unfolding(crate::specs::Arcs::arc_about))]
pub fn arc_by_centre(
    ends: &Ends,
    first: AxisId,
    second: AxisId,
    centre: (Um, Um),
) -> Result<Motion, u16>
    requires ends { AreSound ends.now }
    requires plane { HavePlane ends.now first second }
    requires centre { IsPosition centre.0 × IsPosition centre.1 }
    ensures value { result ≡ spec.arc_about ends.now first second centre }
    ensures sound { IfOk result IsSound }
{
    let start = start_about(ends, first, second, &centre);
    let end = end_about(ends, first, second, &centre);
    let full = way_of(ends, first, second).square() == 0;
    match centre_alarm(full, start, end) {
        Some(alarm) => Err(alarm),
        None => Ok(Motion::Arc(arc_with(ends, first, second, &centre, 0))),
    }
}

/// The alarm of an arc of this radius along a way.
#[tactic(auto, unfolding(crate::specs::Arcs::radius_alarm))]
fn radius_alarm(way: Vector, radius: u32) -> Option<u16>
    requires { radius ≤ POSITION_LIMIT }
    ensures value { result ≡ spec.radius_alarm way radius }
    ensures way { IfNone result (0 < square way) }
{
    let square = way.square();
    if square == 0 {
        Some(ARC_DEGENERATE)
    } else if radius == 0 || reach_of(radius) < square {
        Some(RADIUS_TOO_SMALL)
    } else {
        None
    }
}

/// The square of the greatest distance from start to end.
fn reach_of(radius: u32) -> u64
    requires { radius ≤ POSITION_LIMIT }
    ensures { result ≡ (2 * radius + 10) * (2 * radius + 10) }
{
    let reach = u64::from(2 * radius + 10);
    reach * reach
}

/// How far the centre lies beside the middle of the way, twice and squared.
fn height_of(way: Vector, radius: u32) -> u64
    requires { radius ≤ POSITION_LIMIT }
    ensures value { result ≡ spec.height way radius }
    ensures size { result ≤ 400000000000000 }
{
    let radius = u64::from(radius);
    (4 * (radius * radius)).saturating_sub(way.square())
}

/// The root of a height, in the part that it has along the other axis.
fn root_of(part: Um, height: u64, square: u64) -> u64
    requires part { unsigned_abs part ≤ CHANGE_LIMIT }
    requires height { height ≤ 400000000000000 }
    requires divides { 0 < square }
    ensures value { result ≡ floor_root (((unsigned_abs part * unsigned_abs part) * height) / square) }
    ensures size { result < 2 ^ 60 }
{
    isqrt_floor(u128::from(square_of(part)) * u128::from(height) / u128::from(square))
}

fn with_sign(part: Um, size: u64) -> i64
    requires { size < 2 ^ 60 }
    ensures value { result ≡ spec.with_sign part size }
    ensures size { unsigned_abs result < 2 ^ 60 }
{
    if part.micrometres < 0 {
        -(size as i64)
    } else {
        size as i64
    }
}

/// What the height gives along an axis, by the part of the way along the other axis.
#[tactic(auto, unfolding(crate::specs::Arcs::offset))]
fn offset(way: Vector, radius: u32, part: Um) -> i64
    requires radius { radius ≤ POSITION_LIMIT }
    requires part { unsigned_abs part ≤ CHANGE_LIMIT }
    requires divides { 0 < square way }
    ensures value { result ≡ spec.offset way radius part }
    ensures size { unsigned_abs result < 2 ^ 60 }
{
    with_sign(part, root_of(part, height_of(way, radius), way.square()))
}

fn on_side(long: bool, offset: i64) -> i64
    requires { unsigned_abs offset < 2 ^ 60 }
    ensures value { result ≡ spec.on_side long offset }
    ensures size { unsigned_abs result < 2 ^ 60 }
{
    if long { -offset } else { offset }
}

fn opposite(offset: i64) -> i64
    requires { unsigned_abs offset < 2 ^ 60 }
    ensures value { result ≡ neg_ℤ offset }
    ensures size { unsigned_abs result < 2 ^ 60 }
{
    -offset
}

/// The middle between the two, twice.
fn middle(start: Um, end: Um) -> i32
    requires start { unsigned_abs start ≤ CHANGE_LIMIT }
    requires end { unsigned_abs end ≤ CHANGE_LIMIT }
    ensures value { result ≡ start +ℤ end }
    ensures size { unsigned_abs result ≤ 40000000 }
{
    start.micrometres + end.micrometres
}

fn beside(middle: i32, offset: i64) -> i64
    requires middle { unsigned_abs middle ≤ 40000000 }
    requires offset { unsigned_abs offset < 2 ^ 60 }
    ensures value { result ≡ middle +ℤ offset }
    ensures size { unsigned_abs result < 2 ^ 61 }
{
    i64::from(middle) + offset
}

/// Half of the sum, rounded down.
fn half(sum: i64) -> i64
    requires { unsigned_abs sum < 2 ^ 61 }
    ensures { result ≡ floor_div sum 2 }
{
    sum.div_euclid(2)
}

/// The centre of an arc of this radius, the longer one or not.
#[tactic(auto, unfolding(crate::specs::Arcs::centre_of))]
fn centre_of(ends: &Ends, first: AxisId, second: AxisId, radius: u32, long: bool) -> (i64, i64)
    requires ends { AreSound ends.now }
    requires way { 0 < square (spec.way_of ends.now first second) }
    requires radius { radius ≤ POSITION_LIMIT }
    ensures { result ≡ spec.centre_of ends.now first second radius long }
{
    let way = way_of(ends, first, second);
    let (u, v) = (course_of(ends, first), course_of(ends, second));
    let aside = on_side(long, offset(way, radius, way.v));
    let ahead = on_side(long, offset(way, radius, way.u));
    (
        half(beside(middle(u.0, u.1), opposite(aside))),
        half(beside(middle(v.0, v.1), ahead)),
    )
}

/// The centre where it is in range.
fn placed(centre: (i64, i64)) -> Option<(Um, Um)>
    ensures { result ≡ (if is_position centre.0 && is_position centre.1 then Some centre else None) }
{
    match (position_at(centre.0), position_at(centre.1)) {
        (Some(u), Some(v)) => Some((u, v)),
        _ => None,
    }
}

fn position_at(position: i64) -> Option<Um>
    ensures { result ≡ (if is_position position then Some position else None) }
{
    if position.unsigned_abs() <= u64::from(POSITION_LIMIT) {
        Some(Um {
            micrometres: position as i32,
        })
    } else {
        None
    }
}

/// The arc by its radius about a centre in range.
fn arc_at(ends: &Ends, first: AxisId, second: AxisId, centre: &(Um, Um)) -> Result<Motion, u16>
    requires ends { AreSound ends.now }
    requires centre { IsPosition centre.now.0 × IsPosition centre.now.1 }
    ensures { let s = spec.start_about ends.now first second centre.now in let e = spec.end_about ends.now first second
        centre.now in result ≡ (if spec.has_no_radius s e then Err RADIUS_TOO_SMALL
        else Ok (Motion.Arc (spec.arc_with ends.now first second centre.now 2))) }
{
    let start = start_about(ends, first, second, centre).square();
    let end = end_about(ends, first, second, centre).square();
    if start == 0 || end == 0 {
        Err(RADIUS_TOO_SMALL)
    } else {
        Ok(Motion::Arc(arc_with(ends, first, second, centre, 2)))
    }
}

/// The arc of a radius that its way allows.
fn arc_along(
    ends: &Ends,
    first: AxisId,
    second: AxisId,
    radius: u32,
    long: bool,
) -> Result<Motion, u16>
    requires ends { AreSound ends.now }
    requires way { 0 < square (spec.way_of ends.now first second) }
    requires radius { radius ≤ POSITION_LIMIT }
    ensures { result ≡ spec.arc_placed ends.now first second (spec.centre_of ends.now first second radius long) }
{
    match placed(centre_of(ends, first, second, radius, long)) {
        Some(centre) => arc_at(ends, first, second, &centre),
        None => Err(OUT_OF_RANGE),
    }
}

/// An arc of these ends by its radius, on which the first axis turns towards the second; of the two such arcs
/// the longer one, or the shorter.
///
/// All lengths are in micrometres. The centre lies beside the middle of the way from start to end, rounded to
/// whole micrometres, and on the middle where the radius is too short by at most 5.
/// The inner radius is the lesser distance from it to the start and to the end, rounded down, less 2 and not
/// below 0; the outer is the greater, rounded up, and 2 more. The first of these alarms counts: 21 where the arc
/// starts where it ends, 22 where the radius is 0 or the distance from start to end is above twice the radius
/// and 10, 13 where the centre is out of range, 22 where the start or the end is the centre.
#[tactic(auto, unfolding(crate::specs::Arcs::arc_of_radius))]
pub fn arc_by_radius(
    ends: &Ends,
    first: AxisId,
    second: AxisId,
    radius: Um,
    long: bool,
) -> Result<Motion, u16>
    requires ends { AreSound ends.now }
    requires plane { HavePlane ends.now first second }
    requires radius { IsPosition radius × (pos 0 ≤ℤ radius) }
    ensures value { result ≡ spec.arc_of_radius ends.now first second (unsigned_abs radius) long }
    ensures sound { IfOk result IsSound }
{
    let radius = radius.micrometres.unsigned_abs();
    match radius_alarm(way_of(ends, first, second), radius) {
        Some(alarm) => Err(alarm),
        None => arc_along(ends, first, second, radius, long),
    }
}
