//! The boxes of zones, from where their axes are.
ghost use Rattle.std.specs.Prelude.{◌≡◌, ◌==◌, ◌≤◌, ◌+ℤ◌, ◌-ℤ◌, if◌then◌else◌, find};
ghost use Rattle.std.specs.Int.RustNames.{unsigned_abs};
ghost use Rattle.zone_stretches.specs.Rows.{positions_in};
ghost use Rattle.zone_stretches.specs.ZoneBoxes as model;

use axis_sets::{AXIS_LIMIT, AxisId};
use job_types::{Side, ZoneLine};
use micro_units::Um;
use swept_boxes::{Box3, Ranges};

/// Where an axis stands.
fn standing(at: &[Um; AXIS_LIMIT], axis: AxisId) -> Um
    ensures { result ≡ positions_in at.now axis }
{
    at[usize::from(axis.index)]
}

/// The range that is named for an axis.
pub(crate) fn range_of(ranges: &[(AxisId, Um, Um)], axis: AxisId) -> Option<(AxisId, Um, Um)>
    ensures { result ≡ find (λ range. range.0 == axis) ranges.now }
{
    ranges.iter().copied().find(|range| range.0 == axis)
}

/// The lowest and the highest position of an axis within ranges; an axis that they do not name stands.
#[tactic(auto, unfolding(crate::specs::ZoneBoxes::low_in, crate::specs::ZoneBoxes::high_in))]
fn span_of(ranges: &Ranges, at: &[Um; AXIS_LIMIT], axis: AxisId) -> (Um, Um)
    ensures low { result.0 ≡ model.low_in ranges.now (positions_in at.now) axis }
    ensures high { result.1 ≡ model.high_in ranges.now (positions_in at.now) axis }
{
    match range_of(&ranges.axes, axis) {
        Some(range) => (range.1, range.2),
        None => {
            let position = standing(at, axis);
            (position, position)
        }
    }
}

/// A bound that an axis carries: the two added, or where the zone goes against the axis their difference.
fn carried(bound: i32, position: Um, minus: bool) -> i32
    requires { unsigned_abs bound ≤ 100000000 }
    ensures { result ≡ model.carried_bound bound position minus }
{
    if minus {
        bound - position.micrometres
    } else {
        bound + position.micrometres
    }
}

/// The bounds of a direction, grown by the margin.
fn grown(margin: Um, side: &Side) -> (i32, i32)
    ensures low { result.0 ≡ side.now.lo -ℤ margin }
    ensures high { result.1 ≡ side.now.hi +ℤ margin }
    ensures small_low { unsigned_abs result.0 ≤ 100000000 }
    ensures small_high { unsigned_abs result.1 ≤ 100000000 }
{
    (
        side.lo.micrometres - margin.micrometres,
        side.hi.micrometres + margin.micrometres,
    )
}

/// The bounds of a direction whose carrier is between two positions, grown by the margin.
pub(crate) fn bounds_between(margin: Um, side: &Side, minus: bool, low: Um, high: Um) -> (i32, i32)
    ensures low { result.0 ≡ model.carried_bound (side.now.lo -ℤ margin) (if minus then high else low) minus }
    ensures high { result.1 ≡ model.carried_bound (side.now.hi +ℤ margin) (if minus then low else high) minus }
{
    let (lo, hi) = grown(margin, side);
    if minus {
        (carried(lo, high, true), carried(hi, low, true))
    } else {
        (carried(lo, low, false), carried(hi, high, false))
    }
}

/// The bounds of a direction of a zone whose axes are within ranges, grown by the margin.
#[tactic(auto, unfolding(crate::specs::ZoneBoxes::side_low, crate::specs::ZoneBoxes::side_high))]
fn bounds_of(margin: Um, side: &Side, ranges: &Ranges, at: &[Um; AXIS_LIMIT]) -> (i32, i32)
    ensures low { result.0 ≡ model.side_low margin (model.low_in ranges.now (positions_in at.now))
        (model.high_in ranges.now (positions_in at.now)) side.now }
    ensures high { result.1 ≡ model.side_high margin (model.low_in ranges.now (positions_in at.now))
        (model.high_in ranges.now (positions_in at.now)) side.now }
{
    match side.carrier {
        None => grown(margin, side),
        Some((axis, minus)) => {
            let (low, high) = span_of(ranges, at, axis);
            bounds_between(margin, side, minus, low, high)
        }
    }
}

/// The box whose directions have these bounds.
fn box_of(margin: Um, sides: &[Side; 3], ranges: &Ranges, at: &[Um; AXIS_LIMIT]) -> Box3
    ensures { result ≡ model.box_of margin sides.now (model.low_in ranges.now (positions_in at.now))
        (model.high_in ranges.now (positions_in at.now)) }
{
    let x = bounds_of(margin, &sides[0], ranges, at);
    let y = bounds_of(margin, &sides[1], ranges, at);
    let z = bounds_of(margin, &sides[2], ranges, at);
    Box3 {
        lo: [x.0, y.0, z.0],
        hi: [x.1, y.1, z.1],
    }
}

/// The box of a zone whose axes are within ranges, and elsewhere stand, grown by the margin.
pub fn zone_box(margin: Um, zone: &ZoneLine, ranges: &Ranges, at: &[Um; AXIS_LIMIT]) -> Box3
    ensures { result ≡ model.zone_box margin zone.now (model.low_in ranges.now (positions_in at.now))
        (model.high_in ranges.now (positions_in at.now)) }
{
    box_of(margin, &zone.sides, ranges, at)
}

/// The bounds of a direction of a zone whose axes stand, grown by the margin.
#[tactic(auto, unfolding(crate::specs::ZoneBoxes::side_low, crate::specs::ZoneBoxes::side_high))]
fn bounds_at(margin: Um, side: &Side, at: &[Um; AXIS_LIMIT]) -> (i32, i32)
    ensures low { result.0 ≡ model.side_low margin (positions_in at.now) (positions_in at.now) side.now }
    ensures high { result.1 ≡ model.side_high margin (positions_in at.now) (positions_in at.now) side.now }
{
    match side.carrier {
        None => grown(margin, side),
        Some((axis, minus)) => {
            let position = standing(at, axis);
            bounds_between(margin, side, minus, position, position)
        }
    }
}

/// The box whose directions have these bounds, where the axes stand.
fn box_at(margin: Um, sides: &[Side; 3], at: &[Um; AXIS_LIMIT]) -> Box3
    ensures { result ≡ model.box_of margin sides.now (positions_in at.now) (positions_in at.now) }
{
    let x = bounds_at(margin, &sides[0], at);
    let y = bounds_at(margin, &sides[1], at);
    let z = bounds_at(margin, &sides[2], at);
    Box3 {
        lo: [x.0, y.0, z.0],
        hi: [x.1, y.1, z.1],
    }
}

/// The box of a zone whose axes stand, grown by the margin.
pub fn standing_zone_box(margin: Um, zone: &ZoneLine, at: &[Um; AXIS_LIMIT]) -> Box3
    ensures { result ≡ model.zone_box margin zone.now (positions_in at.now) (positions_in at.now) }
{
    box_at(margin, &zone.sides, at)
}
