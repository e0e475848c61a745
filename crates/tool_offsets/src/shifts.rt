//! Motions whose axes are shifted.
ghost use Rattle.std.specs.Prelude.{◌≡◌, ◌≢◌, ◌==◌, ◌+ℤ◌, ◌&&◌, find, if◌then◌else◌, IfOk, None, Some, Ok, Err};
ghost use Rattle.std.specs.List.{AllPairs};
ghost use Rattle.fault_codes.specs.declared.alarms.TheConstants.{OUT_OF_RANGE};
ghost use Rattle.micro_units.specs.Position as positions;
ghost use Rattle.path_geometry.specs.Motions.{IsSound};
ghost use Rattle.tool_offsets.specs.Shifts as model;

use arrayvec::ArrayVec;
use axis_sets::AxisId;
use fault_codes::alarms::OUT_OF_RANGE;
use micro_units::{Um, is_position};
use path_geometry::{Arc, Ends, Motion};

/// The shift of an axis, where it is named.
fn entry_of(by: &[(AxisId, Um)], axis: AxisId) -> Option<(AxisId, Um)>
    ensures { result ≡ find (λ shift. shift.0 == axis) by.now }
{
    by.iter().copied().find(|shift| shift.0 == axis)
}

/// By how much an axis is shifted; one that is not named stays.
fn shift_of(by: &[(AxisId, Um)], axis: AxisId) -> Um
    ensures { result ≡ model.shift_of by.now axis }
{
    match entry_of(by, axis) {
        Some(shift) => shift.1,
        None => Um { micrometres: 0 },
    }
}

/// A shifted position, where it is in range.
fn place_by(at: Um, by: Um) -> Option<Um>
    ensures { result ≡ (if positions.is_position (at +ℤ by) then Some (at +ℤ by) else None) }
{
    let micrometres = at.micrometres + by.micrometres;
    if is_position(micrometres) {
        Some(Um { micrometres })
    } else {
        None
    }
}

/// Two positions that are shifted alike, where both are in range.
fn places_by(first: Um, second: Um, by: (Um, Um)) -> Option<(Um, Um)>
    ensures { result ≡ (if positions.is_position (first +ℤ by.0) && positions.is_position (second +ℤ by.1)
        then Some (first +ℤ by.0, second +ℤ by.1) else None) }
{
    match (place_by(first, by.0), place_by(second, by.1)) {
        (Some(first), Some(second)) => Some((first, second)),
        _ => None,
    }
}

/// The shifted ends, or alarm 13 where one of them is out of range.
fn shift_ends(ends: &Ends, by: &[(AxisId, Um)]) -> Result<Ends, u16>
    ensures { result ≡ (if model.are_in_range (model.shifted_ends by.now ends.now)
        then Ok (model.shifted_ends by.now ends.now) else Err OUT_OF_RANGE) }
{
    let mut axes = ArrayVec::new();
    for end in ends.axes.as_slice() {
        let shift = shift_of(by, end.0);
        let Some(places) = places_by(end.1, end.2, (shift, shift)) else {
            return Err(OUT_OF_RANGE);
        };
        axes.push((end.0, places.0, places.1));
    }
    Ok(Ends { axes })
}

/// The shifted arc, or alarm 13 where one of its starts and ends or its centre is out of range.
#[tactic(auto, unfolding(crate::specs::Shifts::in_range_or_alarm))]
fn shift_arc(arc: &Arc, by: &[(AxisId, Um)]) -> Result<Motion, u16>
    ensures { result ≡ model.in_range_or_alarm (model.shifted by.now (Motion.Arc arc.now)) }
{
    let ends = shift_ends(&arc.ends, by)?;
    let shift = (shift_of(by, arc.first), shift_of(by, arc.second));
    let Some(centre) = places_by(arc.centre.0, arc.centre.1, shift) else {
        return Err(OUT_OF_RANGE);
    };
    Ok(Motion::Arc(Arc {
        ends,
        first: arc.first,
        second: arc.second,
        centre,
        inner: arc.inner,
        outer: arc.outer,
        full: arc.full,
    }))
}

/// The shifted motion, or alarm 13 where one of its starts and ends or its centre is out of range.
#[tactic(auto, unfolding(crate::specs::Shifts::in_range_or_alarm))]
fn shift_motion(motion: &Motion, by: &[(AxisId, Um)]) -> Result<Motion, u16>
    ensures { result ≡ model.in_range_or_alarm (model.shifted by.now motion.now) }
{
    match motion {
        Motion::Line(ends) => Ok(Motion::Line(shift_ends(ends, by)?)),
        Motion::Rapid(ends) => Ok(Motion::Rapid(shift_ends(ends, by)?)),
        Motion::Arc(arc) => shift_arc(arc, by),
    }
}

/// The motion with each axis shifted by so much, its start, its end and the centre of its arc alike; an axis that `by` does
/// not name stays. Alarm 13 exactly where a shifted start, end or centre is out of range.
///
/// So a contour that is programmed for a tool without lengths is carried to where the slides are with one: the path is the
/// same path, shifted. The blocks of a program are not carried so, since their changes have no length.
pub fn shift(motion: &Motion, by: &[(AxisId, Um)]) -> Result<Motion, u16>
    requires sound { IsSound motion.now }
    requires once { AllPairs (λ one other. one.0 ≢ other.0) by.now }
    ensures value { result ≡ model.in_range_or_alarm (model.shifted by.now motion.now) }
    ensures sound { IfOk result IsSound }
{
    shift_motion(motion, by)
}
