//! The two axes of a plane, after the frame.

ghost use Rattle.std.specs.Prelude.{◌≡◌, ◌<◌};
ghost use Rattle.std.specs.Ordering.{int_eq};
ghost use Rattle.block_motions.specs.Goals.{ConditionsView, AreInForce, chain_in, axis_in as axis_in_slot};
ghost use Rattle.frames.specs.Images.{image_of, other_sign};
ghost use Rattle.frames.specs.Maps.{first_axis as first_axis_of, second_axis as second_axis_of};
ghost use Rattle.block_motions.specs.Arcs as model;

use crate::goals::{Conditions, axis_in, frame_in, word};
use crate::planes::{Side, first_axis, second_axis};
use axis_sets::AxisId;
use frames::Plane;
use g_groups::MOTION_GROUP;
use micro_units::Num;

/// An axis of the plane, if there is one that it moves.
fn side_of(slots: &[Option<AxisId>; 3], conditions: &Conditions, axis: u8) -> Option<Side>
    requires { axis < 3 }
    ensures { (h : ConditionsView) → AreInForce h conditions.now
        → result ≡ model.side axis (axis_in_slot slots.now h axis) }
{
    match axis_in(slots, conditions, axis) {
        Some(moved) => Some(Side { axis, moved }),
        None => None,
    }
}

/// Both axes of the plane, if there are both.
fn both(first: Option<Side>, second: Option<Side>) -> Option<(Side, Side)>
    ensures { result ≡ model.both first second }
{
    match (first, second) {
        (Some(first), Some(second)) => Some((first, second)),
        _ => None,
    }
}

/// The two axes of the plane, if each moves an axis.
pub(crate) fn sides_in(
    slots: &[Option<AxisId>; 3],
    conditions: &Conditions,
    plane: Plane,
) -> Option<(Side, Side)>
    ensures { (h : ConditionsView) → AreInForce h conditions.now → result ≡ model.sides_in slots.now h plane }
{
    both(
        side_of(slots, conditions, first_axis(plane)),
        side_of(slots, conditions, second_axis(plane)),
    )
}

/// Whether two numbers are one.
fn are_equal(first: Num, second: Num) -> bool
    ensures { result ≡ int_eq first second }
{
    first.millionths == second.millionths
}

/// Whether the frame has one factor for both axes of the plane.
#[tactic(auto, unfolding(crate::specs::Arcs::have_one_factor))]
pub(crate) fn have_one_factor(conditions: &Conditions, plane: Plane) -> bool
    ensures { (h : ConditionsView) → AreInForce h conditions.now → result ≡ model.have_one_factor h plane }
{
    let frame = frame_in(conditions);
    let (_, _, first) = frame.image(first_axis(plane));
    let (_, _, second) = frame.image(second_axis(plane));
    are_equal(first, second)
}

/// Whether the frame mirrors one axis of the plane and not the other.
fn is_mirrored(conditions: &Conditions, plane: Plane) -> bool
    ensures { (h : ConditionsView) → AreInForce h conditions.now
        → result ≡ other_sign (image_of (chain_in h) (first_axis_of plane)).minus
        (image_of (chain_in h) (second_axis_of plane)).minus }
{
    let frame = frame_in(conditions);
    let (_, first, _) = frame.image(first_axis(plane));
    let (_, second, _) = frame.image(second_axis(plane));
    first != second
}

/// Whether an arc turns from the second axis of the plane to the first.
#[tactic(auto, using(crate::proofs::HeldWords::has_motion_word))]
pub(crate) fn is_backward(conditions: &Conditions, plane: Plane) -> bool
    ensures { (h : ConditionsView) → AreInForce h conditions.now → result ≡ model.is_backward h plane }
{
    let clockwise = word(conditions, MOTION_GROUP) == 2;
    clockwise != is_mirrored(conditions, plane)
}

/// The axes of the plane in the order in which an arc turns.
pub(crate) fn in_turn(backward: bool, sides: (Side, Side)) -> (Side, Side)
    ensures pair { result ≡ model.in_turn backward sides }
{
    if backward { (sides.1, sides.0) } else { sides }
}
