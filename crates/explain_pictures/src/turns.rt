//! How zones turn with arcs.
ghost use Rattle.std.specs.Prelude.{◌≡◌};
ghost use Rattle.explain_pictures.specs.Turns as model;

use axis_sets::AxisId;
use explain_views::Turn;
use job_types::ZoneLine;
use micro_units::Um;
use path_geometry::Arc;

/// Whether a carrier is this axis, and then whether a side goes against it.
fn carried_by(index: u8, carrier: (AxisId, bool)) -> Option<bool>
    ensures { result ≡ model.carried_by index carrier }
{
    if carrier.0.index == index {
        Some(carrier.1)
    } else {
        None
    }
}

/// This direction, where an axis carries it, with true where the zone goes against the axis.
#[tactic(auto, unfolding(crate::specs::Turns::direction_at))]
fn direction_at(zone: &ZoneLine, index: u8, direction: usize) -> Option<(usize, bool)>
    ensures { result ≡ model.direction_at zone.now index direction }
{
    let carrier = zone.sides.as_slice().get(direction)?.carrier?;
    match carried_by(index, carrier) {
        Some(minus) => Some((direction, minus)),
        None => None,
    }
}

/// The direction that an axis of a zone carries, with true where the zone goes against the axis.
#[tactic(auto, unfolding(crate::specs::Turns::direction_of))]
pub(crate) fn direction_of(zone: &ZoneLine, index: u8) -> Option<(usize, bool)>
    ensures { result ≡ model.direction_of zone.now index }
{
    match direction_at(zone, index, 0) {
        Some(found) => Some(found),
        None => match direction_at(zone, index, 1) {
            Some(found) => Some(found),
            None => direction_at(zone, index, 2),
        },
    }
}

/// A position as a zone has it that goes with its axis or against it.
pub(crate) fn signed(at: Um, minus: bool) -> i64
    ensures { result ≡ model.signed at minus }
{
    let place = i64::from(at.micrometres);
    if minus {
        (0i64).saturating_sub(place)
    } else {
        place
    }
}

/// The centre of a turn along a direction; 0 where the turn does not go along it.
fn centre_along(arc: &Arc, first: (usize, bool), second: (usize, bool), direction: usize) -> i64
    ensures { result ≡ model.centre_along arc.now first second direction }
{
    if second.0 == direction {
        signed(arc.centre.1, second.1)
    } else if first.0 == direction {
        signed(arc.centre.0, first.1)
    } else {
        0
    }
}

/// How a zone turns with an arc whose axes carry these directions.
#[tactic(auto, unfolding(crate::specs::Turns::turn_along))]
fn turn_along(arc: &Arc, first: (usize, bool), second: (usize, bool)) -> Turn
    ensures { result ≡ model.turn_along arc.now first second }
{
    Turn {
        centre: [
            centre_along(arc, first, second, 0),
            centre_along(arc, first, second, 1),
            centre_along(arc, first, second, 2),
        ],
        radius: arc.outer,
        first,
        second,
        full: arc.full,
    }
}

/// How a zone turns with an arc; nothing where it does not go with both axes of its plane.
#[tactic(auto, unfolding(crate::specs::Turns::turn_of))]
pub(crate) fn turn_of(zone: &ZoneLine, arc: &Arc) -> Option<Turn>
    ensures { result ≡ model.turn_of zone.now arc.now }
{
    match direction_of(zone, arc.first.index) {
        Some(first) => match direction_of(zone, arc.second.index) {
            Some(second) => Some(turn_along(arc, first, second)),
            None => None,
        },
        None => None,
    }
}
