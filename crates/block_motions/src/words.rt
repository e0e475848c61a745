//! What a block programs of an arc besides its ends.

ghost use Rattle.std.specs.Prelude.{◌≡◌, ◌<◌};
ghost use Rattle.block_motions.specs.Goals.{ConditionsView, AreInForce, is_any as is_any_of};
ghost use Rattle.block_motions.specs.Arcs as model;

use crate::goals::{Conditions, Programmed, Targets, word};
use frames::Plane;
use g_groups::PLANE_GROUP;
use micro_units::Num;

/// What a block with an arc programs besides its ends.
#[derive(Clone, Copy)]
pub struct ArcWords {
    /// The words I, J and K of the centre, in millimetres.
    pub centre: [Option<Programmed>; 3],
    /// The radius CR in millimetres, below 0 for the longer of the two arcs.
    pub radius: Option<Num>,
}

/// Whether one of the values is programmed.
pub fn is_any(values: &[Option<Programmed>]) -> bool
    ensures { result ≡ is_any_of values.now }
{
    values.iter().any(|value| value.is_some())
}

/// Whether a block with an arc moves.
pub(crate) fn moves_arc(targets: &Targets, words: &ArcWords) -> bool
    ensures { result ≡ model.moves_arc targets.now words.now }
{
    is_any(&targets.slots) || is_any(&targets.axes) || is_any(&words.centre)
}

/// Whether there is a radius that is not 0.
fn is_radius(radius: Option<Num>) -> bool
    ensures { result ≡ model.is_radius radius }
{
    match radius {
        Some(radius) => radius.millionths != 0,
        None => false,
    }
}

/// Whether either a centre or a radius is given.
pub(crate) fn is_given(words: &ArcWords) -> bool
    ensures { result ≡ model.is_given words.now }
{
    if is_any(&words.centre) {
        words.radius.is_none()
    } else {
        is_radius(words.radius)
    }
}

/// The plane that holds.
#[tactic(auto, using(crate::proofs::HeldWords::has_plane_word))]
pub(crate) fn plane_of(conditions: &Conditions) -> Plane
    ensures { (h : ConditionsView) → AreInForce h conditions.now → result ≡ model.plane_of h }
{
    match word(conditions, PLANE_GROUP) {
        17 => Plane::G17,
        19 => Plane::G19,
        _ => Plane::G18,
    }
}

/// The axis that is not of a plane.
fn axis_across(plane: Plane) -> u8
    ensures axis { result ≡ model.axis_across plane }
    ensures bound { result < 3 }
{
    match plane {
        Plane::G17 => 2,
        Plane::G18 => 1,
        Plane::G19 => 0,
    }
}

/// The word of the centre on an axis.
pub(crate) fn centre_word(words: &ArcWords, axis: u8) -> Option<Programmed>
    requires { axis < 3 }
    ensures { result ≡ model.centre_word words.now axis }
{
    words.centre[usize::from(axis)]
}

/// Whether the centre has words of the axes of the plane alone.
pub(crate) fn is_in_plane(plane: Plane, words: &ArcWords) -> bool
    ensures { result ≡ model.is_in_plane plane words.now }
{
    centre_word(words, axis_across(plane)).is_none()
}
