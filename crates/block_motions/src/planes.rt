//! The planes of arcs.

ghost use Rattle.std.specs.Prelude.{◌≡◌, ◌<◌};
ghost use Rattle.frames.specs.Maps.{first_axis as first_axis_of, second_axis as second_axis_of};

use axis_sets::AxisId;
use frames::Plane;
use std::marker::Model;

/// An axis of a plane.
#[derive(Clone, Copy)]
pub struct Side {
    /// X, Y and Z are 0, 1 and 2.
    pub axis: u8,
    /// The axis of the machine that it moves.
    pub moved: AxisId,
}

impl Model for Side {
    ghost use Rattle.std.specs.Prelude.{◌<◌};
    ghost use Rattle.block_motions.specs.Sides.{SideView};

    ghost Value = { SideView };

    ghost view = { λ side. record { axis = side.axis; moved = side.moved } };

    ghost invariant = { λ side. side.axis < 3 };

    ghost inverse = { λ side. record { axis = side.axis; moved = side.moved } };
}

/// The axis of a plane from which G3 turns.
pub(crate) fn first_axis(plane: Plane) -> u8
    ensures axis { result ≡ first_axis_of plane }
    ensures bound { result < 3 }
{
    match plane {
        Plane::G17 => 0,
        Plane::G18 => 2,
        Plane::G19 => 1,
    }
}

/// The axis of a plane to which G3 turns.
pub(crate) fn second_axis(plane: Plane) -> u8
    ensures axis { result ≡ second_axis_of plane }
    ensures bound { result < 3 }
{
    match plane {
        Plane::G17 => 1,
        Plane::G18 => 0,
        Plane::G19 => 2,
    }
}
