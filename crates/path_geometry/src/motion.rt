//! What moves how.

use arrayvec::ArrayVec;
use axis_sets::{AXIS_LIMIT, AxisId};
use micro_units::Um;
use std::marker::Model;

/// The axes of a motion, each with the positions in micrometres at which it starts and ends.
#[derive(Clone, Default, PartialEq, Eq, Drop)]
pub struct Ends {
    /// The axis, its start and its end.
    pub axes: ArrayVec<(AxisId, Um, Um), AXIS_LIMIT>,
}

impl Model for Ends {
    ghost use Rattle.path_geometry.specs.Ends.{EndsView};

    ghost Value = { EndsView };

    ghost view = { λ ends. record { axes = ends.axes.items } };

    ghost inverse = { λ ends. record { axes = record { items = ends.axes } } };
}

/// An arc in the plane of two axes, on which any further axes move along.
///
/// It turns about its centre from the first axis towards the second, and keeps between two radii.
#[derive(Clone, PartialEq, Eq, Drop)]
pub struct Arc {
    /// Where the axes start and end, both axes of the plane among them.
    pub ends: Ends,
    /// The first axis of the plane.
    pub first: AxisId,
    /// The second axis of the plane.
    pub second: AxisId,
    /// The centre on the first and on the second axis.
    pub centre: (Um, Um),
    /// The inner radius in micrometres.
    pub inner: u32,
    /// The outer radius in micrometres.
    pub outer: u32,
    /// Whether it is a whole turn.
    pub full: bool,
}

/// How the axes of a channel move from their starts to their ends.
#[derive(Clone, PartialEq, Eq, Drop)]
pub enum Motion {
    /// All axes along one straight line.
    Line(Ends),
    /// Each axis by itself, at a speed of its own.
    Rapid(Ends),
    /// Two axes along an arc, the others along with them.
    Arc(Arc),
}

impl Motion {
    ghost use Rattle.std.specs.Prelude.{◌≡◌};
    ghost use Rattle.path_geometry.specs.Motions.{axes_of};

    /// Where its axes start and end.
    pub fn ends(&self) -> &Ends
        ensures { result.now.axes ≡ axes_of self.now }
    {
        match self {
            Motion::Line(ends) => ends,
            Motion::Rapid(ends) => ends,
            Motion::Arc(arc) => &arc.ends,
        }
    }
}
