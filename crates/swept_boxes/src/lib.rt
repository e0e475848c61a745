//! The ranges that motions sweep, whole or in pieces, and boxes that meet.
#![tactic(auto)]

mod arcs;
mod limits;
mod lines;
mod sweeps;

use arrayvec::ArrayVec;
use axis_sets::{AXIS_LIMIT, AxisId};
pub use limits::PIECE_LIMIT;
use micro_units::Um;
use std::marker::Model;
pub use sweeps::{Pieces, cover, pieces_of};

/// A range in micrometres for each of some axes, low and high bound included.
#[derive(Clone, Default, PartialEq, Eq, Drop)]
pub struct Ranges {
    /// The axis, its low and its high bound.
    pub axes: ArrayVec<(AxisId, Um, Um), AXIS_LIMIT>,
}

impl Model for Ranges {
    ghost use Rattle.swept_boxes.specs.Ranges.{RangesView};

    ghost Value = { RangesView };

    ghost view = { λ ranges. record { axes = ranges.axes.items } };

    ghost inverse = { λ ranges. record { axes = record { items = ranges.axes } } };
}

/// A box in space, its bounds in micrometres in three directions. Where a low bound is above its high bound, the box has no point.
#[derive(Clone, Copy, Default, PartialEq, Eq)]
pub struct Box3 {
    /// The low bounds, which the box includes.
    pub lo: [i32; 3],
    /// The high bounds, which the box includes.
    pub hi: [i32; 3],
}

impl Box3 {
    ghost use Rattle.std.specs.Prelude.{◌<◌, ◌↔◌, IsTrue};
    ghost use Rattle.swept_boxes.specs.Boxes.{TouchIn, TouchInAll, DoMeet};

    /// Whether the two boxes share a point. Boxes that touch share one.
    pub fn meets(&self, other: &Box3) -> bool
        ensures share { IsTrue result ↔ DoMeet self.now other.now }
        ensures ranges { IsTrue result ↔ TouchInAll self.now other.now }
    {
        self.touches_in_all(other)
    }

    fn touches_in_all(&self, other: &Box3) -> bool
        ensures { IsTrue result ↔ TouchInAll self.now other.now }
    {
        self.touches(other, 0) && self.touches(other, 1) && self.touches(other, 2)
    }

    fn touches(&self, other: &Box3, direction: usize) -> bool
        requires { direction < 3 }
        ensures { IsTrue result ↔ TouchIn self.now other.now direction }
    {
        let low = self.lo[direction].max(other.lo[direction]);
        let high = self.hi[direction].min(other.hi[direction]);
        low <= high
    }
}
