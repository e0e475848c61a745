//! What is looked at together while boxes of two zones are compared.
ghost use Rattle.std.specs.Prelude.{◌≤◌};
ghost use Rattle.job_lines.specs.declared.limits.TheConstants.{DEPTH_LIMIT};

use box_tree::PieceTree;
use job_types::{Job, ZoneLine};
use order_clocks::Clocks;
use std::alloc::Global;
use sync_types::Run;
use zone_stretches::{Stretch, ZoneBox, ZoneStretch};

/// A job with a run of it and the order of its events.
#[derive(Clone, Copy)]
pub(crate) struct Scene<'a> {
    /// Where memory comes from.
    pub(crate) alloc: Global,
    /// How many boxes of pieces are kept at most, of 56 bytes each.
    pub(crate) room: usize,
    /// The job.
    pub(crate) job: &'a Job,
    /// The run.
    pub(crate) run: &'a Run,
    /// The order of its events.
    pub(crate) clocks: &'a Clocks,
    ghost deep: { job.now.depth ≤ DEPTH_LIMIT },
}

/// A zone with its stretches, and where those of them stand that have boxes.
#[derive(Clone, Copy)]
pub(crate) struct ShownZone<'a> {
    /// The zone.
    pub(crate) zone: &'a ZoneLine,
    /// Its stretches.
    pub(crate) stretches: &'a [Stretch],
    /// For each place, and the one after the last, the place of the first stretch from there on that has boxes.
    pub(crate) next: &'a [usize],
}

/// Two stretches of two zones, whose boxes are compared.
#[derive(Clone, Copy)]
pub(crate) struct TwoStretches<'a> {
    /// The job, the run, and the order of its events.
    pub(crate) scene: &'a Scene<'a>,
    /// Whether the stretches share a channel.
    pub(crate) shared: bool,
    /// The stretch of the zone with the lower number.
    pub(crate) left: &'a ZoneStretch<'a>,
    /// That of the other zone.
    pub(crate) right: &'a ZoneStretch<'a>,
}

/// A box of a stretch, with those by which it is compared.
#[derive(Clone, Copy)]
pub(crate) struct PiecedBox<'a> {
    /// The box.
    pub(crate) whole: &'a ZoneBox,
    /// The boxes by which it is compared.
    pub(crate) pieces: &'a PieceTree,
}
