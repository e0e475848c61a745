//! What is looked at together while boxes of two zones are compared.

use explain_reach::PartedBoxes;
use job_types::Job;
use order_clocks::Clocks;
use std::alloc::Global;
use sync_types::Run;
use zone_stretches::{ZoneBox, ZoneStretch};

/// A job with a run of it and the order of its events.
#[derive(Clone, Copy)]
pub(crate) struct Scene<'a> {
    /// Where memory is taken.
    pub(crate) alloc: Global,
    /// The job.
    pub(crate) job: &'a Job,
    /// The run.
    pub(crate) run: &'a Run,
    /// The order of its events.
    pub(crate) clocks: &'a Clocks,
}

/// Two stretches of two zones, whose boxes are compared.
#[derive(Clone, Copy)]
pub(crate) struct TwoStretches<'a> {
    /// The job, the run, and the order of its events.
    pub(crate) scene: &'a Scene<'a>,
    /// The stretch of the zone with the lower number.
    pub(crate) left: &'a ZoneStretch<'a>,
    /// That of the other zone.
    pub(crate) right: &'a ZoneStretch<'a>,
}

/// A box of a stretch, with those by which it is compared.
#[derive(Clone, Copy)]
pub(crate) struct PartedBox<'a> {
    /// The box.
    pub(crate) whole: &'a ZoneBox,
    /// The boxes by which it is compared.
    pub(crate) pieces: &'a PartedBoxes,
}

/// A box of a stretch, with its place there.
#[derive(Clone, Copy)]
pub(crate) struct PlacedBox<'a> {
    /// The place.
    pub(crate) place: usize,
    /// The box.
    pub(crate) whole: &'a ZoneBox,
}
