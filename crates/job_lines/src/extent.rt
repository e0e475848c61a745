//! How much a job of each version of job lists may have.

ghost use Rattle.std.specs.Prelude.{◌≡◌, ◌≤◌};
ghost use Rattle.axis_sets.specs.declared.limits.TheConstants.{AXIS_LIMIT, CHANNEL_LIMIT, MARK_LIMIT};
ghost use Rattle.job_lines.specs.Extent.{extent_of};

use axis_sets::{AXIS_LIMIT, CHANNEL_LIMIT, MARK_LIMIT};

/// The first version of job lists.
pub const FIRST_VERSION: u8 = 1;

/// The greatest number of a channel in a job of the first version.
pub const FIRST_VERSION_CHANNELS: usize = 8;

/// How many axes a job of the first version has at most.
pub const FIRST_VERSION_AXES: usize = 16;

/// How many marks there are in a job of the first version.
pub const FIRST_VERSION_MARKS: usize = 10;

/// How many channels and axes a job may have, and how many marks there are in it.
#[derive(Clone, Copy)]
pub struct Extent {
    /// The greatest number of a channel.
    pub channels: usize,
    /// How many axes there are at most.
    pub axes: usize,
    /// How many marks there are.
    pub marks: usize,
}

impl Extent {
    /// How much a job of this version may have.
    pub fn of(version: u8) -> Extent
        ensures value { result ≡ extent_of version }
        ensures channels { (1 ≤ result.channels) × (result.channels ≤ CHANNEL_LIMIT) }
        ensures axes { result.axes ≤ AXIS_LIMIT }
        ensures marks { result.marks ≤ MARK_LIMIT }
    {
        if version == FIRST_VERSION {
            Extent {
                channels: FIRST_VERSION_CHANNELS,
                axes: FIRST_VERSION_AXES,
                marks: FIRST_VERSION_MARKS,
            }
        } else {
            Extent {
                channels: CHANNEL_LIMIT,
                axes: AXIS_LIMIT,
                marks: MARK_LIMIT,
            }
        }
    }
}
