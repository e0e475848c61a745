//! How many axes, channels, marks and zones there are.

/// How many axes a job has at most. Axes are numbered from 0.
pub const AXIS_LIMIT: usize = 24;

/// The greatest number of a channel. Channels are numbered from 1.
pub const CHANNEL_LIMIT: usize = 10;

/// How many marks there are. Marks are numbered from 0.
pub const MARK_LIMIT: usize = 100;

/// How many marks each of the two words of a set of marks has.
pub(crate) const MARK_HALF: usize = MARK_LIMIT / 2;

/// The greatest number of a zone. Zones are numbered from 1.
pub const ZONE_LIMIT: usize = 32;

/// The size of a list that has a place for each channel by its number; the place 0 is of none.
pub const CHANNEL_PLACES: usize = CHANNEL_LIMIT + 1;

/// The size of a list that has a place for each zone by its number; the place 0 is of none.
pub const ZONE_PLACES: usize = ZONE_LIMIT + 1;

/// How many places the word of a set has.
pub(crate) const WORD_BITS: usize = 64;
