//! The numbers of groups, and the codes of the words that are names.

/// The group of the words that say how axes go under G0. It has no number on the control.
pub const RAPID_GROUP: u8 = 0;

/// The group of the words that say which motion a block makes.
pub const MOTION_GROUP: u8 = 1;

/// The group of the word that dwells.
pub const DWELL_GROUP: u8 = 2;

/// The group of the words that set the limits of the working area.
pub const AREA_GROUP: u8 = 3;

/// The group of the words that choose the plane.
pub const PLANE_GROUP: u8 = 6;

/// The group of the words of tool radius compensation.
pub const RADIUS_GROUP: u8 = 7;

/// The group of the words that choose a settable offset.
pub const OFFSET_GROUP: u8 = 8;

/// The group whose words hold in their own block alone: no frame and no offset.
pub const BLOCK_GROUP: u8 = 9;

/// The group of the words that stop at the end of a block, or go on without a stop.
pub const PATH_GROUP: u8 = 10;

/// The group of the word that stops at the end of its block.
pub const STOP_GROUP: u8 = 11;

/// The group of the words that say how exact a stop is.
pub const STOP_WIDTH_GROUP: u8 = 12;

/// The group of the words that choose the unit of lengths.
pub const UNIT_GROUP: u8 = 13;

/// The group of the words that say whether values are ends or changes.
pub const DIMENSION_GROUP: u8 = 14;

/// The group of the words that say how a feed or a speed counts.
pub const FEED_GROUP: u8 = 15;

/// The group of the words that say how a contour is approached.
pub const APPROACH_GROUP: u8 = 17;

/// The group of the words that say how a tool goes round corners.
pub const CORNER_GROUP: u8 = 18;

/// The group of the words that say how axes accelerate.
pub const ACCELERATION_GROUP: u8 = 21;

/// The group of the words that switch the feed forward.
pub const FEED_FORWARD_GROUP: u8 = 24;

/// The group of the words that switch the limits of the working area.
pub const AREA_SWITCH_GROUP: u8 = 28;

/// The group of the words that say which values of X are diameters.
pub const DIAMETER_GROUP: u8 = 29;

/// Under G0 the axes go along one straight line: the code of RTLION in `RAPID_GROUP`.
pub const RTLION: u16 = 1;

/// Under G0 each axis goes by itself: the code of RTLIOF in `RAPID_GROUP`.
pub const RTLIOF: u16 = 2;

/// No frame and no offset holds in the block: the code of SUPA in `BLOCK_GROUP`.
pub const SUPA: u16 = 3;

/// A contour is approached at a right angle: the code of NORM in `APPROACH_GROUP`.
pub const NORM: u16 = 1;

/// A contour is approached round its corner: the code of KONT in `APPROACH_GROUP`.
pub const KONT: u16 = 2;

/// Axes accelerate in a jump: the code of BRISK in `ACCELERATION_GROUP`.
pub const BRISK: u16 = 1;

/// Axes accelerate without a jerk: the code of SOFT in `ACCELERATION_GROUP`.
pub const SOFT: u16 = 2;

/// The feed forward is on: the code of FFWON in `FEED_FORWARD_GROUP`.
pub const FFWON: u16 = 1;

/// The feed forward is off: the code of FFWOF in `FEED_FORWARD_GROUP`.
pub const FFWOF: u16 = 2;

/// The limits of the working area hold: the code of WALIMON in `AREA_SWITCH_GROUP`.
pub const WALIMON: u16 = 1;

/// The limits of the working area do not hold: the code of WALIMOF in `AREA_SWITCH_GROUP`.
pub const WALIMOF: u16 = 2;

/// Values of X are diameters: the code of DIAMON in `DIAMETER_GROUP`.
pub const DIAMON: u16 = 1;

/// No values of X are diameters: the code of DIAMOF in `DIAMETER_GROUP`.
pub const DIAMOF: u16 = 2;

/// Ends of X are diameters, and changes are not: the code of DIAM90 in `DIAMETER_GROUP`.
pub const DIAM90: u16 = 3;

/// The code of a word stays below this number.
pub const CODE_LIMIT: u16 = 1000;

/// The alarm of a block with two words of one group. It is the one of this code in the table of alarms of `nc_faults`,
/// on which this crate does not stand, so that no chain of crates is longer for one number.
pub const GROUP_TWICE: u16 = 10;
