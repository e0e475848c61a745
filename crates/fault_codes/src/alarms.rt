//! The codes of alarms, by name. `nc_faults::alarm_text` has what each of them says.

/// The code of the alarm "number too large".
pub const NUMBER_TOO_LARGE: u16 = 1;

/// The code of the alarm "division by zero".
pub const DIVISION_BY_ZERO: u16 = 2;

/// The code of the alarm "root of a negative number".
pub const NEGATIVE_ROOT: u16 = 3;

/// The code of the alarm "parameter index".
pub const PARAMETER_INDEX: u16 = 4;

/// The code of the alarm "jump target missing".
pub const JUMP_TARGET_MISSING: u16 = 5;

/// The code of the alarm "too many program levels".
pub const TOO_MANY_LEVELS: u16 = 6;

/// The code of the alarm "no such program".
pub const NO_SUCH_PROGRAM: u16 = 7;

/// The code of the alarm "block limit".
pub const TOO_MANY_BLOCKS: u16 = 8;

/// The code of the alarm "no program end".
pub const NO_PROGRAM_END: u16 = 9;

/// The code of the alarm "two words of one group".
pub const GROUP_TWICE: u16 = 10;

/// The code of the alarm "scale not allowed".
pub const SCALE_NOT_ALLOWED: u16 = 11;

/// The code of the alarm "quarter turns only".
pub const NO_QUARTER_TURN: u16 = 12;

/// The code of the alarm "out of range".
pub const OUT_OF_RANGE: u16 = 13;

/// The code of the alarm "no such axis".
pub const NO_SUCH_AXIS: u16 = 14;

/// The code of the alarm "axis not owned".
pub const AXIS_NOT_OWNED: u16 = 15;

/// The code of the alarm "geometry axis by name".
pub const GEOMETRY_AXIS_BY_NAME: u16 = 16;

/// The code of the alarm "address twice".
pub const ADDRESS_TWICE: u16 = 17;

/// The code of the alarm "arc words".
pub const ARC_WORDS: u16 = 18;

/// The code of the alarm "centre outside the plane".
pub const CENTRE_OUTSIDE_PLANE: u16 = 19;

/// The code of the alarm "radius differs".
pub const RADIUS_DIFFERS: u16 = 20;

/// The code of the alarm "arc degenerate".
pub const ARC_DEGENERATE: u16 = 21;

/// The code of the alarm "radius too small".
pub const RADIUS_TOO_SMALL: u16 = 22;

/// The code of the alarm "arc scale".
pub const ARC_SCALE: u16 = 23;

/// The code of the alarm "no such channel".
pub const NO_SUCH_CHANNEL: u16 = 24;

/// The code of the alarm "no such mark".
pub const NO_SUCH_MARK: u16 = 25;

/// The code of the alarm "own mark stands".
pub const OWN_MARK_STANDS: u16 = 26;

/// The code of the alarm "channel not idle".
pub const CHANNEL_NOT_IDLE: u16 = 27;

/// The code of the alarm "no program selected".
pub const NO_PROGRAM_SELECTED: u16 = 28;

/// The code of the alarm "zone not held".
pub const ZONE_NOT_HELD: u16 = 29;

/// The code of the alarm "zone state".
pub const ZONE_STATE: u16 = 30;

/// The code of the alarm "zone split".
pub const ZONE_SPLIT: u16 = 31;

/// The code of the alarm "too many repetitions".
pub const TOO_MANY_REPETITIONS: u16 = 32;

/// The code of the alarm "repetition count".
pub const REPETITION_COUNT: u16 = 33;

/// The code of the alarm "no such tool".
pub const NO_SUCH_TOOL: u16 = 34;

/// The code of the alarm "tool plane".
pub const TOOL_PLANE: u16 = 35;

/// The code of the alarm "too many arguments".
pub const TOO_MANY_ARGUMENTS: u16 = 36;
