//! The refusals and alarms of the control, with their printed texts.
#![tactic(auto)]

ghost use Rattle.std.specs.Prelude.{◌≡◌};
ghost use Rattle.fault_codes.specs.Codes.{IsRefusalCode, IsAlarmCode};
ghost use Rattle.nc_faults.specs.Texts.{refusal_text_of, alarm_text_of};

use fault_codes::alarms::*;
pub use fault_codes::{Alarm, Refusal, alarms};
pub use out_of_memory::NoMemory;

/// What the refusal of this code says. The codes are 1 to 12, 20 to 30 and 40 to 60.
#[tactic(auto, unfolding(fault_codes::specs::Codes::IsRefusalCode, fault_codes::specs::Codes::refusal_codes, crate::specs::Texts::refusal_text_of, crate::specs::Texts::refusal_texts))]
pub fn refusal_text(code: u16) -> &'static str
    requires { IsRefusalCode code }
    ensures { result.now ≡ refusal_text_of code }
{
    match code {
        1 => "no job line",
        2 => "line too long",
        3 => "byte not allowed",
        4 => "unknown job line",
        5 => "number out of range",
        6 => "declared twice",
        7 => "not declared",
        8 => "owner differs",
        9 => "program name repeated",
        10 => "bad program header",
        11 => "too many",
        12 => "program not in library",
        20 => "text not closed",
        21 => "number too large",
        22 => "block not readable",
        23 => "comparison beside AND, OR, XOR or NOT",
        24 => "statement not alone",
        25 => "structure not matched",
        26 => "nested too deep",
        27 => "unknown address",
        28 => "unknown variable",
        29 => "definition not at the beginning",
        30 => "variable defined twice",
        40 => "synchronised action not supported",
        41 => "measuring not supported",
        42 => "cycle not supported",
        43 => "variable definition not supported",
        44 => "system variable not supported",
        45 => "function not supported",
        46 => "inch dimension not supported",
        47 => "path form not supported",
        48 => "contour element not supported",
        49 => "fixed point not supported",
        50 => "transformation not supported",
        51 => "coupling not supported",
        52 => "zone definition not supported",
        53 => "interrupt not supported",
        54 => "SAVE not supported",
        55 => "GETD not supported",
        56 => "tool radius compensation not supported",
        57 => "word not supported",
        58 => "call with arguments not supported",
        59 => "skip level not supported",
        60 => "form not built yet",
        _ => unreachable!(),
    }
}

/// What the alarm of this code says. The codes are those of `alarms`.
#[tactic(auto, unfolding(fault_codes::specs::Codes::IsAlarmCode, fault_codes::specs::Codes::alarm_codes, crate::specs::Texts::alarm_text_of, crate::specs::Texts::alarm_texts))]
pub fn alarm_text(code: u16) -> &'static str
    requires { IsAlarmCode code }
    ensures { result.now ≡ alarm_text_of code }
{
    match code {
        NUMBER_TOO_LARGE => "number too large",
        DIVISION_BY_ZERO => "division by zero",
        NEGATIVE_ROOT => "root of a negative number",
        PARAMETER_INDEX => "parameter index",
        JUMP_TARGET_MISSING => "jump target missing",
        TOO_MANY_LEVELS => "too many program levels",
        NO_SUCH_PROGRAM => "no such program",
        TOO_MANY_BLOCKS => "block limit",
        NO_PROGRAM_END => "no program end",
        GROUP_TWICE => "two words of one group",
        SCALE_NOT_ALLOWED => "scale not allowed",
        NO_QUARTER_TURN => "quarter turns only",
        OUT_OF_RANGE => "out of range",
        NO_SUCH_AXIS => "no such axis",
        AXIS_NOT_OWNED => "axis not owned",
        GEOMETRY_AXIS_BY_NAME => "geometry axis by name",
        ADDRESS_TWICE => "address twice",
        ARC_WORDS => "arc words",
        CENTRE_OUTSIDE_PLANE => "centre outside the plane",
        RADIUS_DIFFERS => "radius differs",
        ARC_DEGENERATE => "arc degenerate",
        RADIUS_TOO_SMALL => "radius too small",
        ARC_SCALE => "arc scale",
        NO_SUCH_CHANNEL => "no such channel",
        NO_SUCH_MARK => "no such mark",
        OWN_MARK_STANDS => "own mark stands",
        CHANNEL_NOT_IDLE => "channel not idle",
        NO_PROGRAM_SELECTED => "no program selected",
        ZONE_NOT_HELD => "zone not held",
        ZONE_STATE => "zone state",
        ZONE_SPLIT => "zone split",
        TOO_MANY_REPETITIONS => "too many repetitions",
        REPETITION_COUNT => "repetition count",
        NO_SUCH_TOOL => "no such tool",
        TOOL_PLANE => "tool plane",
        TOO_MANY_ARGUMENTS => "too many arguments",
        _ => unreachable!(),
    }
}
