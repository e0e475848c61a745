//! What the arguments of coordination words stand for.

ghost use Rattle.std.specs.Prelude.{◌≡◌, ◌≤◌, ◌<◌, All, IfOk, IfSome, length, map, slice_set, true};
ghost use Rattle.nc_blocks.specs.AxisNames.{slot_named};
ghost use Rattle.nc_blocks.specs.Indices.{OperandFits};
ghost use Rattle.nc_blocks.specs.Statement.{operand_view};
ghost use Rattle.axis_sets.specs.declared.limits.TheConstants.{MARK_LIMIT};
ghost use Rattle.coordination_words.specs.Operands as model;

use crate::programs::program_of;
use crate::setting::Setting;
use axis_sets::{
    AxisId, AxisSet, CHANNEL_PLACES, ChannelId, ChannelSet, MarkSet, Member, Set, ZONE_PLACES,
    ZoneId,
};
use fault_codes::alarms::{
    NO_SUCH_AXIS, NO_SUCH_CHANNEL, NO_SUCH_MARK, NO_SUCH_PROGRAM, ZONE_NOT_HELD, ZONE_STATE,
};
use micro_units::Num;
use nc_blocks::{Operand, slot_named};
use nc_expressions::{Names, eval};

// ---- values

/// The value of an argument; this alarm where it is no expression.
fn operand_value<N: Names>(operand: &Operand, parameters: &N, alarm: u16) -> Result<Num, u16>
    requires { OperandFits (operand_view operand.now) }
    ensures { result ≡ model.operand_value (N.values parameters.now) alarm (operand_view operand.now) }
{
    match operand {
        Operand::Value(value) => eval(value, parameters),
        Operand::Text(_) => Err(alarm),
        Operand::Axis(_) => Err(alarm),
    }
}

/// The whole number from 0 on, below a limit, that a value is.
#[tactic(auto, unfolding(crate::specs::Operands::whole_below))]
fn whole_below(value: Num, limit: u8) -> Option<u8>
    ensures value { result ≡ model.whole_below limit value }
    ensures below { IfSome result (λ number. number < limit) }
{
    let millionths = value.millionths;
    if 0 <= millionths && millionths < i64::from(limit) * 1_000_000 && millionths % 1_000_000 == 0 {
        Some((millionths / 1_000_000) as u8)
    } else {
        None
    }
}

/// The mark of an argument.
pub(crate) fn mark_in<S: Setting, N: Names>(
    operand: &Operand,
    setting: &S,
    parameters: &N,
) -> Result<u8, u16>
    requires { OperandFits (operand_view operand.now) }
    ensures value { result ≡ model.mark_in (S.setting setting.now) (N.values parameters.now)
        (operand_view operand.now) }
    ensures below { IfOk result (λ mark. mark < MARK_LIMIT) }
{
    let value = operand_value(operand, parameters, NO_SUCH_MARK)?;
    match whole_below(value, setting.mark_count() as u8) {
        Some(mark) => Ok(mark),
        None => Err(NO_SUCH_MARK),
    }
}

/// The channel of a number, if the job has it.
fn channel_of<S: Setting>(setting: &S, number: Option<u8>) -> Option<ChannelId>
    requires { IfSome number (λ n. n < CHANNEL_PLACES) }
    ensures { result ≡ model.if_passes (S.setting setting.now).has_channel number }
{
    match number {
        Some(number) => {
            if number < 1 {
                return None;
            }
            let channel = ChannelId { number };
            if setting.has_channel(channel) {
                Some(channel)
            } else {
                None
            }
        }
        None => None,
    }
}

/// The channel of an argument.
pub(crate) fn channel_in<S: Setting, N: Names>(
    operand: &Operand,
    setting: &S,
    parameters: &N,
) -> Result<ChannelId, u16>
    requires { OperandFits (operand_view operand.now) }
    ensures { result ≡ model.channel_in (S.setting setting.now)
        (N.values parameters.now) (operand_view operand.now) }
{
    let value = operand_value(operand, parameters, NO_SUCH_CHANNEL)?;
    match channel_of(setting, whole_below(value, CHANNEL_PLACES as u8)) {
        Some(channel) => Ok(channel),
        None => Err(NO_SUCH_CHANNEL),
    }
}

/// The zone of a number, if the channel holds it.
fn zone_of<S: Setting>(setting: &S, number: Option<u8>) -> Option<ZoneId>
    requires { IfSome number (λ n. n < ZONE_PLACES) }
    ensures { result ≡ model.if_passes (S.setting setting.now).holds number }
{
    match number {
        Some(number) => {
            if number < 1 {
                return None;
            }
            let zone = ZoneId { number };
            if setting.holds(zone) {
                Some(zone)
            } else {
                None
            }
        }
        None => None,
    }
}

/// The zone of an argument.
pub(crate) fn zone_in<S: Setting, N: Names>(
    operand: &Operand,
    setting: &S,
    parameters: &N,
) -> Result<ZoneId, u16>
    requires { OperandFits (operand_view operand.now) }
    ensures { result ≡ model.zone_in (S.setting setting.now) (N.values parameters.now) (operand_view operand.now) }
{
    let value = operand_value(operand, parameters, ZONE_NOT_HELD)?;
    match zone_of(setting, whole_below(value, ZONE_PLACES as u8)) {
        Some(zone) => Ok(zone),
        None => Err(ZONE_NOT_HELD),
    }
}

/// The state that a value is.
#[tactic(auto, unfolding(crate::specs::Operands::state_of))]
fn state_of(value: Num) -> Result<bool, u16>
    ensures { result ≡ model.state_of value }
{
    match value.millionths {
        0 => Ok(false),
        2_000_000 => Ok(true),
        _ => Err(ZONE_STATE),
    }
}

/// The state of an argument.
pub(crate) fn state_in<N: Names>(operand: &Operand, parameters: &N) -> Result<bool, u16>
    requires { OperandFits (operand_view operand.now) }
    ensures { result ≡ model.state_in (N.values parameters.now) (operand_view operand.now) }
{
    let value = operand_value(operand, parameters, ZONE_STATE)?;
    state_of(value)
}

// ---- axes and programs

/// The axis in a slot of the channel, or else the axis with the name.
fn axis_found<S: Setting>(setting: &S, name: &[u8]) -> Option<AxisId>
    ensures { result ≡ model.axis_found (S.setting setting.now) name.now (slot_named name.now) }
{
    match slot_named(name) {
        Some(slot) => setting.slot_axis(slot),
        None => setting.axis_named(name),
    }
}

/// The axis of an argument.
fn axis_in<S: Setting>(operand: &Operand, setting: &S) -> Result<AxisId, u16>
    ensures { result ≡ model.axis_in (S.setting setting.now) (operand_view operand.now) }
{
    match operand {
        Operand::Axis(name) => match axis_found(setting, name.as_slice()) {
            Some(axis) => Ok(axis),
            None => Err(NO_SUCH_AXIS),
        },
        Operand::Value(_) => Err(NO_SUCH_AXIS),
        Operand::Text(_) => Err(NO_SUCH_AXIS),
    }
}

/// The number of the program of an argument.
pub(crate) fn program_in<S: Setting>(operand: &Operand, setting: &S) -> Result<u16, u16>
    ensures { result ≡ model.program_in (S.setting setting.now) (operand_view operand.now) }
{
    match operand {
        Operand::Text(text) => match program_of(setting, text.as_slice()) {
            Some(number) => Ok(number),
            None => Err(NO_SUCH_PROGRAM),
        },
        Operand::Value(_) => Err(NO_SUCH_PROGRAM),
        Operand::Axis(_) => Err(NO_SUCH_PROGRAM),
    }
}

// ---- lists

/// The set with a member more.
fn with_member<I: Member<N>, const N: usize>(set: Set<I, N>, member: I) -> Set<I, N>
    requires stands { I.CanStand member }
    requires size { length set ≡ N }
    ensures value { result ≡ slice_set set (I.number_of member) true }
    ensures size { length result ≡ N }
{
    set.with(member)
}

/// The set with a mark more.
fn with_mark(set: MarkSet, mark: u8) -> MarkSet
    requires stands { mark < MARK_LIMIT }
    requires size { length set ≡ MARK_LIMIT }
    ensures value { result ≡ slice_set set mark true }
    ensures size { length result ≡ MARK_LIMIT }
{
    set.with(mark)
}

/// The marks of these arguments.
#[tactic(auto, unfolding(crate::specs::Operands::marks_in))]
pub(crate) fn marks_in<S: Setting, N: Names>(
    operands: &[Operand],
    setting: &S,
    parameters: &N,
) -> Result<MarkSet, u16>
    requires { All OperandFits (map operand_view operands.now) }
    ensures { result ≡ model.marks_in (S.setting setting.now) (N.values parameters.now)
        (map operand_view operands.now) }
{
    let mut marks = MarkSet::empty();
    for operand in operands {
        let mark = mark_in(operand, setting, parameters)?;
        marks = with_mark(marks, mark);
    }
    Ok(marks)
}

/// The channels of these arguments.
#[tactic(auto, unfolding(crate::specs::Operands::channels_in))]
pub(crate) fn channels_in<S: Setting, N: Names>(
    operands: &[Operand],
    setting: &S,
    parameters: &N,
) -> Result<ChannelSet, u16>
    requires { All OperandFits (map operand_view operands.now) }
    ensures { result ≡ model.channels_in (S.setting setting.now) (N.values parameters.now)
        (map operand_view operands.now) }
{
    let mut channels = ChannelSet::empty();
    for operand in operands {
        let channel = channel_in(operand, setting, parameters)?;
        channels = with_member(channels, channel);
    }
    Ok(channels)
}

/// The axes of these arguments.
#[tactic(auto, unfolding(crate::specs::Operands::axes_in))]
pub(crate) fn axes_in<S: Setting>(operands: &[Operand], setting: &S) -> Result<AxisSet, u16>
    ensures { result ≡ model.axes_in (S.setting setting.now) (map operand_view operands.now) }
{
    let mut axes = AxisSet::empty();
    for operand in operands {
        let axis = axis_in(operand, setting)?;
        axes = with_member(axes, axis);
    }
    Ok(axes)
}
