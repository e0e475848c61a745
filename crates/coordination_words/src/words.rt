//! What each coordination word asks for.

ghost use Rattle.std.specs.Prelude.{◌≡◌, not, All, false, length, map, slice_set};
ghost use Rattle.std.specs.List.{list_all};
ghost use Rattle.axis_sets.specs.Sets.{has, members_of};
ghost use Rattle.axis_sets.specs.declared.limits.TheConstants.{CHANNEL_PLACES};
ghost use Rattle.nc_blocks.specs.Indices.{OperandFits};
ghost use Rattle.nc_blocks.specs.Statement.{operand_view};
ghost use Rattle.sync_types.specs.BoardAlarms as board;
ghost use Rattle.coordination_words.specs.Requests as model;

use crate::asked::Request;
use crate::operands::{
    axes_in, channel_in, channels_in, mark_in, marks_in, program_in, state_in, zone_in,
};
use crate::setting::Setting;
use axis_sets::{AxisSet, ChannelId, ChannelSet};
use fault_codes::alarms::{
    AXIS_NOT_OWNED, NO_SUCH_CHANNEL, NO_SUCH_MARK, NO_SUCH_PROGRAM, ZONE_NOT_HELD, ZONE_SPLIT,
    ZONE_STATE,
};
use nc_blocks::{CoordWord, Operand};
use nc_expressions::Names;
use sync_types::Action;

/// The channels without one.
fn without(named: ChannelSet, channel: ChannelId) -> ChannelSet
    requires { length named ≡ CHANNEL_PLACES }
    ensures { result ≡ slice_set named channel false }
{
    named.without(channel)
}

/// WAITM and WAITMC.
fn meeting<S: Setting, N: Names>(
    operands: &[Operand],
    setting: &S,
    parameters: &N,
) -> Result<Request, u16>
    requires { All OperandFits (map operand_view operands.now) }
    ensures { result ≡ model.meeting (S.setting setting.now) (N.values parameters.now)
        (map operand_view operands.now) }
{
    let Some((first, others)) = operands.split_first() else {
        return Err(NO_SUCH_MARK);
    };
    let mark = mark_in(first, setting, parameters)?;
    let named = channels_in(others, setting, parameters)?;
    Ok(Request::Act(Action::WaitM(mark, without(named, setting.channel()))))
}

/// INIT.
fn selection<S: Setting, N: Names>(
    operands: &[Operand],
    setting: &S,
    parameters: &N,
) -> Result<Request, u16>
    requires { All OperandFits (map operand_view operands.now) }
    ensures { result ≡ model.selection (S.setting setting.now) (N.values parameters.now)
        (map operand_view operands.now) }
{
    let Some((first, others)) = operands.split_first() else {
        return Err(NO_SUCH_CHANNEL);
    };
    let channel = channel_in(first, setting, parameters)?;
    let Some((second, _)) = others.split_first() else {
        return Err(NO_SUCH_PROGRAM);
    };
    let program = program_in(second, setting)?;
    Ok(Request::Act(Action::Init(channel, program)))
}

/// CPROT.
fn switching<S: Setting, N: Names>(
    operands: &[Operand],
    setting: &S,
    parameters: &N,
) -> Result<Request, u16>
    requires { All OperandFits (map operand_view operands.now) }
    ensures { result ≡ model.switching (S.setting setting.now) (N.values parameters.now)
        (map operand_view operands.now) }
{
    let Some((first, others)) = operands.split_first() else {
        return Err(ZONE_NOT_HELD);
    };
    let zone = zone_in(first, setting, parameters)?;
    let Some((second, _)) = others.split_first() else {
        return Err(ZONE_STATE);
    };
    let on = state_in(second, parameters)?;
    Ok(Request::Switch(zone, on))
}

/// Whether these axes are all in a set.
fn are_among(axes: AxisSet, set: AxisSet) -> bool
    ensures { result ≡ list_all (has set) (members_of axes) }
{
    axes.minus(set).is_empty()
}

/// Whether none of these axes is in a set.
fn are_apart(axes: AxisSet, set: AxisSet) -> bool
    ensures { result ≡ list_all (λ x. not (has set x)) (members_of axes) }
{
    axes.minus(axes.minus(set)).is_empty()
}

/// Whether all axes of a zone are named, or none.
fn is_whole(axes: AxisSet, zone: AxisSet) -> bool
    ensures { result ≡ board.is_whole axes zone }
{
    are_among(zone, axes) || are_apart(zone, axes)
}

/// Whether of each zone of the job all axes are among these, or none.
fn leaves_zones_whole<S: Setting>(setting: &S, axes: AxisSet) -> bool
    ensures { result ≡ model.leaves_zones_whole (S.setting setting.now) axes }
{
    for place in 0..setting.zone_count() {
        if !is_whole(axes, setting.zone_axes(place)) {
            return false;
        }
    }
    true
}

/// RELEASE of these axes.
#[tactic(auto, unfolding(crate::specs::Requests::letting_go))]
fn letting_go<S: Setting>(setting: &S, axes: AxisSet) -> Result<Request, u16>
    ensures { result ≡ model.letting_go (S.setting setting.now) axes }
{
    if !are_among(axes, setting.owned()) {
        Err(AXIS_NOT_OWNED)
    } else if leaves_zones_whole(setting, axes) {
        Ok(Request::Act(Action::Release(axes)))
    } else {
        Err(ZONE_SPLIT)
    }
}

/// GET of these axes.
#[tactic(auto, unfolding(crate::specs::Requests::taking))]
fn taking<S: Setting>(setting: &S, axes: AxisSet) -> Result<Request, u16>
    ensures { result ≡ model.taking (S.setting setting.now) axes }
{
    if leaves_zones_whole(setting, axes) {
        Ok(Request::Act(Action::Get(axes)))
    } else {
        Err(ZONE_SPLIT)
    }
}

/// What a coordination word asks for with these arguments, or the code of its first alarm that is found before the board:
/// 1 to 4 of an expression, 7, 14, 15, 24, 25, 29, 30, 31. An argument that is missing or of another kind than the word
/// takes has the alarm of its place. It takes no memory.
#[tactic(auto, unfolding(crate::specs::Requests::request_of))]
pub fn request_of<S: Setting, N: Names>(
    word: CoordWord,
    operands: &[Operand],
    setting: &S,
    parameters: &N,
) -> Result<Request, u16>
    requires { All OperandFits (map operand_view operands.now) }
    ensures { result ≡ model.request_of (S.setting setting.now) (N.values parameters.now) word
        (map operand_view operands.now) }
{
    match word {
        CoordWord::WaitM => meeting(operands, setting, parameters),
        CoordWord::WaitMC => meeting(operands, setting, parameters),
        CoordWord::SetM => {
            let marks = marks_in(operands, setting, parameters)?;
            Ok(Request::Act(Action::SetM(marks)))
        }
        CoordWord::ClearM => {
            let marks = marks_in(operands, setting, parameters)?;
            Ok(Request::Act(Action::ClearM(marks)))
        }
        CoordWord::Init => selection(operands, setting, parameters),
        CoordWord::Start => {
            let named = channels_in(operands, setting, parameters)?;
            Ok(Request::Act(Action::Start(named)))
        }
        CoordWord::WaitE => {
            let named = channels_in(operands, setting, parameters)?;
            Ok(Request::Act(Action::WaitE(named)))
        }
        CoordWord::Release => letting_go(setting, axes_in(operands, setting)?),
        CoordWord::Get => taking(setting, axes_in(operands, setting)?),
        CoordWord::CProt => switching(operands, setting, parameters),
    }
}
