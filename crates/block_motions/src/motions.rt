//! The motion of a block by a line or as a rapid.

ghost use Rattle.std.specs.Prelude.{◌≡◌, true, IsTrue, IfOk, OnErr, None, []};
ghost use Rattle.axis_sets.specs.Sets.{has};
ghost use Rattle.axis_sets.specs.Positions as positions;
ghost use Rattle.block_motions.specs.Goals.{ConditionsView, AreInForce};
ghost use Rattle.block_motions.specs.Motions as model;

use crate::axes::ChannelAxes;
use crate::goals::{Conditions, Goal, Targets, have_axes, is_off_plane, put_goals, word};
use crate::words::is_any;
use arrayvec::ArrayVec;
use axis_sets::{AXIS_LIMIT, AxisId, AxisSet, Positions};
use fault_codes::alarms::{AXIS_NOT_OWNED, NO_SUCH_AXIS, OUT_OF_RANGE, TOOL_PLANE};
use g_groups::{MOTION_GROUP, RAPID_GROUP, RTLIOF};
use micro_units::{Um, is_position};
use path_geometry::{Ends, Motion};

/// Where an axis stands.
pub fn stands(at: &Positions, axis: AxisId) -> Um
    ensures { result ≡ positions.stands at.now axis }
{
    match at.get(axis) {
        Some(position) => position,
        None => Um { micrometres: 0 },
    }
}

/// Whether an axis reaches its goal, if it has one.
fn is_in_reach(owned: AxisSet, at: &Positions, axis: AxisId, goal: Option<Goal>) -> bool
    ensures { result ≡ model.is_in_reach (has owned axis) (positions.stands at.now axis) goal }
{
    match goal {
        Some(goal) => is_goal_in_reach(owned.contains(axis), stands(at, axis), goal),
        None => true,
    }
}

/// Whether an axis that starts there reaches its goal.
pub(crate) fn is_goal_in_reach(owned: bool, start: Um, goal: Goal) -> bool
    ensures { result ≡ model.is_goal_in_reach owned start goal }
{
    match goal {
        Goal::To(_) => true,
        Goal::By(change) => !owned || is_position(start.micrometres + change.micrometres),
        Goal::TooFar => false,
    }
}

/// Whether all goals are in reach.
#[tactic(auto, unfolding(crate::specs::Motions::are_in_reach))]
pub(crate) fn are_in_reach(
    owned: AxisSet,
    at: &Positions,
    goals: &[Option<Goal>; AXIS_LIMIT],
) -> bool
    ensures { result ≡ model.are_in_reach owned (positions.stands at.now) goals.now }
{
    for index in 0..AXIS_LIMIT {
        let axis = AxisId { index: index as u8 };
        if !is_in_reach(owned, at, axis, goals[index]) {
            return false;
        }
    }
    true
}

/// Whether all goals are those of axes of the set.
#[tactic(auto, unfolding(crate::specs::Motions::are_own))]
pub(crate) fn are_own(owned: AxisSet, goals: &[Option<Goal>; AXIS_LIMIT]) -> bool
    ensures { result ≡ model.are_own owned goals.now }
{
    for index in 0..AXIS_LIMIT {
        let axis = AxisId { index: index as u8 };
        if goals[index].is_some() && !owned.contains(axis) {
            return false;
        }
    }
    true
}

/// Where an axis ends that starts there.
pub(crate) fn end_from(start: Um, goal: Goal) -> Um
    requires { IsTrue (model.is_goal_in_reach true start goal) }
    ensures { result ≡ model.end_from start goal }
{
    match goal {
        Goal::To(end) => end,
        Goal::By(change) => Um {
            micrometres: start.micrometres + change.micrometres,
        },
        Goal::TooFar => unreachable!(),
    }
}

/// Moves the axes to their goals, and puts their starts and ends.
fn put_ends(
    goals: &[Option<Goal>; AXIS_LIMIT],
    at: &mut Positions,
    axes: &mut ArrayVec<(AxisId, Um, Um), AXIS_LIMIT>,
)
    requires reached { model.AreReached (positions.stands at.old) goals.now }
    requires none { axes.old.items ≡ [] }
    ensures ends { axes.new.items ≡ model.ends_from (positions.stands at.old) goals.now }
    ensures stand { model.StandsMoved goals.now at.old at.new }
{
    for index in 0..AXIS_LIMIT {
        if let Some(goal) = goals[index] {
            let axis = AxisId { index: index as u8 };
            let start = stands(at, axis);
            let end = end_from(start, goal);
            axes.push((axis, start, end));
            at.set(axis, end);
        }
    }
}

/// Moves the axes to their goals, and answers their starts and ends.
pub(crate) fn move_axes(goals: &[Option<Goal>; AXIS_LIMIT], at: &mut Positions) -> Ends
    requires { model.AreReached (positions.stands at.old) goals.now }
    ensures ends { result.axes ≡ model.ends_from (positions.stands at.old) goals.now }
    ensures stand { model.StandsMoved goals.now at.old at.new }
{
    let mut ends = Ends {
        axes: ArrayVec::new(),
    };
    put_ends(goals, at, &mut ends.axes);
    ends
}

/// Whether each axis goes by itself.
#[tactic(auto, using(crate::proofs::HeldWords::has_rapid_word, crate::proofs::HeldWords::has_motion_word))]
fn is_rapid(conditions: &Conditions) -> bool
    ensures { (h : ConditionsView) → AreInForce h conditions.now → result ≡ model.is_rapid h }
{
    word(conditions, MOTION_GROUP) == 0 && word(conditions, RAPID_GROUP) == RTLIOF
}

/// A rapid, or else a straight line.
fn motion_between(rapid: bool, ends: Ends) -> Motion
    ensures { result ≡ model.motion_between rapid ends }
{
    if rapid {
        Motion::Rapid(ends)
    } else {
        Motion::Line(ends)
    }
}

/// Puts the motion to these goals in its place, or alarms.
#[tactic(auto, unfolding(crate::specs::Motions::straight_motion_to))]
fn move_to(
    owned: AxisSet,
    rapid: bool,
    goals: &[Option<Goal>; AXIS_LIMIT],
    at: &mut Positions,
    motion: &mut Option<Motion>,
) -> Result<(), u16>
    requires { motion.old ≡ None }
    ensures made { model.given_motion motion.new result
        ≡ model.straight_motion_to owned (positions.stands at.old) rapid goals.now }
    ensures stand { IfOk result (λ _. model.StandsAtEndOf motion.new at.old at.new) }
    ensures unmoved { OnErr result (at.new ≡ at.old) }
{
    if !are_in_reach(owned, at, goals) {
        return Err(OUT_OF_RANGE);
    }
    if !are_own(owned, goals) {
        return Err(AXIS_NOT_OWNED);
    }
    let mut ends = Ends {
        axes: ArrayVec::new(),
    };
    put_ends(goals, at, &mut ends.axes);
    if ends.axes.is_empty() {
        return Ok(());
    }
    *motion = Some(motion_between(rapid, ends));
    Ok(())
}

/// Puts the motion of a block in its place, and takes the axes to its ends. A block that programs no axis has
/// none. It is a straight line; under G0 with RTLIOF it is a rapid, in which each axis
/// goes by itself.
///
/// X, Y and Z are halved where they are diameters, and go through the frame to the slots, with
/// their offsets; axes by their own names go without either. A value in millimetres is rounded
/// once, to whole micrometres. An end of X, Y or Z, and no change, has the length of the tool in its slot besides.
/// The alarms come in this order, and after one no axis has moved:
///
/// - 14: the frame sends X, Y or Z to a slot without axis.
/// - 35: a length of the tool is not 0, under G17 or G19.
/// - 13: an axis would end, with the length of the tool or without it, more than 10,000,000 micrometres from 0, or change by more than
///   20,000,000. Of an axis that is not owned, of which nobody knows where it stands, a change is
///   tested alone.
/// - 15: an axis is not owned.
#[tactic(auto, unfolding(crate::specs::Motions::straight_motion))]
pub fn straight_motion(
    axes: &ChannelAxes,
    conditions: &Conditions,
    targets: &Targets,
    at: &mut Positions,
    motion: &mut Option<Motion>,
) -> Result<(), u16>
    requires { motion.old ≡ None }
    ensures made { (h : ConditionsView) → AreInForce h conditions.now
        → model.given_motion motion.new result ≡ model.straight_motion axes.now.slots axes.now.owned h
        (positions.stands at.old) targets.now }
    ensures stand { IfOk result (λ _. model.StandsAtEndOf motion.new at.old at.new) }
    ensures unmoved { OnErr result (at.new ≡ at.old) }
{
    if !is_any(&targets.slots) && !is_any(&targets.axes) {
        return Ok(());
    }
    if !have_axes(&axes.slots, conditions, &targets.slots) {
        return Err(NO_SUCH_AXIS);
    }
    if is_off_plane(conditions) {
        return Err(TOOL_PLANE);
    }
    let mut goals = [None; AXIS_LIMIT];
    put_goals(&mut goals, &axes.slots, conditions, targets);
    move_to(axes.owned, is_rapid(conditions), &goals, at, motion)
}
