//! The motion of a block with an arc.

ghost use Rattle.std.specs.Prelude.{◌≡◌, pos, ◌<◌, ◌≤ℤ◌, ◌*ℤ◌, IfOk, IfSome, OnErr};
ghost use Rattle.std.specs.Int.RustNames.{unsigned_abs};
ghost use Rattle.block_motions.specs.Goals.{ConditionsView, AreInForce, change_by as change_to, chain_in};
ghost use Rattle.axis_sets.specs.Positions.{stands as stands_at};
ghost use Rattle.block_motions.specs.Motions.{StandsAtEndOf};
ghost use Rattle.frames.specs.Images.{image_of};
ghost use Rattle.frames.specs.Places.{change_of};
ghost use Rattle.path_geometry.specs.Motions.{AreSound, HavePlane, axes_of};
ghost use Rattle.micro_units.specs.Position.{IsPosition};
ghost use Rattle.block_motions.specs.Arcs as model;

use crate::axes::ChannelAxes;
use crate::goals::{
    Conditions, Goal, Programmed, Targets, change_through, frame_in, goal_through, have_axes,
    is_off_plane, put_goals,
};
use crate::motions::{are_in_reach, are_own, move_axes, stands};
use crate::planes::Side;
use crate::sides::{have_one_factor, in_turn, is_backward, sides_in};
use crate::words::{ArcWords, centre_word, is_given, is_in_plane, moves_arc, plane_of};
use axis_sets::{AXIS_LIMIT, AxisId, Positions};
use fault_codes::alarms::{
    ARC_SCALE, ARC_WORDS, AXIS_NOT_OWNED, CENTRE_OUTSIDE_PLANE, NO_SUCH_AXIS, OUT_OF_RANGE,
    TOOL_PLANE,
};
use frames::Plane;
use micro_units::{Num, Um, is_position};
use nc_blocks::Measure;
use path_geometry::{Ends, Motion, arc_by_centre, arc_by_radius};

/// The goals, in which an axis without a goal stays.
fn staying(mut goals: [Option<Goal>; AXIS_LIMIT], axis: AxisId) -> [Option<Goal>; AXIS_LIMIT]
    ensures { result ≡ model.goals_with_stay goals axis }
{
    if goals[usize::from(axis.index)].is_none() {
        goals[usize::from(axis.index)] = Some(Goal::By(Um { micrometres: 0 }));
    }
    goals
}

/// The goals of a block with an arc.
fn arc_goals(
    slots: &[Option<AxisId>; 3],
    conditions: &Conditions,
    targets: &Targets,
    sides: &(Side, Side),
) -> [Option<Goal>; AXIS_LIMIT]
    ensures { (h : ConditionsView) → AreInForce h conditions.now
        → result ≡ model.arc_goals slots.now h targets.now sides.now }
{
    let mut goals = [None; AXIS_LIMIT];
    put_goals(&mut goals, slots, conditions, targets);
    staying(staying(goals, sides.0.moved), sides.1.moved)
}

/// Twice a value in millimetres, in millionths.
fn doubled(value: Num) -> i64
    ensures { result ≡ value *ℤ pos 2 }
{
    value.millionths * 2
}

/// A value without its sign.
fn unsigned(value: Num) -> Num
    ensures { result ≡ pos (unsigned_abs value) }
{
    Num {
        millionths: value.millionths.abs(),
    }
}

/// By how much X, Y or Z goes through the frame of the block.
fn change_in(conditions: &Conditions, axis: u8, twice: i64) -> Goal
    requires { axis < 3 }
    ensures { (h : ConditionsView) → AreInForce h conditions.now
        → result ≡ change_to (change_of (image_of (chain_in h) axis) twice) }
{
    change_through(&frame_in(conditions), axis, twice)
}

/// Where a word sends the centre.
fn goal_of_word(conditions: &Conditions, axis: u8, programmed: Programmed) -> Goal
    requires { axis < 3 }
    ensures { (h : ConditionsView) → AreInForce h conditions.now → result ≡ model.goal_of_word h axis programmed }
{
    match programmed.measure {
        Measure::Absolute => goal_through(conditions, axis, programmed),
        _ => change_in(conditions, axis, doubled(programmed.value)),
    }
}

/// Where the centre goes from the start, on an axis with this word.
fn centre_goal(conditions: &Conditions, axis: u8, programmed: Option<Programmed>) -> Goal
    requires { axis < 3 }
    ensures { (h : ConditionsView) → AreInForce h conditions.now → result ≡ model.centre_goal h axis programmed }
{
    match programmed {
        Some(programmed) => goal_of_word(conditions, axis, programmed),
        None => Goal::By(Um { micrometres: 0 }),
    }
}

/// Where the centre goes from the start, on an axis of the plane.
fn goal_on(conditions: &Conditions, words: &ArcWords, side: &Side) -> Goal
    ensures { (h : ConditionsView) → AreInForce h conditions.now → result ≡ model.goal_on h words.now side.now }
{
    centre_goal(conditions, side.axis, centre_word(words, side.axis))
}

/// A place in range.
fn placed(micrometres: i32) -> Option<Um>
    ensures place { result ≡ model.place_in_range micrometres }
    ensures range { IfSome result IsPosition }
{
    if is_position(micrometres) {
        Some(Um { micrometres })
    } else {
        None
    }
}

/// Where a goal leads from the start, if that is in range.
fn place_from(start: Um, goal: Goal) -> Option<Um>
    ensures place { result ≡ model.place_from start goal }
    ensures range { IfSome result IsPosition }
{
    match goal {
        Goal::To(end) => placed(end.micrometres),
        Goal::By(change) => placed(start.micrometres + change.micrometres),
        Goal::TooFar => None,
    }
}

/// The arc about a centre at two places.
#[tactic(auto, using(crate::proofs::ArcAxes::about_axes))]
fn arc_about_places(
    ends: &Ends,
    sides: &(Side, Side),
    first: Option<Um>,
    second: Option<Um>,
) -> Result<Motion, u16>
    requires ends { AreSound ends.now }
    requires plane { HavePlane ends.now sides.now.0.moved sides.now.1.moved }
    requires first { IfSome first IsPosition }
    requires second { IfSome second IsPosition }
    ensures value { result ≡ model.arc_about_places ends.now sides.now first second }
    ensures axes { IfOk result (λ motion. axes_of motion ≡ ends.now.axes) }
{
    match (first, second) {
        (Some(first), Some(second)) => {
            arc_by_centre(ends, sides.0.moved, sides.1.moved, (first, second))
        }
        _ => Err(OUT_OF_RANGE),
    }
}

/// The arc about the centre of its words.
#[tactic(auto, unfolding(crate::specs::Arcs::arc_by_words))]
fn arc_by_words(
    conditions: &Conditions,
    at: &Positions,
    words: &ArcWords,
    sides: &(Side, Side),
    ends: &Ends,
) -> Result<Motion, u16>
    requires ends { AreSound ends.now }
    requires plane { HavePlane ends.now sides.now.0.moved sides.now.1.moved }
    ensures value { (h : ConditionsView) → AreInForce h conditions.now
        → result ≡ model.arc_by_words h (stands_at at.now) words.now sides.now ends.now }
    ensures axes { IfOk result (λ motion. axes_of motion ≡ ends.now.axes) }
{
    let first = goal_on(conditions, words, &sides.0);
    let second = goal_on(conditions, words, &sides.1);
    arc_about_places(
        ends,
        sides,
        place_from(stands(at, sides.0.moved), first),
        place_from(stands(at, sides.1.moved), second),
    )
}

/// The size of a change, if it is in range.
fn size_of(goal: Goal) -> Option<Um>
    ensures size { result ≡ model.size_of goal }
    ensures range { IfSome result (λ size. IsPosition size × (pos 0 ≤ℤ size)) }
{
    match goal {
        Goal::By(change) if is_position(change.micrometres) => Some(Um {
            micrometres: change.micrometres.abs(),
        }),
        _ => None,
    }
}

/// A radius after the frame, without its sign.
fn radius_of(conditions: &Conditions, axis: u8, radius: Num) -> Option<Um>
    requires { axis < 3 }
    ensures radius { (h : ConditionsView) → AreInForce h conditions.now → result ≡ model.radius_of h axis radius }
    ensures range { IfSome result (λ size. IsPosition size × (pos 0 ≤ℤ size)) }
{
    size_of(change_in(conditions, axis, doubled(unsigned(radius))))
}

/// The arc of a size, the longer one or not.
#[tactic(auto, using(crate::proofs::ArcAxes::radius_axes))]
fn arc_of_size(
    ends: &Ends,
    sides: &(Side, Side),
    long: bool,
    size: Option<Um>,
) -> Result<Motion, u16>
    requires ends { AreSound ends.now }
    requires plane { HavePlane ends.now sides.now.0.moved sides.now.1.moved }
    requires size { IfSome size (λ size. IsPosition size × (pos 0 ≤ℤ size)) }
    ensures value { result ≡ model.arc_of_size ends.now sides.now long size }
    ensures axes { IfOk result (λ motion. axes_of motion ≡ ends.now.axes) }
{
    match size {
        Some(size) => arc_by_radius(ends, sides.0.moved, sides.1.moved, size, long),
        None => Err(OUT_OF_RANGE),
    }
}

/// The arc by its radius.
#[tactic(auto, unfolding(crate::specs::Arcs::arc_by_size))]
fn arc_by_size(
    conditions: &Conditions,
    radius: Num,
    sides: &(Side, Side),
    ends: &Ends,
) -> Result<Motion, u16>
    requires ends { AreSound ends.now }
    requires plane { HavePlane ends.now sides.now.0.moved sides.now.1.moved }
    ensures value { (h : ConditionsView) → AreInForce h conditions.now
        → result ≡ model.arc_by_size h radius sides.now ends.now }
    ensures axes { IfOk result (λ motion. axes_of motion ≡ ends.now.axes) }
{
    let long = radius.millionths < 0;
    arc_of_size(
        ends,
        sides,
        long,
        radius_of(conditions, sides.0.axis, radius),
    )
}

/// The arc as its words give it.
fn arc_given(
    conditions: &Conditions,
    at: &Positions,
    words: &ArcWords,
    sides: &(Side, Side),
    ends: &Ends,
) -> Result<Motion, u16>
    requires ends { AreSound ends.now }
    requires plane { HavePlane ends.now sides.now.0.moved sides.now.1.moved }
    ensures value { (h : ConditionsView) → AreInForce h conditions.now
        → result ≡ model.arc_given h (stands_at at.now) words.now words.now.radius sides.now ends.now }
    ensures axes { IfOk result (λ motion. axes_of motion ≡ ends.now.axes) }
{
    match words.radius {
        Some(radius) => arc_by_size(conditions, radius, sides, ends),
        None => arc_by_words(conditions, at, words, sides, ends),
    }
}

/// Whether each axis starts and ends in range.
fn run_in_range(ends: &Ends) -> bool
    ensures { result ≡ model.run_in_range ends.now }
{
    ends.axes.as_slice().iter().all(|e| is_position(e.1.micrometres)
        && is_position(e.2.micrometres))
}

/// Whether a side is among the axes.
fn is_moved(ends: &Ends, side: &Side) -> bool
    ensures { result ≡ model.is_moved ends.now side.now }
{
    let moved = side.moved;
    ends.axes.as_slice().iter().any(|e| e.0 == moved)
}

/// Whether the ends can be those of an arc.
fn can_run(sides: &(Side, Side), ends: &Ends) -> bool
    ensures { result ≡ model.can_run sides.now ends.now }
{
    run_in_range(ends)
        && is_moved(ends, &sides.0)
        && is_moved(ends, &sides.1)
        && sides.0.moved != sides.1.moved
}

/// A block with an arc: what it programs, the axes of its channel, and what holds in it.
#[derive(Drop)]
struct ArcBlock<'a> {
    axes: &'a ChannelAxes,
    conditions: &'a Conditions,
    targets: &'a Targets,
    words: &'a ArcWords,
}

impl<'a> ArcBlock<'a> {
    /// Gives the arc to these goals, or alarms.
    #[tactic(auto, unfolding(crate::specs::Arcs::arc_to))]
    fn arc_to(
        &self,
        sides: &(Side, Side),
        goals: &[Option<Goal>; AXIS_LIMIT],
        at: &mut Positions,
    ) -> Result<Option<Motion>, u16>
        ensures made { (h : ConditionsView) → AreInForce h self.now.conditions.now
            → result ≡ model.arc_to self.now.axes.now.owned h (stands_at at.old) self.now.words.now sides.now
            goals.now }
        ensures stand { IfOk result (λ motion. StandsAtEndOf motion at.old at.new) }
        ensures unmoved { OnErr result (at.new ≡ at.old) }
    {
        let owned = self.axes.owned;
        if !are_in_reach(owned, at, goals) {
            return Err(OUT_OF_RANGE);
        }
        if !are_own(owned, goals) {
            return Err(AXIS_NOT_OWNED);
        }
        let mut moved = *at;
        let ends = move_axes(goals, &mut moved);
        if !can_run(sides, &ends) {
            return Err(OUT_OF_RANGE);
        }
        match arc_given(self.conditions, at, self.words, sides, &ends) {
            Ok(motion) => {
                *at = moved;
                Ok(Some(motion))
            }
            Err(alarm) => Err(alarm),
        }
    }

    /// Gives the arc between two axes of a plane.
    fn arc_between(&self, plane: Plane, at: &mut Positions) -> Result<Option<Motion>, u16>
        ensures made { (h : ConditionsView) → AreInForce h self.now.conditions.now
            → result ≡ model.arc_between self.now.axes.now.slots self.now.axes.now.owned h (stands_at at.old)
            self.now.targets.now self.now.words.now plane (model.sides_in self.now.axes.now.slots h plane) }
        ensures stand { IfOk result (λ motion. StandsAtEndOf motion at.old at.new) }
        ensures unmoved { OnErr result (at.new ≡ at.old) }
    {
        let slots = &self.axes.slots;
        let conditions = self.conditions;
        match sides_in(slots, conditions, plane) {
            Some(sides) => {
                if is_off_plane(conditions) {
                    return Err(TOOL_PLANE);
                }
                if !have_one_factor(conditions, plane) {
                    return Err(ARC_SCALE);
                }
                let goals = arc_goals(slots, conditions, self.targets, &sides);
                let turned = in_turn(is_backward(conditions, plane), sides);
                self.arc_to(&turned, &goals, at)
            }
            None => Err(NO_SUCH_AXIS),
        }
    }

    /// Gives the arc of words that can be one.
    #[tactic(auto, unfolding(crate::specs::Arcs::arc_through))]
    fn arc_through(&self, plane: Plane, at: &mut Positions) -> Result<Option<Motion>, u16>
        ensures made { (h : ConditionsView) → AreInForce h self.now.conditions.now
            → result ≡ model.arc_through self.now.axes.now.slots self.now.axes.now.owned h (stands_at at.old)
            self.now.targets.now self.now.words.now plane }
        ensures stand { IfOk result (λ motion. StandsAtEndOf motion at.old at.new) }
        ensures unmoved { OnErr result (at.new ≡ at.old) }
    {
        if !have_axes(&self.axes.slots, self.conditions, &self.targets.slots) {
            return Err(NO_SUCH_AXIS);
        }
        self.arc_between(plane, at)
    }
}

/// Gives the motion of a block with an arc, and takes the axes to its ends. The arc turns as G2 says where that is the word of its group, and else as G3. A block that programs no
/// axis and no centre has no motion, and no alarm.
///
/// The plane is that of G17, G18 or G19, with the axes X and Y, Z and X, or Y and Z. G3 turns from
/// the first towards the second, G2 against that, each as the frame maps the plane. Both axes of
/// the plane are of the motion; one that is not programmed stays. I, J and K are changes from the
/// start, whatever G90 and G91 say, and never diameters; with AC they are read as ends, with the length of the tool. The alarms
/// come in this order, and after one no axis has moved:
///
/// - 18: there is neither or both of a centre and a radius, or the radius is 0.
/// - 19: the centre has a word of the axis that is not of the plane.
/// - 14: the frame sends X, Y or Z, if it is programmed or of the plane, to a slot without axis.
/// - 35: a length of the tool is not 0, under G17 or G19.
/// - 23: the frame has two factors in the plane.
/// - 13: an axis would end, with the length of the tool or without it, more than 10,000,000 micrometres from 0, or change by more than
///   20,000,000. Of an axis that is not owned a change is tested alone.
/// - 15: an axis is not owned.
/// - 13: the centre or the radius is more than 10,000,000 micrometres in size, or, as in no job, an
///   axis starts so far out or stands in both slots of the plane.
/// - 20, 21, 22, and 13 for a centre by the radius: those of `arc_by_centre` and `arc_by_radius`.
#[tactic(auto, unfolding(crate::specs::Arcs::arc_motion))]
pub fn arc_motion(
    axes: &ChannelAxes,
    conditions: &Conditions,
    targets: &Targets,
    words: &ArcWords,
    at: &mut Positions,
) -> Result<Option<Motion>, u16>
    ensures made { (h : ConditionsView) → AreInForce h conditions.now
        → result ≡ model.arc_motion axes.now.slots axes.now.owned h (stands_at at.old) targets.now words.now }
    ensures stand { IfOk result (λ motion. StandsAtEndOf motion at.old at.new) }
    ensures unmoved { OnErr result (at.new ≡ at.old) }
{
    if !moves_arc(targets, words) {
        return Ok(None);
    }
    if !is_given(words) {
        return Err(ARC_WORDS);
    }
    let plane = plane_of(conditions);
    if !is_in_plane(plane, words) {
        return Err(CENTRE_OUTSIDE_PLANE);
    }
    let block = ArcBlock {
        axes,
        conditions,
        targets,
        words,
    };
    block.arc_through(plane, at)
}
