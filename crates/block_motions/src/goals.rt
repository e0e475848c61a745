//! What a block programs for axes, what holds in it, and where the axes are to go.

ghost use Rattle.std.specs.Prelude.{◌≡◌, ◌<◌, ◌==◌, ℕ, List, None, map, option_map, slice_index_or};
ghost use Rattle.frames.specs.Composition.{IsComposed};
ghost use Rattle.frames.specs.Images.{image_of};
ghost use Rattle.frames.specs.Maps.{Map, mapped_point};
ghost use Rattle.frames.specs.Places.{programmed_point, end_at, change_of};
ghost use Rattle.g_groups.specs.Groups.{HasModalValue};
ghost use Rattle.g_groups.specs.declared.numbers.TheConstants.{BLOCK_GROUP};
ghost use Rattle.micro_units.specs.Rounding.{half_away};
ghost use Rattle.block_motions.specs.Goals as model;
ghost use Rattle.block_motions.specs.Goals.{ConditionsView, AreInForce};

use axis_sets::{AXIS_LIMIT, AxisId};
use frames::Frame;
use g_groups::{BLOCK_GROUP, DIAM90, DIAMETER_GROUP, DIAMON, DIMENSION_GROUP, Modal, PLANE_GROUP};
use micro_units::{Num, Um, is_position};
use nc_blocks::Measure;

/// A value that is programmed for an axis, in millimetres.
#[derive(Clone, Copy, PartialEq, Eq)]
pub struct Programmed {
    /// How it is meant.
    pub measure: Measure,
    /// The value.
    pub value: Num,
}

/// What a block programs.
#[derive(Clone, Copy)]
pub struct Targets {
    /// The values of X, Y and Z.
    pub slots: [Option<Programmed>; 3],
    /// The values of axes by their own names, by the numbers of the axes.
    pub axes: [Option<Programmed>; AXIS_LIMIT],
}

/// What holds in a block.
#[derive(Clone, Copy)]
pub struct Conditions {
    /// The words of groups, its own among them.
    pub modal: Modal,
    /// The programmable frame.
    pub frame: Frame,
    /// The settable offsets of the slots X, Y and Z under the word of their group, in micrometres.
    pub offsets: [Um; 3],
    /// The lengths of the tool in the slots X, Y and Z, in micrometres.
    pub lengths: [Um; 3],
}

/// Where an axis is to go.
#[derive(Clone, Copy, PartialEq, Eq)]
pub(crate) enum Goal {
    /// To this position, in micrometres.
    To(Um),
    /// On by so much, in micrometres.
    By(Um),
    /// Farther than any axis may go.
    TooFar,
}

/// The code of the word of a group that holds in the block.
pub fn word(conditions: &Conditions, group: u8) -> u16
    requires { HasModalValue group }
    ensures { (h : ConditionsView) → AreInForce h conditions.now → result ≡ h.word group }
{
    conditions.modal.word(group)
}

/// Whether the frame and the offsets hold in the block.
#[tactic(auto, using(crate::proofs::HeldWords::has_block_word))]
fn is_in_frame(conditions: &Conditions) -> bool
    ensures { (h : ConditionsView) → AreInForce h conditions.now → result ≡ (h.word BLOCK_GROUP == 0) }
{
    word(conditions, BLOCK_GROUP) == 0
}

/// The frame of the block.
pub(crate) fn frame_in(conditions: &Conditions) -> Frame
    ensures { (h : ConditionsView) → AreInForce h conditions.now → IsComposed (model.chain_in h) result }
{
    if is_in_frame(conditions) {
        conditions.frame
    } else {
        Frame::empty()
    }
}

/// The offset of a slot in the block.
fn offset_in(conditions: &Conditions, slot: u8) -> Um
    requires { slot < 3 }
    ensures { (h : ConditionsView) → AreInForce h conditions.now → result ≡ model.offset_in h slot }
{
    if !is_in_frame(conditions) {
        return Um { micrometres: 0 };
    }
    conditions.offsets[usize::from(slot)]
}

/// The length of the tool in a slot.
fn length_in(conditions: &Conditions, slot: u8) -> Um
    requires { slot < 3 }
    ensures { (h : ConditionsView) → AreInForce h conditions.now → result ≡ h.length slot }
{
    conditions.lengths[usize::from(slot)]
}

/// Whether a tool of some length is used, under G17 or G19.
#[tactic(auto, using(crate::proofs::HeldWords::has_plane_word))]
pub(crate) fn is_off_plane(conditions: &Conditions) -> bool
    ensures { (h : ConditionsView) → AreInForce h conditions.now → result ≡ model.is_off_plane h }
{
    let code = word(conditions, PLANE_GROUP);
    let [x, _, z] = conditions.lengths;
    (code == 17 || code == 19) && !(x.micrometres == 0 && z.micrometres == 0)
}

/// Whether a value is a change of a position.
#[tactic(auto, using(crate::proofs::HeldWords::has_measure_word))]
fn is_change(conditions: &Conditions, measure: Measure) -> bool
    ensures { (h : ConditionsView) → AreInForce h conditions.now → result ≡ model.is_change h measure }
{
    match measure {
        Measure::Modal => word(conditions, DIMENSION_GROUP) == 91,
        Measure::Absolute => false,
        Measure::Incremental => true,
    }
}

/// Whether a value of X, Y or Z, which is a change or not, is a diameter.
#[tactic(auto, using(crate::proofs::HeldWords::has_diameter_word))]
fn is_diameter(conditions: &Conditions, axis: u8, change: bool) -> bool
    ensures { (h : ConditionsView) → AreInForce h conditions.now → result ≡ model.is_diameter h axis change }
{
    let code = word(conditions, DIAMETER_GROUP);
    axis == 0 && (code == DIAMON || (code == DIAM90 && !change))
}

/// Twice the value that goes through the frame, in millionths of a millimetre.
fn twice_of(conditions: &Conditions, axis: u8, programmed: Programmed) -> i64
    ensures { (h : ConditionsView) → AreInForce h conditions.now → result ≡ model.twice_of h axis programmed }
{
    let change = is_change(conditions, programmed.measure);
    let value = programmed.value.millionths;
    if is_diameter(conditions, axis, change) {
        value
    } else {
        value * 2
    }
}

/// The slot to which a frame sends X, Y or Z.
fn slot_of(frame: &Frame, axis: u8) -> u8
    requires { axis < 3 }
    ensures slot { (chain : List Map) → IsComposed chain frame.now → result ≡ (image_of chain axis).slot }
    ensures bound { result < 3 }
{
    let (slot, _, _) = frame.image(axis);
    slot
}

/// By how much X, Y or Z goes through the frame.
pub(crate) fn change_through(frame: &Frame, axis: u8, twice: i64) -> Goal
    requires { axis < 3 }
    ensures { (chain : List Map) → IsComposed chain frame.now
        → result ≡ model.change_by (change_of (image_of chain axis) twice) }
{
    match frame.point(axis, twice, Um { micrometres: 0 }, true) {
        Ok((_, change)) => Goal::By(change),
        Err(_) => Goal::TooFar,
    }
}

/// Where X, Y or Z goes through the frame, with the offset of its slot.
fn place_through(frame: &Frame, axis: u8, twice: i64, offset: Um) -> Goal
    requires { axis < 3 }
    ensures { (chain : List Map) → IsComposed chain frame.now
        → let point = mapped_point chain (programmed_point (model.on_axis axis twice)) in
        result ≡ model.position_at (end_at point (image_of chain axis).slot offset) }
{
    match frame.point(axis, twice, offset, false) {
        Ok((_, place)) => Goal::To(place),
        Err(_) => Goal::TooFar,
    }
}

/// To so many micrometres.
fn goal_to(micrometres: i32) -> Goal
    ensures { result ≡ model.position_at micrometres }
{
    if is_position(micrometres) {
        Goal::To(Um { micrometres })
    } else {
        Goal::TooFar
    }
}

/// A goal with a length more, where it is a position.
fn lengthened(length: Um, goal: Goal) -> Goal
    ensures { result ≡ model.lengthened length goal }
{
    match goal {
        Goal::To(at) => goal_to(at.micrometres + length.micrometres),
        Goal::By(change) => Goal::By(change),
        Goal::TooFar => Goal::TooFar,
    }
}

/// On by a value.
fn change_by(value: Num) -> Goal
    ensures { result ≡ model.change_by (half_away value 1000) }
{
    match value.to_um() {
        Ok(change) => Goal::By(change),
        Err(_) => Goal::TooFar,
    }
}

/// To a value.
fn position_at(value: Num) -> Goal
    ensures { result ≡ model.position_at (half_away value 1000) }
{
    match value.to_um() {
        Ok(end) if is_position(end.micrometres) => Goal::To(end),
        _ => Goal::TooFar,
    }
}

/// The goal of X, Y or Z with this value, through the frame of the block. An end has the length of the tool in its slot, which
/// the frame does not turn and does not scale.
fn goal_in(conditions: &Conditions, frame: &Frame, axis: u8, programmed: Programmed) -> Goal
    requires { axis < 3 }
    ensures { (h : ConditionsView) → AreInForce h conditions.now → IsComposed (model.chain_in h) frame.now
        → result ≡ model.goal_through h axis programmed }
{
    let change = is_change(conditions, programmed.measure);
    let twice = twice_of(conditions, axis, programmed);
    if change {
        change_through(frame, axis, twice)
    } else {
        let slot = slot_of(frame, axis);
        let offset = offset_in(conditions, slot);
        let place = place_through(frame, axis, twice, offset);
        lengthened(length_in(conditions, slot), place)
    }
}

/// The goal of X, Y or Z with this value, through the frame.
pub(crate) fn goal_through(conditions: &Conditions, axis: u8, programmed: Programmed) -> Goal
    requires { axis < 3 }
    ensures { (h : ConditionsView) → AreInForce h conditions.now → result ≡ model.goal_through h axis programmed }
{
    goal_in(conditions, &frame_in(conditions), axis, programmed)
}

/// The goal of an axis by its own name.
fn goal_by_name(conditions: &Conditions, programmed: Programmed) -> Goal
    ensures { (h : ConditionsView) → AreInForce h conditions.now → result ≡ model.goal_by_name h programmed }
{
    if is_change(conditions, programmed.measure) {
        change_by(programmed.value)
    } else {
        position_at(programmed.value)
    }
}

/// The axis that X, Y or Z moves through a frame, of those in the slots.
fn axis_through(slots: &[Option<AxisId>; 3], frame: &Frame, axis: u8) -> Option<AxisId>
    requires { axis < 3 }
    ensures { (h : ConditionsView) → IsComposed (model.chain_in h) frame.now
        → result ≡ model.axis_in slots.now h axis }
{
    slots[usize::from(slot_of(frame, axis))]
}

/// How X, Y and Z come to the axes of a channel: through the frame of a block to its slots.
#[derive(Drop)]
struct Passage<'a> {
    slots: &'a [Option<AxisId>; 3],
    conditions: &'a Conditions,
    frame: Frame,
}

impl<'a> Passage<'a> {
    /// The axis that X, Y or Z moves.
    fn axis(&self, axis: u8) -> Option<AxisId>
        requires { axis < 3 }
        ensures { (h : ConditionsView) → IsComposed (model.chain_in h) self.now.frame
            → result ≡ model.axis_in self.now.slots.now h axis }
    {
        axis_through(self.slots, &self.frame, axis)
    }

    /// Whether X, Y or Z has an axis that it moves, or is not programmed.
    fn has_axis(&self, axis: u8, programmed: Option<Programmed>) -> bool
        requires { axis < 3 }
        ensures { (h : ConditionsView) → IsComposed (model.chain_in h) self.now.frame
            → result ≡ model.has_axis self.now.slots.now h axis programmed }
    {
        programmed.is_none() || self.axis(axis).is_some()
    }

    /// Puts the goal of X, Y or Z among the goals, if it is programmed and moves an axis.
    fn put_goal(
        &self,
        goals: &mut [Option<Goal>; AXIS_LIMIT],
        axis: u8,
        programmed: Option<Programmed>,
    )
        requires { axis < 3 }
        ensures { (h : ConditionsView) → AreInForce h self.now.conditions.now
            → IsComposed (model.chain_in h) self.now.frame
            → goals.new ≡ model.with_goal self.now.slots.now h axis programmed goals.old }
    {
        if let Some(programmed) = programmed {
            if let Some(moved) = self.axis(axis) {
                let goal = goal_in(self.conditions, &self.frame, axis, programmed);
                goals[usize::from(moved.index)] = Some(goal);
            }
        }
    }
}

/// The axis that X, Y or Z moves.
pub(crate) fn axis_in(
    slots: &[Option<AxisId>; 3],
    conditions: &Conditions,
    axis: u8,
) -> Option<AxisId>
    requires { axis < 3 }
    ensures { (h : ConditionsView) → AreInForce h conditions.now → result ≡ model.axis_in slots.now h axis }
{
    let frame = frame_in(conditions);
    let passage = Passage {
        slots,
        conditions,
        frame,
    };
    passage.axis(axis)
}

/// Whether each of X, Y and Z that is programmed has an axis that it moves.
#[tactic(auto, unfolding(crate::specs::Goals::have_axes))]
pub(crate) fn have_axes(
    slots: &[Option<AxisId>; 3],
    conditions: &Conditions,
    values: &[Option<Programmed>; 3],
) -> bool
    ensures { (h : ConditionsView) → AreInForce h conditions.now → result ≡ model.have_axes slots.now h values.now }
{
    let frame = frame_in(conditions);
    let passage = Passage {
        slots,
        conditions,
        frame,
    };
    passage.has_axis(0, values[0])
        && passage.has_axis(1, values[1])
        && passage.has_axis(2, values[2])
}

/// Puts the goal of an axis by its own name in its place, if it is programmed.
fn put_named(place: &mut Option<Goal>, conditions: &Conditions, programmed: Option<Programmed>)
    requires { place.old ≡ None }
    ensures { (h : ConditionsView) → AreInForce h conditions.now
        → place.new ≡ option_map (model.goal_by_name h) programmed }
{
    if let Some(programmed) = programmed {
        *place = Some(goal_by_name(conditions, programmed));
    }
}

/// Puts the goals of axes by their own names.
fn put_named_goals(
    goals: &mut [Option<Goal>; AXIS_LIMIT],
    conditions: &Conditions,
    axes: &[Option<Programmed>; AXIS_LIMIT],
)
    requires { (axis : ℕ) → slice_index_or goals.old axis None ≡ None }
    ensures { (h : ConditionsView) → AreInForce h conditions.now
        → goals.new ≡ map (λ value. option_map (model.goal_by_name h) value) axes.now }
{
    for index in 0..AXIS_LIMIT {
        put_named(&mut goals[index], conditions, axes[index]);
    }
}

/// Puts the goals of a block by the numbers of the axes.
#[tactic(auto, unfolding(crate::specs::Goals::goals_of))]
pub(crate) fn put_goals(
    goals: &mut [Option<Goal>; AXIS_LIMIT],
    slots: &[Option<AxisId>; 3],
    conditions: &Conditions,
    targets: &Targets,
)
    requires { (axis : ℕ) → slice_index_or goals.old axis None ≡ None }
    ensures { (h : ConditionsView) → AreInForce h conditions.now → goals.new ≡ model.goals_of slots.now h targets.now }
{
    let [x, y, z] = targets.slots;
    let frame = frame_in(conditions);
    let passage = Passage {
        slots,
        conditions,
        frame,
    };
    put_named_goals(goals, conditions, &targets.axes);
    passage.put_goal(goals, 0, x);
    passage.put_goal(goals, 1, y);
    passage.put_goal(goals, 2, z);
}
