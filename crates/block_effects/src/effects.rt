//! What a block does.

ghost use Rattle.std.specs.Prelude.{◌≡◌, ◌++◌, ◌∷◌, [], All, IsTrue, IfOk, List, OnErr, None, map, not, option_map};
ghost use Rattle.block_motions.specs.Goals.{ConditionsView, AreInForce};
ghost use Rattle.axis_sets.specs.Positions.{stands};
ghost use Rattle.block_motions.specs.Motions.{StandsAtEndOf, given_motion};
ghost use Rattle.sync_types.specs.Items.{StandsAtEnd};
ghost use Rattle.frames.specs.Composition.{IsComposed};
ghost use Rattle.frames.specs.Maps.{Map};
ghost use Rattle.g_groups.specs.Modal.{IsAfter, has_group_twice};
ghost use Rattle.g_groups.specs.declared.GWord.{GWord};
ghost use Rattle.nc_blocks.specs.Indices.{FitsValues, WordFits};
ghost use Rattle.nc_blocks.specs.Statement.{statement_view, word_view};
ghost use Rattle.block_effects.specs.Effects as model;
ghost use Rattle.block_effects.specs.Courses.{answer_with, equipment_of, course_view, ActsAll, DoesAsDefined, ModalIsAfter, RunsAsDefined, RunsUnder, Turns, WordsRunUnder};
ghost use Rattle.block_effects.specs.Words.{TellsOfMoves, edges_of, progress_of, values_in};
ghost use Rattle.tool_offsets.specs.Choices.{Choice, in_use_after};

use crate::control::{begin_for, called, choice, conditional, continue_for, jumped, leap, repeat};
use crate::course::{BlockFault, Course, Done, Setup};
use crate::groups::{conditions, group_words, plane_in, stands_still};
use crate::parameters::Parameters;
use crate::progress::WordsDone;
use crate::shapes::{shape, turn};
use crate::situation::Situation;
use axis_sets::Positions;
use block_motions::{
    ArcWords, ChannelAxes, Conditions, Targets, arc_motion, is_any, straight_motion, word,
};
use fault_codes::alarms::ARC_WORDS;
use frames::Frame;
use g_groups::{BLOCK_GROUP, GWord, MOTION_GROUP, Modal, apply};
use nc_blocks::{Stmt, Word};
use nc_control_flow::Outcome;
use path_geometry::Motion;
use std::alloc::Global;
use sync_types::{Item, Part};
use tool_offsets::Lengths;

/// The course of a block of words.
fn course_of<'a>(ends: bool) -> Course<'a>
    ensures { course_view result ≡ model.course_of ends }
{
    if ends {
        Course::Ends
    } else {
        Course::Goes(Outcome::Plain)
    }
}

/// Whether a block makes an arc.
#[tactic(auto, using(block_motions::proofs::HeldWords::has_motion_word))]
fn is_arc(conditions: &Conditions) -> bool
    ensures { (h : ConditionsView) → AreInForce h conditions.now → result ≡ model.is_arc h }
{
    let code = word(conditions, MOTION_GROUP);
    code == 2 || code == 3
}

/// Whether there are words of an arc that may not stand where there is none.
#[tactic(auto, using(block_motions::proofs::HeldWords::has_motion_word))]
fn has_stray_words(conditions: &Conditions, arc: &ArcWords) -> bool
    ensures { (h : ConditionsView) → AreInForce h conditions.now → result ≡ model.has_stray_words h arc.now }
{
    arc.radius.is_some() || (word(conditions, MOTION_GROUP) != 33 && is_any(&arc.centre))
}

/// Puts the motion of a block in its place: an arc, or else a straight line or a rapid.
fn make_motion(
    axes: &ChannelAxes,
    conditions: &Conditions,
    targets: &Targets,
    arc: &ArcWords,
    at: &mut Positions,
    motion: &mut Option<Motion>,
) -> Result<(), u16>
    requires { motion.old ≡ None }
    ensures made { (h : ConditionsView) → AreInForce h conditions.now
        → given_motion motion.new result ≡ model.motion_made axes.now.slots axes.now.owned h
        (stands at.old) targets.now arc.now }
    ensures stand { IfOk result (λ _. StandsAtEndOf motion.new at.old at.new) }
    ensures unmoved { OnErr result (at.new ≡ at.old) }
{
    if is_arc(conditions) {
        *motion = arc_motion(axes, conditions, targets, arc, at)?;
        Ok(())
    } else {
        straight_motion(axes, conditions, targets, at, motion)
    }
}

/// Moves the axes as the words of the block say, unless it has a word under which they stand still.
#[tactic(auto, unfolding(crate::specs::Effects::moved_or_still))]
fn move_programmed(
    axes: &ChannelAxes,
    conditions: &Conditions,
    groups: &[GWord],
    targets: &Targets,
    arc: &ArcWords,
    at: &mut Positions,
    motion: &mut Option<Motion>,
) -> Result<(), u16>
    requires { motion.old ≡ None }
    ensures made { (h : ConditionsView) → AreInForce h conditions.now
        → given_motion motion.new result ≡ model.moved_or_still axes.now.slots axes.now.owned h (stands at.old)
        groups.now targets.now arc.now }
    ensures stand { IfOk result (λ _. StandsAtEndOf motion.new at.old at.new) }
    ensures unmoved { OnErr result (at.new ≡ at.old) }
{
    if !is_arc(conditions) && has_stray_words(conditions, arc) {
        return Err(ARC_WORDS);
    }
    if stands_still(groups) {
        return Ok(());
    }
    make_motion(axes, conditions, targets, arc, at, motion)
}

/// Moves the axes as the words of the block say.
fn move_axes<S: Setup>(
    setup: &S,
    axes: &ChannelAxes,
    modal: &Modal,
    frame: &Frame,
    lengths: Lengths,
    groups: &[GWord],
    targets: &Targets,
    arc: &ArcWords,
    at: &mut Positions,
    motion: &mut Option<Motion>,
) -> Result<(), u16>
    requires { motion.old ≡ None }
    ensures made { (blocks : List (List GWord)) (chain : List Map)
        → IsAfter blocks modal.now → IsComposed chain frame.now
        → given_motion motion.new result ≡ model.moved_or_still axes.now.slots axes.now.owned
        (model.held_after (S.offset setup.now) blocks chain lengths) (stands at.old) groups.now targets.now arc.now }
    ensures stand { IfOk result (λ _. StandsAtEndOf motion.new at.old at.new) }
    ensures unmoved { OnErr result (at.new ≡ at.old) }
{
    let conditions = conditions(setup, modal, frame, lengths);
    move_programmed(axes, &conditions, groups, targets, arc, at, motion)
}

/// Does what these words of a block say, from left to right, and then moves the axes as all its words say. After an alarm
/// nothing of it stands: on the way back each change of a parameter is taken back. The lengths are those of the tool that is in
/// use after all words.
fn run_from<S: Setup>(
    setup: &S,
    axes: &ChannelAxes,
    modal: &Modal,
    frame: &Frame,
    groups: &[GWord],
    words: &[Word],
    parameters: &mut Parameters,
    at: &mut Positions,
    done: &mut WordsDone,
) -> Result<(), u16>
    requires fits { All WordFits (map word_view words.now) }
    requires told { TellsOfMoves done.old }
    ensures acts { (blocks : List (List GWord)) (chain : List Map) (choices : List Choice)
        → IsAfter blocks modal.now → IsComposed chain frame.now
        → let equipment = equipment_of (S.names setup.now) (S.axis_named setup.now) (S.offset setup.now)
        (S.tools setup.now) axes.now in
        done.old.tool ≡ in_use_after (edges_of equipment) choices
        → ActsAll (edges_of equipment) (model.words_then_motion equipment
        (model.held_after (S.offset setup.now) blocks chain) (stands at.old) groups.now
        (progress_of parameters.old choices done.old) (map word_view words.now)) result parameters.new done.new }
    ensures stand { IfOk result (λ _. StandsAtEndOf done.new.motion at.old at.new) }
    ensures parameters { OnErr result (parameters.new ≡ parameters.old) }
    ensures at { OnErr result (at.new ≡ at.old) }
{
    let [word, others @ ..] = words else {
        done.motion = None;
        if done.moves {
            let lengths = done.tool.lengths;
            let (targets, arc) = (&done.targets, &done.arc);
            let motion = &mut done.motion;
            move_axes(
                setup, axes, modal, frame, lengths, groups, targets, arc, at, motion,
            )?;
        }
        return Ok(());
    };
    let change = done.act(setup, axes, parameters, word)?;
    match run_from(
        setup, axes, modal, frame, groups, others, parameters, at, done,
    ) {
        Ok(()) => Ok(()),
        Err(code) => {
            parameters.undo_some(change);
            Err(code)
        }
    }
}

/// Takes the motion of a block on this line into its place, if there is one.
#[inline(never)]
fn take_motion(place: &mut Option<Item>, line: u32, motion: &mut Option<Motion>)
    requires { place.old ≡ None }
    ensures { place.new ≡ option_map (model.item_on line) motion.old }
{
    if let Some(motion) = motion.take() {
        *place = Some(Item {
            line,
            part: Part::Move(motion),
        });
    }
}

/// Puts the motion of a block on this line in its place, if it has one. Where it has none, nothing is moved.
fn put_motion(place: &mut Option<Item>, line: u32, motion: &mut Option<Motion>)
    requires { place.old ≡ None }
    ensures { place.new ≡ option_map (model.item_on line) motion.old }
{
    if motion.is_some() {
        take_motion(place, line, motion);
    }
}

/// The words of a block act, and then the axes move. `modal` are the modal words with those of this block.
fn run_words<'a, S: Setup>(
    setup: &S,
    axes: &ChannelAxes,
    modal: &Modal,
    situation: &mut Situation,
    line: u32,
    groups: &[GWord],
    words: &[Word],
    item: &mut Option<Item>,
) -> Result<Course<'a>, u16>
    requires fits { All WordFits (map word_view words.now) }
    requires empty { item.old ≡ None }
    ensures runs { WordsRunUnder modal.now groups.now
        (equipment_of (S.names setup.now) (S.axis_named setup.now) (S.offset setup.now) (S.tools setup.now) axes.now)
        situation.old line (map word_view words.now) (answer_with item.new result) situation.new }
    ensures modal { situation.new.modal ≡ situation.old.modal }
    ensures stand { IfOk result (λ _. StandsAtEnd item.new situation.old.at situation.new.at) }
    ensures unchanged { OnErr result (situation.new ≡ situation.old) }
{
    let mut done = WordsDone::nothing(situation.tool);
    run_from(
        setup,
        axes,
        modal,
        &situation.frame,
        groups,
        words,
        &mut situation.parameters,
        &mut situation.at,
        &mut done,
    )?;
    situation.tool = done.tool;
    put_motion(item, line, &mut done.motion);
    Ok(course_of(done.ends))
}

/// Does what a block that moves no axis and shapes no frame says.
#[tactic(auto, unfolding(crate::specs::Effects::control_effect))]
fn run_control<'a, S: Setup>(
    setup: &S,
    parameters: &mut Parameters,
    opener: &Stmt,
    stmt: &'a Stmt,
) -> Result<Course<'a>, u16>
    requires opener { FitsValues (values_in parameters.old) (statement_view opener.now) }
    requires fits { FitsValues (values_in parameters.old) (statement_view stmt.now) }
    ensures turns { Turns (model.control_effect (S.names setup.now) parameters.old (statement_view opener.now)
        (statement_view stmt.now)) result parameters.new }
    ensures unchanged { OnErr result (parameters.new ≡ parameters.old) }
{
    match stmt {
        Stmt::Jump(target) => Ok(Course::Goes(jumped(target))),
        Stmt::IfJump(condition, target) => leap(parameters, condition, target),
        Stmt::If(condition) | Stmt::While(condition) | Stmt::Until(condition) => {
            conditional(parameters, condition)
        }
        Stmt::For(index, first, bound) => begin_for(parameters, *index, first, bound),
        Stmt::EndFor => continue_for(parameters, opener),
        Stmt::Case(value, pairs, default) => choice(parameters, value, pairs.as_slice(), default),
        Stmt::RepeatFrom(_, times) | Stmt::RepeatBlock(_, times) => repeat(parameters, times),
        Stmt::Call(name, passes) => Ok(Course::Calls(called(setup, name)?, *passes)),
        Stmt::Return => Ok(Course::Ends),
        _ => Ok(Course::Goes(Outcome::Plain)),
    }
}

/// Does what a block says under these modal words, which are those with the words of this block.
#[tactic(auto, unfolding(crate::specs::Effects::effect_of, crate::specs::Effects::group_words))]
fn run_stmt<'a, S: Setup>(
    setup: &S,
    axes: &ChannelAxes,
    modal: &Modal,
    situation: &mut Situation,
    line: u32,
    groups: &[GWord],
    opener: &Stmt,
    stmt: &'a Stmt,
    item: &mut Option<Item>,
) -> Result<Course<'a>, u16>
    requires groups { groups.now ≡ model.group_words (statement_view stmt.now) }
    requires once { IsTrue (not (has_group_twice groups.now)) }
    requires opener { FitsValues (values_in situation.old.parameters) (statement_view opener.now) }
    requires fits { FitsValues (values_in situation.old.parameters) (statement_view stmt.now) }
    requires empty { item.old ≡ None }
    ensures runs { RunsUnder modal.now groups.now
        (equipment_of (S.names setup.now) (S.axis_named setup.now) (S.offset setup.now) (S.tools setup.now) axes.now)
        situation.old line (statement_view opener.now) (statement_view stmt.now) (answer_with item.new result)
        situation.new }
    ensures modal { situation.new.modal ≡ situation.old.modal }
    ensures stand { IfOk result (λ _. StandsAtEnd item.new situation.old.at situation.new.at) }
    ensures unchanged { OnErr result (situation.new ≡ situation.old) }
{
    match stmt {
        Stmt::Words(words) => {
            run_words(
                setup,
                axes,
                modal,
                situation,
                line,
                groups,
                words.as_slice(),
                item,
            )
        }
        Stmt::Shape(word, values) => {
            let parameters = &situation.parameters;
            shape(parameters, &mut situation.frame, *word, values.as_slice())?;
            Ok(Course::Goes(Outcome::Plain))
        }
        Stmt::Turn(additive, angle) => {
            let plane = plane_in(modal);
            let parameters = &situation.parameters;
            turn(parameters, &mut situation.frame, plane, *additive, angle)?;
            Ok(Course::Goes(Outcome::Plain))
        }
        other => run_control(setup, &mut situation.parameters, opener, other),
    }
}

/// Whether a block with these words of groups leaves all modal words as they are: it has none, and none holds that held in
/// the block before it alone.
fn is_unchanged(modal: &Modal, groups: &[GWord]) -> bool
    ensures none { IsTrue result → groups.now ≡ [] }
    ensures kept { IsTrue result → (blocks : List (List GWord)) → IsAfter blocks modal.now
        → IsAfter (blocks ++ groups.now ∷ []) modal.now }
{
    groups.is_empty() && modal.word(BLOCK_GROUP) == 0
}

/// Does what a block with these words of groups says.
fn run<'a, S: Setup>(
    setup: &S,
    axes: &ChannelAxes,
    situation: &mut Situation,
    line: u32,
    groups: &[GWord],
    opener: &Stmt,
    stmt: &'a Stmt,
    item: &mut Option<Item>,
) -> Result<Course<'a>, u16>
    requires groups { groups.now ≡ model.group_words (statement_view stmt.now) }
    requires opener { FitsValues (values_in situation.old.parameters) (statement_view opener.now) }
    requires fits { FitsValues (values_in situation.old.parameters) (statement_view stmt.now) }
    requires empty { item.old ≡ None }
    ensures runs { RunsAsDefined (equipment_of (S.names setup.now) (S.axis_named setup.now) (S.offset setup.now)
        (S.tools setup.now) axes.now) situation.old line (statement_view opener.now) (statement_view stmt.now)
        (answer_with item.new result) situation.new }
    ensures modal { IfOk result (λ _. ModalIsAfter groups.now situation.old situation.new) }
    ensures stand { IfOk result (λ _. StandsAtEnd item.new situation.old.at situation.new.at) }
    ensures unchanged { OnErr result (situation.new ≡ situation.old) }
{
    if is_unchanged(&situation.modal, groups) {
        let modal = situation.modal;
        return run_stmt(
            setup, axes, &modal, situation, line, groups, opener, stmt, item,
        );
    }
    let modal = apply(&situation.modal, groups)?;
    let course = run_stmt(
        setup, axes, &modal, situation, line, groups, opener, stmt, item,
    )?;
    situation.modal = modal;
    Ok(course)
}

/// Does what `execute` says, and puts the motion of the block in its place, if it has one.
pub fn execute_to<'a, S: Setup>(
    alloc: Global,
    setup: &S,
    axes: &ChannelAxes,
    situation: &mut Situation,
    line: u32,
    opener: &Stmt,
    stmt: &'a Stmt,
    item: &mut Option<Item>,
) -> Result<Course<'a>, BlockFault>
    requires opener { FitsValues (values_in situation.old.parameters) (statement_view opener.now) }
    requires fits { FitsValues (values_in situation.old.parameters) (statement_view stmt.now) }
    requires empty { item.old ≡ None }
    ensures leaves { DoesAsDefined (equipment_of (S.names setup.now) (S.axis_named setup.now) (S.offset setup.now)
        (S.tools setup.now) axes.now) situation.old line (statement_view opener.now) (statement_view stmt.now)
        (answer_with item.new result) situation.new }
    ensures modal { IfOk result (λ _. ModalIsAfter (model.group_words (statement_view stmt.now))
        situation.old situation.new) }
    ensures stand { IfOk result (λ _. StandsAtEnd item.new situation.old.at situation.new.at) }
    ensures unchanged { OnErr result (situation.new ≡ situation.old) }
{
    let groups = match group_words(alloc, stmt) {
        Ok(groups) => groups,
        Err(_) => return Err(BlockFault::NoMemory),
    };
    match run(
        setup,
        axes,
        situation,
        line,
        groups.as_slice(),
        opener,
        stmt,
        item,
    ) {
        Ok(course) => Ok(course),
        Err(code) => Err(BlockFault::Alarm(code)),
    }
}

/// Does what a block on this line says, or answers its first alarm.
///
/// The alarms of a block of words, in this order: 10 where two words of one group stand in it; then for each word from
/// the left 1 to 4 of its values, 14 where a slot has no axis or the job has no axis of the name, 16 where an axis of a
/// slot is named itself, 17 where an axis, a word of the centre or the radius is programmed twice, and 34 where T or D
/// chooses what the tools of the channel do not have. Then comes 18 where
/// no arc is made, under G0, G1 or G33, and a radius stands there, or under G0 or G1 a word of the centre, also in a
/// block that moves nothing; then under G2 and G3 the alarms of `arc_motion`, else those of `straight_motion`. A block with G4,
/// G25 or G26 moves nothing and has no further alarm.
///
/// Those of a block of a frame: 1 to 4 of its values, then 11 and 12 of its maps, then 11 and 13 of the whole chain.
/// Those of other blocks: 1 to 4 of their values, 33 where a number of repetitions is not a whole number up to `PASS_LIMIT`, 7
/// where the library has no program of the name that is called.
///
/// `opener` is the block that begins the structure round the block; only ENDFOR asks for it. A block of coordination
/// does nothing. After an alarm nothing of the block stands, and neither where memory runs out: the parameters, the modal
/// words, the frame and the positions are as before it. `NoMemory` says nothing of the block.
pub fn execute<'a, S: Setup>(
    alloc: Global,
    setup: &S,
    axes: &ChannelAxes,
    situation: &mut Situation,
    line: u32,
    opener: &Stmt,
    stmt: &'a Stmt,
) -> Result<Done<'a>, BlockFault>
    requires opener { FitsValues (values_in situation.old.parameters) (statement_view opener.now) }
    requires fits { FitsValues (values_in situation.old.parameters) (statement_view stmt.now) }
    ensures leaves { DoesAsDefined (equipment_of (S.names setup.now) (S.axis_named setup.now) (S.offset setup.now)
        (S.tools setup.now) axes.now) situation.old line (statement_view opener.now) (statement_view stmt.now) result
        situation.new }
    ensures modal { IfOk result (λ _. ModalIsAfter (model.group_words (statement_view stmt.now))
        situation.old situation.new) }
    ensures stand { IfOk result (λ done. StandsAtEnd done.item situation.old.at situation.new.at) }
    ensures unchanged { OnErr result (situation.new ≡ situation.old) }
{
    let mut item = None;
    let course = execute_to(alloc, setup, axes, situation, line, opener, stmt, &mut item)?;
    Ok(Done { item, course })
}
