//! A segment of a channel's run, one block after another.

ghost use Rattle.std.specs.Prelude.{◌≡◌, ◌≤◌, ◌<◌, ◌+◌, ◌++◌, ◌∷◌, [], length, slice_get, slice_set, IfOk, IfNone, IfSome, MatchOption, None, OnOk};
ghost use Rattle.std.specs.Option.{option_to_list};
ghost use Rattle.axis_sets.specs.Positions.{stands};
ghost use Rattle.block_effects.specs.Courses.{course_view};
ghost use Rattle.block_effects.specs.Words.{values_in};
ghost use Rattle.nc_blocks.specs.Indices.{FitsValues};
ghost use Rattle.nc_blocks.specs.Statement.{statement_view, view_of};
ghost use Rattle.nc_control_flow.specs.Parts.{statement_at, views};
ghost use Rattle.nc_control_flow.specs.Structures.{opening};
ghost use Rattle.job_types.specs.SoundJob.{BlocksFit};
ghost use Rattle.channel_machine.specs.Kept.{Advances, AdvancesBy, IsFollowing, IsHeld, IsSegment, IsSettingIn, IsThere, Keeps, state_view};
ghost use Rattle.channel_machine.specs.Levels.{LevelsFit, levels_after, lines_of};
ghost use Rattle.channel_machine.specs.Run as model;
ghost use Rattle.sync_types.specs.declared.Part.TheVariants as part;
ghost use Rattle.channel_machine.specs.Run.{SurroundingsView, Channel, channel_after_grant, segment_of};
ghost use Rattle.job_lines.specs.declared.limits.TheConstants.{PROGRAM_LIMIT};

use crate::coordination::request_in;
use crate::levels::{Levels, flow_of, follow_on};
use crate::limits::BLOCK_LIMIT;
use crate::local::{Local, State};
use crate::surroundings::Surroundings;
use axis_sets::{AXIS_LIMIT, AxisId, AxisSet, Positions, ZoneId, ZoneSet};
use block_effects::{BlockFault, Course, execute_to};
use coordination_words::Request;
use fault_codes::alarms::{NO_PROGRAM_END, TOO_MANY_BLOCKS};
use g_groups::Modal;
use job_types::Job;
use micro_units::Um;
use nc_blocks::{Block, Stmt};
use nc_control_flow::Flow;
use nc_subprograms::Place;
use out_of_memory::NoMemory;
use std::alloc::{AllocError, Global};
use std::marker::Model;
use sync_types::{Action, Grant, Item, Part, Step};

/// What a channel does up to the next step. A contract sees the items as a list, and of the channel what it keeps.
#[derive(Drop)]
pub struct Segment {
    /// What its blocks do, in the order in which it executes them.
    pub items: Vec<Item>,
    /// The step that ends it.
    pub step: Step,
    /// The channel after it. Following an alarm or the end of the program it goes on no more, and nothing of an alarmed
    /// block stands in it.
    pub after: Local,
}

impl Model for Segment {
    ghost use Rattle.channel_machine.specs.Kept.{KeptSegment};

    ghost Value = { KeptSegment };

    ghost view = { λ g. record { items = g.items.items; step = g.step; after = g.after } };
}

/// Where an axis stands; one without a position at 0.
fn standing(at: &Positions, axis: AxisId) -> Um
    ensures { result ≡ stands at.now axis }
{
    match at.get(axis) {
        Some(at) => at,
        None => Um { micrometres: 0 },
    }
}

/// Where the axes of a set stand.
fn owned_at(axes: AxisSet, at: &Positions) -> Positions
    ensures { result ≡ model.owned_at axes (stands at.now) }
{
    let mut owned = Positions::empty();
    for index in 0..AXIS_LIMIT as u8 {
        let axis = AxisId { index };
        if axes.contains(axis) {
            owned.set(axis, standing(at, axis));
        }
    }
    owned
}

/// The step of a channel on this line, with its axes where they stand.
fn step(state: &State, line: u32, action: Action) -> Step
    ensures { result ≡ model.step_at state.now.own.owned state.now.on (stands state.now.situation.at) line action }
{
    Step {
        line,
        action,
        at: owned_at(state.own.owned, &state.situation.at),
        on: state.on,
    }
}

/// Ends the run of a channel on this line with this step: control is nowhere then.
fn stop(state: &mut State, line: u32, action: Action, halt: &mut Option<Step>)
    ensures step { halt.new ≡ Some (model.step_at state.old.own.owned state.old.on
        (stands state.old.situation.at) line action) }
    ensures nowhere { state.new ≡ record state.old { levels = None } }
{
    state.levels = None;
    *halt = Some(step(state, line, action));
}

/// The statement that begins the structure round a place.
fn opener_of(flow: &Flow, pc: u32) -> &Stmt
    requires { pc < length flow.now }
    ensures { statement_view result.now ≡ statement_at (opening pc (views flow.now)) (views flow.now) }
{
    match flow.block(flow.opening(pc)) {
        Some((_, block)) => &block.stmt,
        None => unreachable!(),
    }
}

/// A block that comes.
#[derive(Clone, Copy)]
pub struct NextBlock<'a> {
    /// Its line.
    pub line: u32,
    /// The block.
    pub block: &'a Block,
    /// The statement that begins the structure round it.
    pub opener: &'a Stmt,
}

/// The block at a place, if one stands there.
pub(crate) fn find_block<'a>(job: &'a Job, here: &Place) -> Option<NextBlock<'a>>
    requires { BlocksFit job.now }
    ensures { MatchOption result (slice_get (lines_of job.now.programs here.now.program) here.now.pc ≡ None)
        (λ next. IsThere job.now.programs here.now next.line (view_of next.block.now)
        (statement_view next.opener.now)) }
{
    let Some(flow) = flow_of(job, here.program) else {
        return None;
    };
    match flow.block(here.pc) {
        Some((line, block)) => Some(NextBlock {
            line: *line,
            block,
            opener: opener_of(flow, here.pc),
        }),
        None => None,
    }
}

/// Makes room for the first item of a segment, and for that alone: most segments have no more, and an item is large.
fn make_room(items: &mut Vec<Item>) -> Result<(), AllocError>
    ensures { items.new.items ≡ items.old.items }
{
    if items.is_empty() {
        items.reserve_exact(1)?;
    }
    Ok(())
}

/// Adds the item, if there is one.
#[inline(never)]
fn push_some(items: &mut Vec<Item>, item: &mut Option<Item>) -> Result<(), AllocError>
    ensures { OnOk result (items.new.items ≡ items.old.items ++ option_to_list item.old) }
{
    if let Some(item) = item.take() {
        make_room(items)?;
        items.push(item)?;
    }
    Ok(())
}

/// Adds the switch of a zone by a block on this line.
#[inline(never)]
fn push_switch(items: &mut Vec<Item>, line: u32, zone: ZoneId, on: bool) -> Result<(), AllocError>
    ensures { OnOk result (items.new.items ≡ items.old.items
        ++ record { line = line; part = part.Switch zone on } ∷ []) }
{
    make_room(items)?;
    items.push(Item {
        line,
        part: Part::Switch(zone, on),
    })?;
    Ok(())
}

/// Whether a block ends the main program.
fn ends_main(levels: &Levels, course: &Course) -> bool
    ensures { result ≡ model.ends_main levels.now (course_view course.now) }
{
    match course {
        Course::Ends => levels.returns.is_main(),
        Course::Goes(_) | Course::Calls(_, _) => false,
    }
}

/// Whether a block ends the main program, from where control is.
fn ends_here(levels: &Option<Levels>, course: &Course) -> bool
    ensures { (there : Levels) → levels.now ≡ Some there → result ≡ model.ends_main there (course_view course.now) }
{
    match levels {
        Some(levels) => ends_main(levels, course),
        None => false,
    }
}

/// Adds what a block on this line does that has this motion and asks for this.
fn push_done(
    items: &mut Vec<Item>,
    line: u32,
    request: &Option<Request>,
    motion: &mut Option<Item>,
) -> Result<(), AllocError>
    ensures { OnOk result (items.new.items ≡ items.old.items
        ++ option_to_list (model.item_by line request.now motion.old)) }
{
    match request {
        Some(Request::Switch(zone, on)) => push_switch(items, line, *zone, *on),
        Some(Request::Act(_)) | None => {
            if motion.is_some() {
                push_some(items, motion)?;
            }
            Ok(())
        }
    }
}

/// These zones with this one, where it is on from here, or without it.
#[inline(never)]
fn switched(on: ZoneSet, zone: ZoneId, new: bool) -> ZoneSet
    ensures { result ≡ slice_set on zone new }
{
    let _had = on.contains(zone);
    if new { on.with(zone) } else { on.without(zone) }
}

/// Ends the segment with the step of a block on this line, where it asks anything of the other channels.
fn hold(state: &State, line: u32, request: &Option<Request>, halt: &mut Option<Step>)
    requires { halt.old ≡ None }
    ensures { IsHeld (state_view state.now) line request.now halt.new }
{
    match request {
        Some(Request::Act(action)) => *halt = Some(step(state, line, *action)),
        Some(Request::Switch(_, _)) | None => {}
    }
}

/// Counts a block on this line that asks for this, and switches the zone that it switches.
fn count_block(state: &mut State, line: u32, request: &Option<Request>)
    requires { state.old.count < BLOCK_LIMIT }
    ensures { state.new ≡ record state.old {
      count = state.old.count + 1;
      last = line;
      on = model.on_by_request state.old.on request.now;
    } }
{
    state.count += 1;
    state.last = line;
    if let Some(Request::Switch(zone, new)) = request {
        state.on = switched(state.on, *zone, *new);
    }
}

/// Goes on after a block on this line that has this motion and this course and asks for this, and puts the step in its
/// place where the segment ends with it. `modal` are the words of groups that held before the block.
///
/// The alarms are those of where it leads. Following one nothing of the block stands: it is a block that jumps, repeats or
/// calls, so it has changed no more than the words of groups, and those are put back.
fn leave(
    job: &Job,
    state: &mut State,
    items: &mut Vec<Item>,
    line: u32,
    modal: Modal,
    motion: &mut Option<Item>,
    course: Course,
    request: &Option<Request>,
    halt: &mut Option<Step>,
) -> Result<(), NoMemory>
    requires fit { IfSome state.old.levels (LevelsFit job.now.skip job.now.programs) }
    requires few { state.old.count < BLOCK_LIMIT }
    requires goes { halt.old ≡ None }
    ensures told { IfOk result (λ _. (levels : Levels) → state.old.levels ≡ Some levels
        → IsFollowing (record (state_view state.old) { levels = None }) modal items.old.items motion.old line
        request.now (model.ends_main levels (course_view course.entry))
        (levels_after job.now.skip job.now.programs levels (course_view course.entry)) halt.new
        items.new.items (state_view state.new)) }
    ensures fit { IfOk result (λ _. IfSome state.new.levels (LevelsFit job.now.skip job.now.programs)) }
    ensures few { IfOk result (λ _. state.new.count ≤ BLOCK_LIMIT) }
    ensures count { IfOk result (λ _. IfNone halt.new (state.new.count ≡ state.old.count + 1)) }
    ensures channel { IfOk result (λ _. state.new.channel ≡ state.old.channel) }
{
    if ends_here(&state.levels, &course) {
        push_done(items, line, request, motion)?;
        count_block(state, line, request);
        stop(state, line, Action::End, halt);
        return Ok(());
    }
    match follow_on(job, &mut state.levels, course, job.skip) {
        Ok(()) => {
            push_done(items, line, request, motion)?;
            count_block(state, line, request);
            hold(state, line, request, halt);
        }
        Err(code) => {
            state.situation.modal = modal;
            stop(state, line, Action::Alarm(code), halt);
        }
    }
    Ok(())
}

/// Executes the block at which control stands, which asks for this, and puts the step in its place where the segment ends
/// with it.
///
/// The alarms are those of the block and of where it leads.
fn perform(
    alloc: Global,
    job: &Job,
    state: &mut State,
    items: &mut Vec<Item>,
    next: NextBlock,
    request: &Option<Request>,
    halt: &mut Option<Step>,
) -> Result<(), NoMemory>
    requires programs { length job.now.programs ≤ PROGRAM_LIMIT }
    requires opener { FitsValues (values_in state.old.situation.parameters) (statement_view next.opener.now) }
    requires fits { FitsValues (values_in state.old.situation.parameters) (statement_view next.block.now.stmt) }
    requires fit { IfSome state.old.levels (LevelsFit job.now.skip job.now.programs) }
    requires few { state.old.count < BLOCK_LIMIT }
    requires goes { halt.old ≡ None }
    ensures told { IfOk result (λ _. AdvancesBy job.now (state_view state.old) next.entry.line
        (view_of next.entry.block.now) (statement_view next.entry.opener.now) request.now items.old.items halt.new
        items.new.items (state_view state.new)) }
    ensures fit { IfOk result (λ _. IfSome state.new.levels (LevelsFit job.now.skip job.now.programs)) }
    ensures few { IfOk result (λ _. state.new.count ≤ BLOCK_LIMIT) }
    ensures count { IfOk result (λ _. IfNone halt.new (state.new.count ≡ state.old.count + 1)) }
    ensures channel { IfOk result (λ _. state.new.channel ≡ state.old.channel) }
{
    let line = next.line;
    let channel = state.channel;
    let surroundings = Surroundings { job, channel };
    let modal = state.situation.modal;
    let mut motion = None;
    match execute_to(
        alloc,
        &surroundings,
        &state.own,
        &mut state.situation,
        line,
        next.opener,
        &next.block.stmt,
        &mut motion,
    ) {
        Ok(course) => leave(
            job,
            state,
            items,
            line,
            modal,
            &mut motion,
            course,
            request,
            halt,
        ),
        Err(fault) => match fault {
            BlockFault::Alarm(code) => {
                stop(state, line, Action::Alarm(code), halt);
                Ok(())
            }
            BlockFault::NoMemory => Err(NoMemory),
        },
    }
}

/// Executes the block at which control stands, and puts the step in its place where the segment ends with it.
///
/// Alarm 9 where no block comes, alarm 8 where it is one more than may be executed, and the alarms of
/// the block and of where it leads.
pub(crate) fn advance(
    alloc: Global,
    job: &Job,
    state: &mut State,
    items: &mut Vec<Item>,
    halt: &mut Option<Step>,
) -> Result<(), NoMemory>
    requires blocks { BlocksFit job.now }
    requires programs { length job.now.programs ≤ PROGRAM_LIMIT }
    requires fit { IfSome state.old.levels (LevelsFit job.now.skip job.now.programs) }
    requires few { state.old.count ≤ BLOCK_LIMIT }
    requires goes { halt.old ≡ None }
    ensures told { IfOk result (λ _. (s : SurroundingsView) (c : Channel) → IsSettingIn job.now s (state_view state.old)
        → Keeps s c (state_view state.old)
        → Advances s c items.old.items halt.new items.new.items (state_view state.new)) }
    ensures fit { IfOk result (λ _. IfSome state.new.levels (LevelsFit job.now.skip job.now.programs)) }
    ensures few { IfOk result (λ _. state.new.count ≤ BLOCK_LIMIT) }
    ensures count { IfOk result (λ _. IfNone halt.new (state.new.count ≡ state.old.count + 1)) }
    ensures channel { IfOk result (λ _. state.new.channel ≡ state.old.channel) }
{
    let last = state.last;
    let Some(levels) = &state.levels else {
        stop(state, last, Action::Alarm(NO_PROGRAM_END), halt);
        return Ok(());
    };
    let Some(next) = find_block(job, &levels.here) else {
        stop(state, last, Action::Alarm(NO_PROGRAM_END), halt);
        return Ok(());
    };
    let line = next.line;
    if state.count == BLOCK_LIMIT {
        stop(state, line, Action::Alarm(TOO_MANY_BLOCKS), halt);
        return Ok(());
    }
    let channel = state.channel;
    let parameters = &state.situation.parameters;
    let request = match request_in(job, channel, &state.own, parameters, &next.block.stmt) {
        Ok(request) => request,
        Err(code) => {
            stop(state, line, Action::Alarm(code), halt);
            return Ok(());
        }
    };
    perform(alloc, job, state, items, next, &request, halt)
}

/// Runs a channel up to and with the next block that asks anything of the other channels, which is each block of
/// coordination but CPROT, or to the end of its program or its first alarm. A segment that ends with an alarm is an answer;
/// the only error is want of memory.
///
/// Alarm 9: control is past the end of the main program, at the line of the last executed block or of
/// the header. Alarm 8: one more block than `BLOCK_LIMIT` comes, at its line. Then the alarms of the block
/// that comes, 6 where it calls a program on a seventeenth level, 5 where its label or block number is
/// missing, and 32 where a seventeenth repetition would run; and of a block of coordination those of its arguments; nothing
/// of that block stands.
///
/// The channel after the segment may be handed to `run_segment` again. Following an alarm or the end of the main program it
/// is over: control is nowhere, and one more segment is alarm 9.
pub fn run_segment(alloc: Global, job: &Job, local: &Local) -> Result<Segment, NoMemory>
    requires blocks { BlocksFit job.now }
    requires programs { length job.now.programs ≤ PROGRAM_LIMIT }
    requires fit { IfSome local.now.levels (LevelsFit job.now.skip job.now.programs) }
    requires few { local.now.count ≤ BLOCK_LIMIT }
    ensures told { IfOk result (λ g. (s : SurroundingsView) (c : Channel)
        → IsSettingIn job.now s local.now → Keeps s c local.now
        → IsSegment s (segment_of s c) g) }
    ensures fit { IfOk result (λ g. IfSome g.after.levels (LevelsFit job.now.skip job.now.programs)) }
    ensures few { IfOk result (λ g. g.after.count ≤ BLOCK_LIMIT) }
    ensures channel { IfOk result (λ g. g.after.channel ≡ local.now.channel) }
{
    let state = Box::new(alloc, (*local.state).copied()?)?;
    run_state(alloc, job, state)
}

/// The segment of a channel that goes on with a grant. The channel is given away, so nothing of it is copied.
///
/// The alarms are those of `run_segment`.
pub fn run_on(alloc: Global, job: &Job, local: Local, grant: &Grant) -> Result<Segment, NoMemory>
    requires blocks { BlocksFit job.now }
    requires programs { length job.now.programs ≤ PROGRAM_LIMIT }
    requires fit { IfSome local.levels (LevelsFit job.now.skip job.now.programs) }
    requires few { local.count ≤ BLOCK_LIMIT }
    ensures told { IfOk result (λ g. (s : SurroundingsView) (c : Channel)
        → IsSettingIn job.now s local → Keeps s c local
        → IsSegment s (segment_of s (channel_after_grant c grant.now)) g) }
    ensures fit { IfOk result (λ g. IfSome g.after.levels (LevelsFit job.now.skip job.now.programs)) }
    ensures few { IfOk result (λ g. g.after.count ≤ BLOCK_LIMIT) }
    ensures channel { IfOk result (λ g. g.after.channel ≡ local.channel) }
{
    let mut local = local;
    local.resume(grant);
    run_state(alloc, job, local.state)
}

/// The segment of a channel whose state is given away: nothing of it is copied.
fn run_state(alloc: Global, job: &Job, start: Box<State>) -> Result<Segment, NoMemory>
    requires blocks { BlocksFit job.now }
    requires programs { length job.now.programs ≤ PROGRAM_LIMIT }
    requires fit { IfSome start.value.levels (LevelsFit job.now.skip job.now.programs) }
    requires few { start.value.count ≤ BLOCK_LIMIT }
    ensures told { IfOk result (λ g. (s : SurroundingsView) (c : Channel)
        → IsSettingIn job.now s (state_view start.value) → Keeps s c (state_view start.value)
        → IsSegment s (segment_of s c) g) }
    ensures fit { IfOk result (λ g. IfSome g.after.levels (LevelsFit job.now.skip job.now.programs)) }
    ensures few { IfOk result (λ g. g.after.count ≤ BLOCK_LIMIT) }
    ensures channel { IfOk result (λ g. g.after.channel ≡ start.value.channel) }
{
    let mut state = start;
    let mut items = Vec::new(alloc);
    let mut halt = None;
    loop {
        advance(alloc, job, &mut *state, &mut items, &mut halt)?;
        match halt {
            Some(step) => {
                let after = Local { state };
                return Ok(Segment { items, step, after });
            }
            None => {}
        }
    }
}
