//! A channel between two blocks.

ghost use Rattle.std.specs.Prelude.{◌≡◌, ℕ, [], option_and_then, option_copied, option_map, reverse, slice_get, slice_index, unwrap_or, IfOk, IfSome};
ghost use Rattle.axis_sets.specs.Positions.{position_of, stands};
ghost use Rattle.std.specs.Option.{option_map_or};
ghost use Rattle.g_groups.specs.declared.numbers.TheConstants.{OFFSET_GROUP};
ghost use Rattle.channel_machine.specs.Kept.{IsAfterGrant, IsSettingIn, Keeps, state_view};
ghost use Rattle.channel_machine.specs.Levels.{LevelsFit};
ghost use Rattle.channel_machine.specs.Run as model;

use crate::levels::{Levels, begin};
use axis_sets::{AXIS_LIMIT, AxisId, ChannelId, Positions, ZoneSet};
use block_effects::{ChannelAxes, Parameters, Situation};
use frames::Frame;
use g_groups::{Modal, OFFSET_GROUP};
use job_types::{Job, slot_axis};
use nc_subprograms::Place;
use out_of_memory::NoMemory;
use std::alloc::{AllocError, Global};
use std::marker::Model;
use sync_types::Grant;
use tool_offsets::ToolInUse;

/// What a channel keeps between two blocks.
#[derive(Drop)]
pub(crate) struct State {
    /// Where control is; nowhere past the end of the main program.
    pub levels: Option<Levels>,
    /// How many blocks were executed.
    pub count: u32,
    /// The line of the last, or of the header of the main program.
    pub last: u32,
    /// What its blocks find: the parameters, the words of groups and the frame that hold, the tool in use, and where the axes
    /// stand.
    pub situation: Situation,
    /// The axes in its slots, and those that it owns.
    pub own: ChannelAxes,
    /// The channel.
    pub channel: ChannelId,
    /// The zones that it holds and that are on.
    pub on: ZoneSet,
}

/// The same levels once more, if there are some.
pub(crate) fn copied_some(levels: &Option<Levels>) -> Option<Levels>
    ensures { result ≡ levels.now }
{
    match levels {
        Some(levels) => Some(levels.copied()),
        None => None,
    }
}

/// The same situation once more.
fn copied_situation(situation: &Situation) -> Result<Situation, AllocError>
    ensures { IfOk result (λ copy. copy ≡ situation.now) }
{
    let parameters = situation.parameters.copied()?;
    Ok(Situation {
        parameters,
        modal: situation.modal,
        frame: situation.frame,
        tool: situation.tool,
        at: situation.at,
    })
}

impl State {
    /// The same state once more.
    pub(crate) fn copied(&self) -> Result<State, AllocError>
        ensures { IfOk result (λ state. state_view state ≡ state_view self.now) }
    {
        let situation = copied_situation(&self.situation)?;
        Ok(State {
            levels: copied_some(&self.levels),
            count: self.count,
            last: self.last,
            situation,
            own: self.own,
            channel: self.channel,
            on: self.on,
        })
    }
}

/// A channel between two segments. A contract sees what it keeps of its run.
#[derive(Drop)]
pub struct Local {
    pub(crate) state: Box<State>,
}

impl Model for Local {
    ghost use Rattle.channel_machine.specs.Kept.{StateView, state_view};

    ghost Value = { StateView };

    ghost view = { λ l. state_view l.state.value };
}

/// The line of a program's header, or 0.
fn header_of(job: &Job, program: Option<u16>) -> u32
    ensures { result ≡ option_map_or (λ p. p.1.line) (option_and_then (slice_get job.now.programs) program) 0 }
{
    match program {
        Some(number) => match job.programs.get_index(usize::from(number)) {
            Some((_, program)) => program.line,
            None => 0,
        },
        None => 0,
    }
}

/// Where control is at the start.
fn begin_some(job: &Job, program: Option<u16>) -> Option<Levels>
    ensures begun { result ≡ option_and_then (model.first_levels job.now.skip job.now.programs) program }
    ensures fit { IfSome result (LevelsFit job.now.skip job.now.programs) }
{
    match program {
        Some(number) => begin(job, number, job.skip),
        None => None,
    }
}

/// The axes of a channel at its start.
fn own_axes(job: &Job, channel: ChannelId, grant: &Grant) -> ChannelAxes
    ensures slots { result.slots ≡ (model.surroundings_of job.now channel grant.now).slots }
    ensures owned { result.owned ≡ grant.now.axes }
{
    let x = slot_axis(job, channel, 0);
    let y = slot_axis(job, channel, 1);
    let z = slot_axis(job, channel, 2);
    ChannelAxes {
        slots: [x, y, z],
        owned: grant.axes,
    }
}

/// Puts the axes of a grant where it has them.
fn put(at: &mut Positions, granted: &Positions)
    ensures { (axis : ℕ) → stands at.new axis ≡ unwrap_or (position_of granted.now axis) (stands at.old axis) }
{
    let _first = granted.get(AxisId { index: 0 });
    for index in 0..AXIS_LIMIT as u8 {
        let axis = AxisId { index };
        if let Some(position) = granted.get(axis) {
            at.set(axis, position);
        }
    }
}

impl State {
    /// Goes on with a grant.
    pub(crate) fn resume(&mut self, grant: &Grant)
        ensures { IsAfterGrant (state_view self.old) grant.now (state_view self.new) }
    {
        self.own.owned = grant.axes;
        self.on = grant.on;
        put(&mut self.situation.at, &grant.at);
    }
}

/// Where the level stands that runs.
fn place_in(levels: &Option<Levels>) -> Option<&Place>
    ensures { option_copied result ≡ option_map (λ l. l.here) levels.now }
{
    match levels {
        Some(levels) => Some(&levels.here),
        None => None,
    }
}

/// Where those below it return to.
fn returns_in(levels: &Option<Levels>) -> &[Place]
    ensures { result.now ≡ option_map_or (λ l. reverse l.returns) levels.now [] }
{
    match levels {
        Some(levels) => levels.returns.places(),
        None => &[],
    }
}

impl Local {
    /// Where control is, in the level that runs; nowhere past the end of the main program and after an alarm.
    pub fn here(&self) -> Option<&Place>
        ensures { option_copied result ≡ option_map (λ l. l.here) self.now.levels }
    {
        place_in(&self.state.levels)
    }

    /// Where the levels below that one go on, the main program first; none where control is nowhere.
    pub fn returns(&self) -> &[Place]
        ensures { result.now ≡ option_map_or (λ l. reverse l.returns) self.now.levels [] }
    {
        returns_in(&self.state.levels)
    }

    /// The parameters of the channel. After an alarm they are as they were before its block.
    pub fn parameters(&self) -> &Parameters
        ensures { result.now ≡ self.now.parameters }
    {
        &self.state.situation.parameters
    }

    /// The number of the word that chooses the settable offset and holds in the channel: 500 where none is chosen.
    #[tactic(auto, unfolding(g_groups::specs::Groups::holding_of))]
    pub fn offset_word(&self) -> u16
        ensures { result ≡ slice_index self.now.modal OFFSET_GROUP }
    {
        self.state.situation.modal.word(OFFSET_GROUP)
    }

    /// The tool in use with its edge and the lengths of that, as the last words T and D of the executed blocks chose them.
    pub fn tool(&self) -> ToolInUse
        ensures { result ≡ self.now.tool }
    {
        self.state.situation.tool
    }

    /// Goes on with a grant after the step that ended its last segment: it owns the axes of the grant, those with a
    /// position stand there, and its zones are on. All else lasts over the segments, the count of blocks too.
    pub fn resume(&mut self, grant: &Grant)
        ensures kept { (s : model.SurroundingsView) (c : model.Channel) → Keeps s c self.old
            → Keeps s (model.channel_after_grant c grant.now) self.new }
        ensures channel { self.new.channel ≡ self.old.channel }
        ensures levels { self.new.levels ≡ self.old.levels }
        ensures count { self.new.count ≡ self.old.count }
    {
        (*self.state).resume(grant);
    }

    /// A channel at its start: its program at the first block, all parameters 0, the words of groups
    /// that hold at the start, no frame, no tool, and its axes where the grant puts them.
    pub fn start(
        alloc: Global,
        job: &Job,
        channel: ChannelId,
        grant: &Grant,
    ) -> Result<Local, NoMemory>
        ensures kept { IfOk result (λ local. Keeps (model.surroundings_of job.now channel grant.now)
            (model.channel_at_start (model.surroundings_of job.now channel grant.now)) local) }
        ensures fit { IfOk result (λ local. IfSome local.levels (LevelsFit job.now.skip job.now.programs)) }
        ensures setting { IfOk result (λ local. IsSettingIn job.now
            (model.surroundings_of job.now channel grant.now) local) }
    {
        let situation = Situation {
            parameters: Parameters::new(alloc)?,
            modal: Modal::start(),
            frame: Frame::empty(),
            tool: ToolInUse::nothing(),
            at: grant.at,
        };
        let state = State {
            levels: begin_some(job, grant.program),
            count: 0,
            last: header_of(job, grant.program),
            situation,
            own: own_axes(job, channel, grant),
            channel,
            on: grant.on,
        };
        let state = Box::new(alloc, state)?;
        Ok(Local { state })
    }
}
