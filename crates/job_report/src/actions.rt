//! The trace lines of blocks with which a channel asks something of the others, or ends its program.
ghost use Rattle.std.specs.Prelude.{◌≡◌, ◌+◌, ◌≤◌, ◌++◌, length};
ghost use Rattle.job_report.specs.Actions as model;

use crate::page::{LINE_ROOM, NUMBER_ROOM, PAGE_ROOM, Page};
use crate::positions::{AXIS_ROOM, push_axis_name};
use axis_sets::{
    AXIS_LIMIT, AxisId, AxisSet, CHANNEL_LIMIT, ChannelId, ChannelSet, MARK_LIMIT, MarkSet,
};
use job_types::Job;
use nc_blocks::NAME_LIMIT;
use sync_types::{Action, Step};

/// The most bytes of the members of a set: of all marks, since all axes and all channels have fewer.
const MEMBERS_ROOM: usize = MARK_LIMIT * (NUMBER_ROOM + 1);

/// The most bytes of what an action speaks of, with its word.
const ACTION_ROOM: usize = MEMBERS_ROOM + NUMBER_ROOM + 8;

/// Puts a number after others.
#[tactic(auto, unfolding(crate::specs::Actions::next_number))]
fn push_next_number(page: &mut Page, number: u8)
    requires { length page.old + (NUMBER_ROOM + 1) ≤ PAGE_ROOM }
    ensures text { page.new ≡ page.old ++ model.next_number number }
    ensures room { length page.new ≤ length page.old + (NUMBER_ROOM + 1) }
{
    page.push(" ");
    page.push_number(u32::from(number));
}

/// Puts the channels of a set, ascending.
#[tactic(auto, unfolding(crate::specs::Actions::channels_text))]
fn push_channels(page: &mut Page, set: &ChannelSet)
    requires { length page.old + MEMBERS_ROOM ≤ PAGE_ROOM }
    ensures text { page.new ≡ page.old ++ model.channels_text set.now }
    ensures room { length page.new ≤ length page.old + MEMBERS_ROOM }
{
    for index in 0..CHANNEL_LIMIT as u8 {
        let number = index + 1;
        if set.contains(ChannelId { number }) {
            push_next_number(page, number);
        }
    }
}

/// Puts the marks of a set, ascending.
#[tactic(auto, unfolding(crate::specs::Actions::marks_text))]
fn push_marks(page: &mut Page, set: &MarkSet)
    requires { length page.old + MEMBERS_ROOM ≤ PAGE_ROOM }
    ensures text { page.new ≡ page.old ++ model.marks_text set.now }
    ensures room { length page.new ≤ length page.old + MEMBERS_ROOM }
{
    for number in 0..MARK_LIMIT as u8 {
        if set.contains(number) {
            push_next_number(page, number);
        }
    }
}

/// Puts an axis after others.
#[tactic(auto, unfolding(crate::specs::Actions::next_axis))]
fn push_next_axis(page: &mut Page, job: &Job, axis: AxisId)
    requires { length page.old + (AXIS_ROOM + 1) ≤ PAGE_ROOM }
    ensures text { page.new ≡ page.old ++ model.next_axis job.now axis }
    ensures room { length page.new ≤ length page.old + (AXIS_ROOM + 1) }
{
    page.push(" ");
    push_axis_name(page, job, axis);
}

/// Puts the axes of a set, in the order of the AXIS lines.
#[tactic(auto, unfolding(crate::specs::Actions::axes_text))]
fn push_axes(page: &mut Page, job: &Job, set: &AxisSet)
    requires { length page.old + MEMBERS_ROOM ≤ PAGE_ROOM }
    ensures text { page.new ≡ page.old ++ model.axes_text job.now set.now }
    ensures room { length page.new ≤ length page.old + MEMBERS_ROOM }
{
    for index in 0..AXIS_LIMIT as u8 {
        if set.contains(AxisId { index }) {
            push_next_axis(page, job, AxisId { index });
        }
    }
}

/// Puts the name of a program.
#[tactic(auto, unfolding(crate::specs::Actions::program_text))]
fn push_program(page: &mut Page, job: &Job, place: u16)
    requires { length page.old + NAME_LIMIT ≤ PAGE_ROOM }
    ensures text { page.new ≡ page.old ++ model.program_text job.now place }
    ensures room { length page.new ≤ length page.old + NAME_LIMIT }
{
    if let Some((name, _)) = job.programs.get_index(usize::from(place)) {
        page.push_bytes(name.as_bytes());
    }
}

/// Puts that a program is selected.
#[tactic(auto, unfolding(crate::specs::Actions::selection_text))]
fn push_selection(page: &mut Page, job: &Job, channel: ChannelId, place: u16)
    requires { length page.old + ACTION_ROOM ≤ PAGE_ROOM }
    ensures text { page.new ≡ page.old ++ model.selection_text job.now channel place }
    ensures room { length page.new ≤ length page.old + ACTION_ROOM }
{
    page.push("INIT");
    push_next_number(page, channel.number);
    page.push(" ");
    push_program(page, job, place);
}

/// Puts the word of an action, and of what it speaks.
#[tactic(auto, unfolding(crate::specs::Actions::action_text))]
fn push_action(page: &mut Page, job: &Job, action: &Action)
    requires { length page.old + ACTION_ROOM ≤ PAGE_ROOM }
    ensures text { page.new ≡ page.old ++ model.action_text job.now action.now }
    ensures room { length page.new ≤ length page.old + ACTION_ROOM }
{
    match action {
        Action::WaitM(mark, named) => {
            page.push("WAITM");
            push_next_number(page, *mark);
            push_channels(page, named);
        }
        Action::SetM(marks) => {
            page.push("SETM");
            push_marks(page, marks);
        }
        Action::ClearM(marks) => {
            page.push("CLEARM");
            push_marks(page, marks);
        }
        Action::Init(channel, program) => push_selection(page, job, *channel, *program),
        Action::Start(named) => {
            page.push("START");
            push_channels(page, named);
        }
        Action::WaitE(named) => {
            page.push("WAITE");
            push_channels(page, named);
        }
        Action::Release(axes) => {
            page.push("RELEASE");
            push_axes(page, job, axes);
        }
        Action::Get(axes) => {
            page.push("GET");
            push_axes(page, job, axes);
        }
        Action::End => page.push("END"),
        Action::Alarm(_) => {}
    }
}

/// Whether an action is an alarm.
#[tactic(auto, unfolding(crate::specs::Actions::is_alarm))]
fn is_alarm(action: &Action) -> bool
    ensures { result ≡ model.is_alarm action.now }
{
    matches!(action, Action::Alarm(_))
}

/// Puts the trace line of a step, if it has one.
#[tactic(auto, unfolding(crate::specs::Actions::step_line))]
pub(crate) fn push_step_line(page: &mut Page, job: &Job, step: &Step)
    requires { length page.old + LINE_ROOM ≤ PAGE_ROOM }
    ensures { page.new ≡ page.old ++ model.step_line job.now step.now }
{
    if is_alarm(&step.action) {
        return;
    }
    page.push_number(step.line);
    page.push(" ");
    push_action(page, job, &step.action);
    page.push("\n");
}
