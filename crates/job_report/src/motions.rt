//! The trace lines of blocks that move axes or switch zones.
ghost use Rattle.std.specs.Prelude.{◌≡◌, ◌+◌, ◌*◌, ◌≤◌, ◌++◌, length};
ghost use Rattle.std.specs.List.{flat_map};
ghost use Rattle.job_report.specs.Motions as model;
ghost use Rattle.job_report.specs.Positions.{end_text};

use crate::page::{LINE_ROOM, NUMBER_ROOM, PAGE_ROOM, Page};
use crate::positions::{AXIS_ROOM, END_ROOM, push_axis_name, push_end};
use axis_sets::{AXIS_LIMIT, AxisId, ZoneId};
use job_types::Job;
use micro_units::Um;
use path_geometry::{Arc, Ends, Motion};
use sync_types::{Item, Part};

/// The most bytes of the ends of a motion.
const ENDS_ROOM: usize = AXIS_LIMIT * END_ROOM;

/// The most bytes of an arc: two words, the axes of its turn, its ends and its centre.
const ARC_ROOM: usize = ENDS_ROOM + 2 * END_ROOM + 2 * AXIS_ROOM + 12;

/// Puts the axes of a motion with its ends.
fn push_ends(page: &mut Page, job: &Job, ends: &Ends)
    requires { length page.old + ENDS_ROOM ≤ PAGE_ROOM }
    ensures text { page.new ≡ page.old ++ flat_map (end_text job.now) ends.now.axes }
    ensures room { length page.new ≤ length page.old + ENDS_ROOM }
{
    for end in ends.axes.as_slice() {
        push_end(page, job, end);
    }
}

/// Puts the centre of an arc, its axes in the order of the AXIS lines.
#[tactic(auto, unfolding(crate::specs::Motions::centre_text))]
fn push_centre(page: &mut Page, job: &Job, arc: &Arc)
    requires { length page.old + 2 * END_ROOM ≤ PAGE_ROOM }
    ensures text { page.new ≡ page.old ++ model.centre_text job.now arc.now }
    ensures room { length page.new ≤ length page.old + 2 * END_ROOM }
{
    let first = (arc.first, arc.centre.0, arc.centre.0);
    let second = (arc.second, arc.centre.1, arc.centre.1);
    if arc.first.index < arc.second.index {
        push_end(page, job, &first);
        push_end(page, job, &second);
    } else {
        push_end(page, job, &second);
        push_end(page, job, &first);
    }
}

/// Puts an arc: the axes of its turn, where it ends, and its centre.
#[tactic(auto, unfolding(crate::specs::Motions::arc_text))]
fn push_arc(page: &mut Page, job: &Job, arc: &Arc)
    requires { length page.old + ARC_ROOM ≤ PAGE_ROOM }
    ensures text { page.new ≡ page.old ++ model.arc_text job.now arc.now }
    ensures room { length page.new ≤ length page.old + ARC_ROOM }
{
    page.push("ARC ");
    push_axis_name(page, job, arc.first);
    page.push(" ");
    push_axis_name(page, job, arc.second);
    push_ends(page, job, &arc.ends);
    page.push(" CENTRE");
    push_centre(page, job, arc);
}

/// Puts what a motion is, and where it ends.
#[tactic(auto, unfolding(crate::specs::Motions::motion_text))]
fn push_motion(page: &mut Page, job: &Job, motion: &Motion)
    requires { length page.old + ARC_ROOM ≤ PAGE_ROOM }
    ensures text { page.new ≡ page.old ++ model.motion_text job.now motion.now }
    ensures room { length page.new ≤ length page.old + ARC_ROOM }
{
    match motion {
        Motion::Line(ends) => {
            page.push("LINE");
            push_ends(page, job, ends);
        }
        Motion::Rapid(ends) => {
            page.push("RAPID");
            push_ends(page, job, ends);
        }
        Motion::Arc(arc) => push_arc(page, job, arc),
    }
}

/// Puts what switches a zone: its number and its new state, 2 for on and 0 for off.
#[tactic(auto, unfolding(crate::specs::Motions::switch_text))]
fn push_switch(page: &mut Page, zone: ZoneId, on: bool)
    requires { length page.old + ARC_ROOM ≤ PAGE_ROOM }
    ensures text { page.new ≡ page.old ++ model.switch_text zone on }
    ensures room { length page.new ≤ length page.old + ARC_ROOM }
{
    page.push("CPROT ");
    page.push_number(u32::from(zone.number));
    page.push(" ");
    page.push_digit(if on { 2 } else { 0 });
}

/// Puts what an item does.
#[tactic(auto, unfolding(crate::specs::Motions::part_text))]
fn push_part(page: &mut Page, job: &Job, part: &Part)
    requires { length page.old + ARC_ROOM ≤ PAGE_ROOM }
    ensures text { page.new ≡ page.old ++ model.part_text job.now part.now }
    ensures room { length page.new ≤ length page.old + ARC_ROOM }
{
    match part {
        Part::Move(motion) => push_motion(page, job, motion),
        Part::Switch(zone, on) => push_switch(page, *zone, *on),
    }
}

/// Puts the trace line of an item.
#[tactic(auto, unfolding(crate::specs::Motions::item_line))]
pub(crate) fn push_item_line(page: &mut Page, job: &Job, item: &Item)
    requires { length page.old + LINE_ROOM ≤ PAGE_ROOM }
    ensures { page.new ≡ page.old ++ model.item_line job.now item.now }
{
    page.push_number(item.line);
    page.push(" ");
    push_part(page, job, &item.part);
    page.push("\n");
}
