//! The texts of axes and of positions.
ghost use Rattle.std.specs.Prelude.{◌≡◌, ◌+◌, ◌≤◌, ◌++◌, length};
ghost use Rattle.job_report.specs.Positions as model;

use crate::page::{NUMBER_ROOM, PAGE_ROOM, Page};
use axis_sets::AxisId;
use job_types::Job;
use micro_units::Um;

/// The most bytes of a position: its sign, its millimetres, a point and three decimals.
pub(crate) const POSITION_ROOM: usize = NUMBER_ROOM + 5;

/// The most bytes of the name of an axis: its letter and its number.
pub(crate) const AXIS_ROOM: usize = NUMBER_ROOM + 4;

/// The most bytes of an axis with a position, a blank before them and a sign between them.
pub(crate) const END_ROOM: usize = AXIS_ROOM + POSITION_ROOM + 2;

/// Puts so many micrometres as millimetres with three decimals.
#[tactic(auto, unfolding(crate::specs::Positions::millimetres_text))]
fn push_millimetres(page: &mut Page, size: u32)
    requires { length page.old + (NUMBER_ROOM + 4) ≤ PAGE_ROOM }
    ensures text { page.new ≡ page.old ++ model.millimetres_text size }
    ensures room { length page.new ≤ length page.old + (NUMBER_ROOM + 4) }
{
    page.push_number(size / 1000);
    page.push(".");
    page.push_digit((size / 100 % 10) as u8);
    page.push_digit((size / 10 % 10) as u8);
    page.push_digit((size % 10) as u8);
}

/// Puts a position as millimetres.
#[tactic(auto, unfolding(crate::specs::Positions::position_text))]
fn push_position(page: &mut Page, at: Um)
    requires { length page.old + POSITION_ROOM ≤ PAGE_ROOM }
    ensures text { page.new ≡ page.old ++ model.position_text at }
    ensures room { length page.new ≤ length page.old + POSITION_ROOM }
{
    if at.micrometres < 0 {
        page.push("-");
    }
    push_millimetres(page, at.micrometres.unsigned_abs());
}

/// Puts the name of an axis.
#[tactic(auto, unfolding(crate::specs::Positions::axis_text, job_types::specs::Axes::axis_name))]
pub(crate) fn push_axis_name(page: &mut Page, job: &Job, axis: AxisId)
    requires { length page.old + AXIS_ROOM ≤ PAGE_ROOM }
    ensures text { page.new ≡ page.old ++ model.axis_text job.now axis }
    ensures room { length page.new ≤ length page.old + AXIS_ROOM }
{
    if let Some(line) = job.axes.get(usize::from(axis.index)) {
        let mut room = [0; 4];
        page.push(char::from(line.letter).encode_utf8(&mut room));
        page.push_number(u32::from(line.number));
    }
}

/// Puts an axis of a motion with the position at the motion's end.
#[tactic(auto, unfolding(crate::specs::Positions::end_text))]
pub(crate) fn push_end(page: &mut Page, job: &Job, end: &(AxisId, Um, Um))
    requires { length page.old + END_ROOM ≤ PAGE_ROOM }
    ensures text { page.new ≡ page.old ++ model.end_text job.now end.now }
    ensures room { length page.new ≤ length page.old + END_ROOM }
{
    page.push(" ");
    push_axis_name(page, job, end.0);
    page.push("=");
    push_position(page, end.2);
}
