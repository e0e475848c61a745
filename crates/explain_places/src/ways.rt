//! How axes and motions are said.
ghost use Rattle.std.specs.Prelude.{◌≡◌, ◌++◌};
ghost use Rattle.std.specs.List.{flat_map};
ghost use Rattle.explain_places.specs.Motions as model;

use axis_sets::AxisId;
use growing_text::Text;
use job_types::Job;
use micro_units::Um;
use path_geometry::Motion;

/// Says the name of an axis; nothing where the job has no such axis.
#[tactic(auto, unfolding(crate::specs::Motions::axis_text))]
pub fn say_axis(text: &mut Text, job: &Job, axis: AxisId)
    ensures { text.new ≡ text.old ++ model.axis_text job.now axis }
{
    if let Some(line) = job.axes.get(usize::from(axis.index)) {
        text.bytes([line.letter].as_slice());
        text.number(u64::from(line.number));
    }
}

/// Says from where to where an axis moves.
#[tactic(auto, unfolding(crate::specs::Motions::end_text))]
fn say_end(text: &mut Text, job: &Job, end: &(AxisId, Um, Um))
    ensures { text.new ≡ text.old ++ model.end_text job.now end.now }
{
    say_axis(text, job, end.0);
    text.say(" from ");
    text.millimetres(i64::from(end.1.micrometres));
    text.say(" to ");
    text.millimetres(i64::from(end.2.micrometres));
}

/// Says after others from where to where an axis moves.
#[tactic(auto, unfolding(crate::specs::Motions::next_end_text))]
fn say_next_end(text: &mut Text, job: &Job, end: &(AxisId, Um, Um))
    ensures { text.new ≡ text.old ++ model.next_end_text job.now end.now }
{
    text.say(", ");
    say_end(text, job, end);
}

/// Says from where to where the axes of a motion move.
fn say_ends(text: &mut Text, job: &Job, ends: &[(AxisId, Um, Um)])
    ensures { text.new ≡ text.old ++ flat_map (model.next_end_text job.now) ends.now }
{
    for end in ends {
        say_next_end(text, job, end);
    }
}

/// What a motion is.
#[tactic(auto, unfolding(crate::specs::Motions::way_text))]
fn way_name(motion: &Motion) -> &'static str
    ensures { result.now ≡ model.way_text motion.now }
{
    match motion {
        Motion::Line(_) => "a straight line",
        Motion::Rapid(_) => "a rapid, each axis by itself",
        Motion::Arc(_) => "an arc",
    }
}

/// Says what a motion is, and from where to where each of its axes moves, in millimetres.
#[tactic(auto, unfolding(crate::specs::Motions::motion_text))]
pub fn say_motion(text: &mut Text, job: &Job, motion: &Motion)
    ensures { text.new ≡ text.old ++ model.motion_text job.now motion.now }
{
    text.say(way_name(motion));
    say_ends(text, job, motion.ends().axes.as_slice());
}
