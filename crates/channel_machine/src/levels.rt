//! Where control stands on the levels of calls.

ghost use Rattle.std.specs.Prelude.{◌≡◌, [], ◌<◌, ◌-◌, ◌==◌, All, IfSome, IfOk, MatchResult, Ok, Err, map, length, option_copied, slice_get, true};
ghost use Rattle.block_effects.specs.Courses.{course_view};
ghost use Rattle.nc_control_flow.specs.Counted.{next_going};
ghost use Rattle.nc_control_flow.specs.Moves.{outcome_view};
ghost use Rattle.job_types.specs.Job.{block_entry};
ghost use Rattle.channel_machine.specs.Levels as model;
ghost use Rattle.channel_machine.specs.Levels.{after_call, program_blocks, GoesOn, GoesAfter, Stands, LevelsFit};

use block_effects::Course;
use job_types::Job;
use nc_control_flow::{Flow, Next, Outcome};
use nc_subprograms::{CallStack, Place};

/// Where control stands on the levels of calls.
#[derive(Drop)]
pub struct Levels {
    /// Where the level stands that runs.
    pub here: Place,
    /// Where those below it return to: the places of the calls.
    pub returns: CallStack,
}

impl Levels {
    /// The same levels once more.
    pub(crate) fn copied(&self) -> Levels
        ensures { result ≡ self.now }
    {
        Levels {
            here: self.here.copied(),
            returns: self.returns.copied(),
        }
    }
}

/// The program of a number.
pub(crate) fn flow_of(job: &Job, number: u16) -> Option<&Flow>
    ensures { model.IsFlowOf job.now.programs number (option_copied result) }
{
    match job.programs.get_index(usize::from(number)) {
        Some((_, program)) => Some(&program.flow),
        None => None,
    }
}

/// Puts a level at the first block of a program that counts, with so many passes still to begin after this one, and
/// answers whether a block counts.
fn start_at(job: &Job, here: &mut Place, number: u16, passes: u16, skip: bool) -> bool
    ensures { model.IsFirstPlace skip job.now.programs number passes (model.stood result here.new) }
{
    let Some(flow) = flow_of(job, number) else {
        return false;
    };
    match flow.first_counted(skip) {
        Next::At(pc) => {
            here.program = number;
            here.pc = pc;
            here.passes = passes;
            here.repeats.clear();
            true
        }
        Next::Past => false,
    }
}

/// Puts a level at the next of so many passes that a program has still to begin, and answers whether there is one.
fn next_pass(job: &Job, here: &mut Place, number: u16, passes: u16, skip: bool) -> bool
    ensures { model.stood result here.new ≡ model.next_pass skip job.now.programs number passes }
{
    match passes {
        0 => false,
        _ => start_at(job, here, number, passes - 1, skip),
    }
}

/// Puts a level on the next block, if there is one.
fn land(here: &mut Place, next: Next) -> bool
    ensures { model.Lands next here.old result here.new }
{
    match next {
        Next::At(pc) => {
            here.pc = pc;
            true
        }
        Next::Past => false,
    }
}

/// Goes on from the block at which a level stands by what came of it, and answers whether a block comes.
/// `skip` says whether blocks with `/` are passed over, here and in what follows.
///
/// Alarm 5: a label or block number stands where none is found. Alarm 32: a seventeenth repetition
/// would run.
fn go_on(job: &Job, here: &mut Place, outcome: Outcome, skip: bool) -> Result<bool, u16>
    requires { Stands skip job.now.programs here.old }
    ensures { GoesOn job.now.programs (next_going skip here.old.pc (program_blocks job.now.programs here.old.program)
        here.old.repeats (outcome_view outcome.entry)) here.old result here.new }
{
    match flow_of(job, here.program) {
        Some(flow) => match flow.next_counted(here.pc, &mut here.repeats, outcome, skip) {
            Ok(next) => Ok(land(here, next)),
            Err(code) => Err(code),
        },
        None => Ok(false),
    }
}

/// Goes on after the call at which a level stands, and answers whether a block comes.
fn go_after(job: &Job, here: &mut Place, skip: bool) -> bool
    requires { Stands skip job.now.programs here.old }
    ensures { GoesAfter job.now.programs (after_call skip job.now.programs here.old) result here.new }
{
    match go_on(job, here, Outcome::Skipped, skip) {
        Ok(comes) => comes,
        Err(_) => false,
    }
}

/// Goes on past the end of a program with so many passes still to begin, and answers whether control
/// comes anywhere.
fn past_end(job: &Job, levels: &mut Levels, number: u16, passes: u16, skip: bool) -> bool
    requires { All (Stands skip job.now.programs) levels.old.returns }
    ensures { model.came result levels.new ≡ model.past_end skip job.now.programs number passes levels.old.returns }
{
    let (mut number, mut passes) = (number, passes);
    loop {
        if next_pass(job, &mut levels.here, number, passes, skip) {
            return true;
        }
        match levels.returns.ret() {
            Some(caller) => {
                levels.here = caller;
                if go_after(job, &mut levels.here, skip) {
                    return true;
                }
                number = levels.here.program;
                passes = levels.here.passes;
            }
            None => return false,
        }
    }
}

/// The main program at its first block that counts, or past its end.
pub(crate) fn begin(job: &Job, number: u16, skip: bool) -> Option<Levels>
    ensures { result ≡ model.levels_from skip job.now.programs (model.first_place skip job.now.programs number 0) [] }
{
    let mut here = Place::default();
    if start_at(job, &mut here, number, 0, skip) {
        Some(Levels {
            here,
            returns: CallStack::new(),
        })
    } else {
        None
    }
}

/// Calls a program, so many times, and answers whether control comes anywhere. One in which no block
/// counts is done at once.
///
/// Alarm 6: it would run on a seventeenth level.
fn call(job: &Job, levels: &mut Levels, number: u16, passes: u16, skip: bool) -> Result<bool, u16>
    requires { LevelsFit skip job.now.programs levels.old }
    ensures { model.came_ok result levels.new ≡ model.levels_in_call skip job.now.programs levels.old number passes }
{
    let here = levels.here.copied();
    levels.returns.call(here)?;
    Ok(past_end(job, levels, number, passes, skip))
}

/// Goes on after a block with this course, and answers whether control comes anywhere.
///
/// Alarm 5: a label or block number stands where none is found. Alarm 6: a program would run on a
/// seventeenth level. Alarm 32: a seventeenth repetition would run.
#[tactic(auto, unfolding(crate::specs::Levels::levels_after))]
fn follow(job: &Job, levels: &mut Levels, course: Course, skip: bool) -> Result<bool, u16>
    requires { LevelsFit skip job.now.programs levels.old }
    ensures { model.came_ok result levels.new
        ≡ model.levels_after skip job.now.programs levels.old (course_view course.entry) }
{
    match course {
        Course::Goes(outcome) => leave(job, levels, outcome, skip),
        Course::Ends => {
            let (number, passes) = (levels.here.program, levels.here.passes);
            Ok(past_end(job, levels, number, passes, skip))
        }
        Course::Calls(number, passes) => call(job, levels, number, passes, skip),
    }
}

/// Goes on after a block that goes on in its program by this outcome, and answers whether control
/// comes anywhere.
fn leave(job: &Job, levels: &mut Levels, outcome: Outcome, skip: bool) -> Result<bool, u16>
    requires { LevelsFit skip job.now.programs levels.old }
    ensures { model.came_ok result levels.new ≡ model.going_on skip job.now.programs levels.old
        (outcome_view outcome.entry) }
{
    match go_on(job, &mut levels.here, outcome, skip) {
        Ok(true) => Ok(true),
        Ok(false) => {
            let (number, passes) = (levels.here.program, levels.here.passes);
            Ok(past_end(job, levels, number, passes, skip))
        }
        Err(code) => Err(code),
    }
}

/// Goes on after a block with this course, from where control is.
///
/// The alarms are those of `follow`; nothing is said of where control is after one.
pub(crate) fn follow_on(
    job: &Job,
    levels: &mut Option<Levels>,
    course: Course,
    skip: bool,
) -> Result<(), u16>
    requires { IfSome levels.old (LevelsFit skip job.now.programs) }
    ensures { MatchResult result
        (λ _. model.followed_from skip job.now.programs levels.old (course_view course.entry) ≡ Ok levels.new)
        (λ code. model.followed_from skip job.now.programs levels.old (course_view course.entry) ≡ Err code) }
{
    let comes = match levels {
        Some(there) => follow(job, there, course, skip)?,
        None => false,
    };
    if !comes {
        *levels = None;
    }
    Ok(())
}
