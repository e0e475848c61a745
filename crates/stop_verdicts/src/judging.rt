//! The verdict on a run with a race, or of which a channel has stopped before its end.
ghost use Rattle.std.specs.Prelude.{◌≡◌};
ghost use Rattle.stop_verdicts.specs.FirstAnswer.{first_some};
ghost use Rattle.stop_verdicts.specs.Stops as model;
ghost use Rattle.sync_types.specs.declared.verdicts.Verdict.{Verdict};

use crate::stops::{first_alarm, first_stuck, stops_of};
use job_types::Job;
use sync_types::{Race, Run, Verdict};

/// The verdict on a run that has not come to its end: RACE where the run has a race, with this one, the first; ALARM of the lowest
/// channel that an alarm has stopped; STUCK of the lowest that waits.
pub fn stopped_verdict(job: &Job, run: &Run, race: Option<Race>) -> Option<Verdict>
    ensures { (later : Verdict) → model.or_else result later ≡ model.or_else (model.race_verdict race)
        (model.or_else (first_some (λ stop. model.alarm_by stop.0 stop.1) (model.stops_of job.now run.now))
        (model.or_else (first_some (λ stop. model.stuck_by stop.0 stop.1) (model.stops_of job.now run.now)) later)) }
{
    if let Some(race) = race {
        return Some(Verdict::Race(race));
    }
    let stops = stops_of(job, run);
    if let Some(verdict) = first_alarm(stops.as_slice()) {
        return Some(verdict);
    }
    first_stuck(stops.as_slice())
}
