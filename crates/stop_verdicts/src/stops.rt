//! How the channels of a job have stopped.
ghost use Rattle.std.specs.Prelude.{◌≡◌};
ghost use Rattle.stop_verdicts.specs.FirstAnswer.{first_some};
ghost use Rattle.stop_verdicts.specs.Stops as model;

use arrayvec::ArrayVec;
use axis_sets::{CHANNEL_LIMIT, CHANNEL_PLACES, ChannelId};
use job_types::Job;
use sync_types::{ChannelEnd, Run, Verdict};

/// The channels of a job with how each has stopped.
pub(crate) type Stops = ArrayVec<(ChannelId, ChannelEnd), CHANNEL_LIMIT>;

/// Each channel of a job with how it has stopped, the lowest first.
#[tactic(auto, unfolding(crate::specs::Stops::stops_of))]
pub(crate) fn stops_of(job: &Job, run: &Run) -> Stops
    ensures { result.items ≡ model.stops_of job.now run.now }
{
    let ends = run.ends();
    let mut stops = ArrayVec::new();
    for number in 1..CHANNEL_PLACES as u8 {
        let channel = ChannelId { number };
        if job.has_channel(channel) && stops.len() < ends.len() {
            stops.push((channel, ends[stops.len()]));
        }
    }
    stops
}

/// ALARM of a channel that an alarm has stopped.
fn alarm_by(channel: ChannelId, end: ChannelEnd) -> Option<Verdict>
    ensures { result ≡ model.alarm_by channel end }
{
    match end {
        ChannelEnd::Alarmed(alarm) => Some(Verdict::Alarm(channel, alarm)),
        ChannelEnd::Idle | ChannelEnd::Ended(_) | ChannelEnd::Holding(_) => None,
    }
}

/// STUCK of a channel that waits.
fn stuck_by(channel: ChannelId, end: ChannelEnd) -> Option<Verdict>
    ensures { result ≡ model.stuck_by channel end }
{
    match end {
        ChannelEnd::Holding(line) => Some(Verdict::Stuck(channel, line)),
        ChannelEnd::Idle | ChannelEnd::Ended(_) | ChannelEnd::Alarmed(_) => None,
    }
}

/// ALARM of the lowest channel that an alarm has stopped.
pub(crate) fn first_alarm(stops: &[(ChannelId, ChannelEnd)]) -> Option<Verdict>
    ensures { result ≡ first_some (λ stop. model.alarm_by stop.0 stop.1) stops.now }
{
    for stop in stops {
        if let Some(verdict) = alarm_by(stop.0, stop.1) {
            return Some(verdict);
        }
    }
    None
}

/// STUCK of the lowest channel that waits.
pub(crate) fn first_stuck(stops: &[(ChannelId, ChannelEnd)]) -> Option<Verdict>
    ensures { result ≡ first_some (λ stop. model.stuck_by stop.0 stop.1) stops.now }
{
    for stop in stops {
        if let Some(verdict) = stuck_by(stop.0, stop.1) {
            return Some(verdict);
        }
    }
    None
}
