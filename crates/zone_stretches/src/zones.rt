//! The zones of a job by their numbers and by their places.
ghost use Rattle.std.specs.Prelude.{◌≡◌, slice_get};
ghost use Rattle.job_types.specs.Zones.{zones_in_order};

use axis_sets::{ZONE_LIMIT, ZoneId};
use job_types::{Job, ZoneLine};

/// The zone of this place, counted from 0, in ascending order of the zones of a job. It takes no memory.
#[tactic(auto, unfolding(job_types::specs::Zones::zones_in_order))]
pub fn zone_at(job: &Job, place: usize) -> Option<ZoneLine>
    ensures { result ≡ slice_get (zones_in_order job.now) place }
{
    let mut left = place;
    for index in 0..ZONE_LIMIT as u8 {
        if let Some(zone) = job.zone_line(ZoneId { number: index + 1 }) {
            if left == 0 {
                return Some(zone);
            }
            left -= 1;
        }
    }
    None
}
