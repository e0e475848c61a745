//! Look-ups of the zones of a job, and the axes that carry a zone.
ghost use Rattle.std.specs.Prelude.{◌≡◌};
ghost use Rattle.job_types.specs.Zones as model;

use crate::job::{Job, ZoneLine};
use axis_sets::{AXIS_LIMIT, AxisId, AxisSet, ZoneId};

/// Whether `axis` is the one of `carrier`, which carries a direction of a zone.
fn is_carrier(axis: AxisId, carrier: Option<(AxisId, bool)>) -> bool
    ensures { result ≡ model.is_carrier axis carrier }
{
    match carrier {
        Some((other, _)) => other == axis,
        None => false,
    }
}

impl Job {
    /// The ZONE line of `zone`, if the job has one.
    pub fn zone_line(&self, zone: ZoneId) -> Option<ZoneLine>
        ensures { result ≡ model.zone_line self.now zone }
    {
        self.zones.iter().copied().find(|line| line.zone == zone)
    }
}

impl ZoneLine {
    /// Whether `axis` carries one of the zone's directions.
    #[tactic(auto, unfolding(crate::specs::Zones::has_axis))]
    pub fn has_axis(&self, axis: AxisId) -> bool
        ensures { result ≡ model.has_axis self.now axis }
    {
        self.sides.iter().any(|side| is_carrier(axis, side.carrier))
    }

    /// The axes that carry the zone's directions.
    pub fn carriers(&self) -> AxisSet
        ensures { result ≡ model.carriers self.now }
    {
        let mut axes = AxisSet::empty();
        for index in 0..AXIS_LIMIT as u8 {
            let axis = AxisId { index };
            if self.has_axis(axis) {
                axes = axes.with(axis);
            }
        }
        axes
    }
}
