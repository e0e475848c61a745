//! What items are to a zone.
ghost use Rattle.std.specs.Prelude.{◌≡◌};
ghost use Rattle.zone_stretches.specs.ZoneBoxes.{moves_zone, seen};

use job_types::ZoneLine;
use sync_types::{Item, Part};
use zone_stretches::ZoneEffect;

/// Whether an axis of the zone is among the axes of the motion.
#[tactic(auto, unfolding(zone_stretches::specs::ZoneBoxes::moves_zone))]
fn moves_zone(zone: &ZoneLine, item: &Item) -> bool
    ensures { result ≡ moves_zone zone.now item.now }
{
    match item.motion() {
        Some(motion) => motion.ends().axes.iter().any(|end| zone.has_axis(end.0)),
        None => false,
    }
}

/// What an item is to a zone.
pub(crate) fn seen(zone: &ZoneLine, item: &Item) -> ZoneEffect
    ensures { result ≡ seen zone.now item.now }
{
    match &item.part {
        Part::Switch(number, on) => {
            if *number == zone.zone {
                ZoneEffect::Turns(*on)
            } else {
                ZoneEffect::Nothing
            }
        }
        Part::Move(_) => {
            if moves_zone(zone, item) {
                ZoneEffect::Moves
            } else {
                ZoneEffect::Nothing
            }
        }
    }
}
