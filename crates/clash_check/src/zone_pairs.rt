//! The pairs of zones, and the first two boxes of some of these pairs that meet.
ghost use Rattle.std.specs.Prelude.{◌≡◌, ℕ, ◌+◌, ◌-◌, ◌<◌, [], ◌++◌, All, IfOk, length, slice_index_or};
ghost use Rattle.clash_check.specs.Contexts.{case_of};
ghost use Rattle.clash_check.specs.ZonePairs as model;
ghost use Rattle.order_clocks.specs.Tells.{is_before_in};
ghost use Rattle.zone_stretches.specs.Ascents.{AreAscents, IsTimed};
ghost use Rattle.zone_stretches.specs.Times.{lists_in};
ghost use Rattle.zone_stretches.specs.ZoneBoxes.{IsFit};

use crate::contexts::Scene;
use crate::meetings::first_of_zones;
use axis_sets::ZONE_LIMIT;
use out_of_memory::NoMemory;
use std::alloc::Global;
use sync_types::PlaceName;
use zone_stretches::{Stretch, TimedZone, ascends_at, zone_at};

/// Appends the pairs of the zone of a place with each later one, of so many.
fn push_pairs(pairs: &mut Vec<(usize, usize)>, place: usize, count: usize) -> Result<(), NoMemory>
    requires { place < count }
    ensures { IfOk result (λ done. pairs.new.items ≡ pairs.old.items
        ++ model.pairs_with place (place + 1) (count - (place + 1))) }
{
    for other in place + 1..count {
        pairs.push((place, other))?;
    }
    Ok(())
}

/// Each of so many zones with each later one, by their places: the lower zone first.
pub(crate) fn zone_pairs(alloc: Global, count: usize) -> Result<Vec<(usize, usize)>, NoMemory>
    ensures { IfOk result (λ pairs. pairs.items ≡ model.pairs_from 0 count) }
{
    let mut pairs = Vec::new(alloc);
    for place in 0..count {
        push_pairs(&mut pairs, place, count)?;
    }
    Ok(pairs)
}

/// The stretches of the zone of this place; none past the last zone.
fn stretches_at(lists: &[Vec<Stretch>], place: usize) -> &[Stretch]
    ensures { result.now ≡ slice_index_or (lists_in lists.now) place [] }
{
    match lists.get(place) {
        None => &[],
        Some(stretches) => stretches.as_slice(),
    }
}

/// The names of the first two boxes of two zones that meet.
#[tactic(auto, unfolding(crate::specs::ZonePairs::first_of_pair))]
fn first_of_pair(
    scene: &Scene,
    lists: &[Vec<Stretch>],
    ascents: &[bool; ZONE_LIMIT],
    pair: (usize, usize),
) -> Option<(PlaceName, PlaceName)>
    requires fit { All (All IsFit) scene.now.run.now.items }
    requires timed { IsTimed (is_before_in scene.now.clocks.now.rows) (lists_in lists.now) }
    requires ascents { AreAscents (is_before_in scene.now.clocks.now.rows) (lists_in lists.now) ascents.now }
    ensures { result ≡ model.first_of_pair (case_of scene.now) (lists_in lists.now) pair }
{
    let (place, later) = pair;
    match zone_at(scene.job, place) {
        None => None,
        Some(zone) => match zone_at(scene.job, later) {
            None => None,
            Some(other) => {
                let own = stretches_at(lists, place);
                let others = stretches_at(lists, later);
                let own_ascends = ascends_at(ascents, place);
                let others_ascend = ascends_at(ascents, later);
                let left = TimedZone {
                    zone,
                    stretches: own,
                    ascends: own_ascends,
                };
                let right = TimedZone {
                    zone: other,
                    stretches: others,
                    ascends: others_ascend,
                };
                first_of_zones(scene, &left, &right)
            }
        },
    }
}

/// The names of the first two boxes that meet of the zones of these pairs, one pair after another.
pub(crate) fn first_of_pairs(
    scene: &Scene,
    lists: &[Vec<Stretch>],
    ascents: &[bool; ZONE_LIMIT],
    pairs: &[(usize, usize)],
) -> Option<(PlaceName, PlaceName)>
    requires fit { All (All IsFit) scene.now.run.now.items }
    requires timed { IsTimed (is_before_in scene.now.clocks.now.rows) (lists_in lists.now) }
    requires ascents { AreAscents (is_before_in scene.now.clocks.now.rows) (lists_in lists.now) ascents.now }
    ensures { result ≡ model.first_of_pairs (case_of scene.now) (lists_in lists.now) pairs.now }
{
    for pair in pairs {
        if let Some(names) = first_of_pair(scene, lists, ascents, *pair) {
            return Some(names);
        }
    }
    None
}
