//! The zones of a job with their stretches, and each two of them.
ghost use Rattle.std.specs.Prelude.{◌≡◌, ◌<◌, ◌^◌, All, IfSome, map, slice_get};
ghost use Rattle.order_clocks.specs.Tells.{is_before_in};
ghost use Rattle.sync_types.specs.Views.{RunView};
ghost use Rattle.zone_stretches.specs.Overlaps.{zone_times};
ghost use Rattle.zone_stretches.specs.TimedZones.{AreTimed, each_two};
ghost use Rattle.zone_stretches.specs.Told.{IsTold};

use crate::ascents::{ascends_at, ascents_of};
use crate::stretches::{Stretch, Stretches, lists_of};
use crate::zones::zone_at;
use axis_sets::ZONE_LIMIT;
use job_types::{Job, ZoneLine};
use order_clocks::Clocks;
use std::marker::Model;

/// A stretch of a zone.
#[derive(Clone, Copy)]
pub struct ZoneStretch<'a> {
    /// The zone.
    pub zone: &'a ZoneLine,
    /// The stretch.
    pub stretch: &'a Stretch,
}

/// A zone with its stretches.
#[derive(Drop)]
pub struct TimedZone<'a> {
    /// The zone.
    pub zone: ZoneLine,
    /// Its stretches, in order.
    pub stretches: &'a [Stretch],
    /// Whether each of them is known to be over as the next begins.
    pub ascends: bool,
}

impl<'a> Model for TimedZone<'a> {
    ghost use Rattle.zone_stretches.specs.TimedZones.{TimedZoneView};

    ghost Value = { TimedZoneView };

    ghost view = { λ z. record { time = record { zone = z.zone; stretches = z.stretches.now }; ascends = z.ascends } };
}

/// The zones of a job, in ascending order, each with its stretches. A contract sees the list of them.
#[derive(Drop)]
pub struct TimedZones<'a> {
    job: &'a Job,
    lists: &'a [Vec<Stretch>],
    ascents: [bool; ZONE_LIMIT],
}

impl<'a> Model for TimedZones<'a> {
    ghost use Rattle.std.specs.Prelude.{List};
    ghost use Rattle.job_types.specs.Zones.{zones_in_order};
    ghost use Rattle.zone_stretches.specs.TimedZones.{TimedZoneView, timed_from};
    ghost use Rattle.zone_stretches.specs.Times.{lists_in};

    ghost Value = { List TimedZoneView };

    ghost view = { λ z. timed_from (zones_in_order z.job.now) (lists_in z.lists.now) z.ascents 0 };
}

impl<'a> TimedZones<'a> {
    /// The zones of `job` with their `stretches` in a run of which `clocks` tell the order. It takes no memory.
    pub fn of(job: &'a Job, stretches: &'a Stretches, clocks: &Clocks) -> Self
        requires { (run : RunView) × IsTold job.now run stretches.now clocks.now }
        ensures times { map (λ zone. zone.time) result ≡ zone_times job.now stretches.now }
        ensures timed { All (AreTimed (is_before_in clocks.now.rows)) (each_two result) }
    {
        let lists = lists_of(stretches);
        TimedZones {
            job,
            lists,
            ascents: ascents_of(clocks, lists),
        }
    }

    /// The zone of this `place`, counted from 0.
    pub fn at(&self, place: usize) -> Option<TimedZone<'a>>
        ensures zone { result ≡ slice_get self.now place }
        ensures few { IfSome result (λ zone. place < 2 ^ 60) }
    {
        let lists = self.lists;
        if place < lists.len() {
            match zone_at(self.job, place) {
                None => None,
                Some(zone) => {
                    let stretches = lists[place].as_slice();
                    let ascends = ascends_at(&self.ascents, place);
                    Some(TimedZone {
                        zone,
                        stretches,
                        ascends,
                    })
                }
            }
        } else {
            None
        }
    }

    /// Each zone with each later one.
    pub fn pairs(&'a self) -> TimedPairs<'a>
        ensures { result ≡ each_two self.now }
    {
        TimedPairs {
            zones: self,
            left: 0,
            right: 1,
        }
    }
}

/// Each zone with each later one: the pairs that are left, in order. A contract sees the list of them.
#[derive(Drop)]
pub struct TimedPairs<'a> {
    zones: &'a TimedZones<'a>,
    left: usize,
    right: usize,
}

impl<'a> Model for TimedPairs<'a> {
    ghost use Rattle.std.specs.Prelude.{List};
    ghost use Rattle.zone_stretches.specs.TimedZones.{TimedZoneView, pairs_left};

    ghost Value = { List (TimedZoneView × TimedZoneView) };

    ghost view = { λ p. pairs_left p.zones.now p.left p.right };
}

impl<'a> Iterator for TimedPairs<'a> {
    ghost use Rattle.std.specs.Iterator.{YieldsFirst, item_count};

    type Item = (TimedZone<'a>, TimedZone<'a>);

    ghost next_gives = { YieldsFirst (λ left. left) };

    ghost remaining = { item_count (λ left. left) };

    fn next(&mut self) -> Option<(TimedZone<'a>, TimedZone<'a>)> {
        let zones = self.zones;
        match zones.at(self.left) {
            None => None,
            Some(left) => match zones.at(self.right) {
                Some(right) => {
                    self.right += 1;
                    Some((left, right))
                }
                None => match zones.at(self.left + 1) {
                    None => None,
                    Some(next) => match zones.at(self.left + 2) {
                        None => None,
                        Some(right) => {
                            self.left += 1;
                            self.right = self.left + 2;
                            Some((next, right))
                        }
                    },
                },
            },
        }
    }
}
