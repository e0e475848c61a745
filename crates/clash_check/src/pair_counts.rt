//! How many pairs of boxes are compared.
ghost use Rattle.std.specs.Prelude.{◌≡◌, ◌<◌, ◌+◌, ◌^◌, true, [], ◌∷◌, All, sum_by};
ghost use Rattle.std.specs.List.{count_by};
ghost use Rattle.clash_check.specs.Counts.{count_of};
ghost use Rattle.clash_check.specs.PairCounts as model;
ghost use Rattle.clash_check.specs.PlaceRanges as places;
ghost use Rattle.order_clocks.specs.Tells.{is_before_in};
ghost use Rattle.sync_types.specs.Views.{RunView};
ghost use Rattle.zone_stretches.specs.Ascents as orders;
ghost use Rattle.zone_stretches.specs.Ascents.{IsTimed};
ghost use Rattle.zone_stretches.specs.Overlaps.{share_place};
ghost use Rattle.zone_stretches.specs.TimedZones.{AreTimed, each_two};
ghost use Rattle.zone_stretches.specs.Told.{IsTold};

use crate::place_ranges::{do_boxes_ascend, place_range};
use crate::running::{Boxes, Sums, boxes_before, count_in_range, mark_latest};
use axis_sets::CHANNEL_PLACES;
use job_types::Job;
use order_clocks::Clocks;
use zone_stretches::{
    IndexRange, Stretch, Stretches, TimedZone, TimedZones, ZoneBox, may_overlap, range_of,
    share_channel, share_place, start_walk,
};

/// With how many of these a box holds a place in common.
fn count_near(own: &ZoneBox, others: &[ZoneBox]) -> u64
    ensures { result ≡ model.capped (count_by (share_place own.now) others.now) }
{
    let mut count: u64 = 0;
    for later in others {
        if share_place(own, later) {
            count = count.saturating_add(1);
        }
    }
    count
}

/// How many pairs of boxes hold a place in common.
#[tactic(auto, unfolding(crate::specs::PairCounts::count_sharing))]
fn count_sharing_all(left: &[ZoneBox], right: &[ZoneBox]) -> u64
    ensures { result ≡ model.capped (model.count_sharing left.now right.now) }
{
    let mut count: u64 = 0;
    for own in left {
        count = count.saturating_add(count_near(own, right));
    }
    count
}

/// How many pairs of boxes hold a place in common, where those of the second list begin and end one after another.
#[tactic(auto, unfolding(crate::specs::PairCounts::count_sharing))]
fn count_sharing_places(left: &[ZoneBox], right: &[ZoneBox]) -> u64
    requires { places.do_boxes_ascend right.now ≡ true }
    ensures { result ≡ model.capped (model.count_sharing left.now right.now) }
{
    let mut range = IndexRange { from: 0, upto: 0 };
    let mut count: u64 = 0;
    for own in left {
        range = place_range(own, right, range);
        count = count.saturating_add(range.upto.saturating_sub(range.from) as u64);
    }
    count
}

/// How many pairs of boxes hold a place in common.
fn count_sharing(left: &[ZoneBox], right: &[ZoneBox]) -> u64
    ensures { result ≡ model.capped (model.count_sharing left.now right.now) }
{
    if do_boxes_ascend(right) {
        count_sharing_places(left, right)
    } else {
        count_sharing_all(left, right)
    }
}

/// The pairs of two stretches that may overlap.
#[tactic(auto, unfolding(crate::specs::PairCounts::count_in_boxes))]
fn count_in_boxes(left: &Stretch, right: &Stretch) -> u64
    ensures { result ≡ model.capped (model.count_in_boxes left.now right.now) }
{
    if share_channel(left, right) {
        count_sharing(&left.boxes, &right.boxes)
    } else {
        (left.boxes.len() as u64).saturating_mul(right.boxes.len() as u64)
    }
}

/// The pairs of two stretches. One with no boxes is looked at once.
#[tactic(auto, unfolding(crate::specs::PairCounts::count_in_stretches))]
fn count_in_stretches(clocks: &Clocks, left: &Stretch, right: &Stretch) -> u64
    ensures { result ≡ model.capped (model.count_in_stretches (is_before_in clocks.now.rows) left.now right.now) }
{
    if right.boxes.is_empty() {
        return 0;
    }
    if may_overlap(clocks, left, right) {
        count_in_boxes(left, right)
    } else {
        0
    }
}

/// The pairs of a stretch with the stretches of the other zone.
#[tactic(auto, unfolding(crate::specs::PairCounts::count_against))]
pub(crate) fn count_against(clocks: &Clocks, others: &[Stretch], left: &Stretch) -> u64
    ensures { result ≡ model.capped (model.count_against (is_before_in clocks.now.rows) others.now left.now) }
{
    if left.boxes.is_empty() {
        return 0;
    }
    let mut count: u64 = 0;
    for right in others {
        count = count.saturating_add(count_in_stretches(clocks, left, right));
    }
    count
}

/// The pairs of the stretches of two zones.
fn count_all(clocks: &Clocks, own: &[Stretch], others: &[Stretch]) -> u64
    ensures { result ≡ model.capped (sum_by (model.count_against (is_before_in clocks.now.rows) others.now) own.now) }
{
    let mut count: u64 = 0;
    for left in own {
        count = count.saturating_add(count_against(clocks, others, left));
    }
    count
}

/// The pairs of the stretches of two zones, where each of the second is over as the next begins: a stretch of the first is looked
/// at with those alone that it may overlap.
fn count_ascending(clocks: &Clocks, own: &[Stretch], others: &[Stretch], own_ascends: bool) -> u64
    requires timed { IsTimed (is_before_in clocks.now.rows) (own.now ∷ (others.now ∷ [])) }
    requires own_ascend { own_ascends ≡ true → orders.is_chain (is_before_in clocks.now.rows) own.now ≡ true }
    requires ascend { orders.is_chain (is_before_in clocks.now.rows) others.now ≡ true }
    ensures { result ≡ model.capped (sum_by (model.count_against (is_before_in clocks.now.rows) others.now) own.now) }
{
    let mut walk = start_walk(clocks, own, others, own_ascends);
    let mut before = Boxes { place: 0, boxes: 0 };
    let mut upto = Boxes { place: 0, boxes: 0 };
    let mut latest = [0; CHANNEL_PLACES];
    let mut count: u64 = 0;
    for left in own {
        let range = range_of(clocks, left, others, walk);
        walk.range = range;
        mark_latest(&mut latest, others, upto.place, range.upto);
        before = boxes_before(others, range.from, before);
        upto = boxes_before(others, range.upto, upto);
        let sums = Sums {
            before,
            upto,
            latest: &latest,
        };
        count = count.saturating_add(count_in_range(clocks, left, others, range, &sums));
    }
    count
}

/// The pairs of two zones.
#[tactic(auto, unfolding(crate::specs::PairCounts::count_of_zones))]
pub(crate) fn count_of_zones(clocks: &Clocks, left: &TimedZone, right: &TimedZone) -> u64
    requires { AreTimed (is_before_in clocks.now.rows) (left.now, right.now) }
    ensures { result ≡ model.capped (model.count_of_zones (is_before_in clocks.now.rows)
        left.now.time right.now.time) }
{
    if left.zone.group == right.zone.group {
        return 0;
    }
    if right.ascends {
        count_ascending(clocks, left.stretches, right.stretches, left.ascends)
    } else {
        count_all(clocks, left.stretches, right.stretches)
    }
}

/// The pairs of each two of these zones, or the greatest `u64` where there are more.
fn count_in(zones: &TimedZones, clocks: &Clocks) -> u64
    requires { All (AreTimed (is_before_in clocks.now.rows)) (each_two zones.now) }
    ensures { result ≡ model.capped (sum_by (model.count_with (is_before_in clocks.now.rows)) (each_two zones.now)) }
{
    let mut count: u64 = 0;
    for pair in zones.pairs() {
        count = count.saturating_add(count_of_zones(clocks, &pair.0, &pair.1));
    }
    count
}

/// How many pairs of boxes are compared, or the greatest `u64` where there are more.
pub(crate) fn count_up_to(job: &Job, stretches: &Stretches, clocks: &Clocks) -> u64
    requires { (run : RunView) × IsTold job.now run stretches.now clocks.now }
    ensures { result ≡ model.capped (count_of (is_before_in clocks.now.rows) job.now stretches.now) }
{
    let zones = TimedZones::of(job, stretches, clocks);
    count_in(&zones, clocks)
}

/// How many pairs of boxes of zones of different groups are compared. It takes no memory.
pub fn count(job: &Job, stretches: &Stretches, clocks: &Clocks) -> u64
    requires whole { (run : RunView) × IsTold job.now run stretches.now clocks.now }
    requires few { count_of (is_before_in clocks.now.rows) job.now stretches.now < 2 ^ 64 }
    ensures { result ≡ count_of (is_before_in clocks.now.rows) job.now stretches.now }
{
    count_up_to(job, stretches, clocks)
}
