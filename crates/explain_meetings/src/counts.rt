//! How many boxes of two zones are compared.
ghost use Rattle.std.specs.Prelude.{◌≡◌, length};
ghost use Rattle.std.specs.List.{count_by};
ghost use Rattle.explain_meetings.specs.CountSteps as steps;
ghost use Rattle.explain_meetings.specs.Groups.{capped};
ghost use Rattle.order_clocks.specs.Tells.{is_before_in};
ghost use Rattle.zone_stretches.specs.Overlaps.{share_place};
ghost use Rattle.zone_stretches.specs.StretchPairs.{boxes_with};
ghost use Rattle.zone_stretches.specs.TimedZones.{AreTimed};

use order_clocks::Clocks;
use zone_stretches::{Stretch, StretchPairs, TimedZone, ZoneBox, share_channel, share_place};

/// With how many of these a box holds a place in common.
fn count_near(own: &ZoneBox, laters: &[ZoneBox]) -> u64
    ensures { result ≡ capped (count_by (share_place own.now) laters.now) }
{
    let mut count: u64 = 0;
    for later in laters {
        if share_place(own, later) {
            count = count.saturating_add(1);
        }
    }
    count
}

/// How many pairs of these boxes and of those hold a place in common.
#[tactic(auto, unfolding(crate::specs::CountSteps::count_sharing))]
fn count_sharing(owns: &[ZoneBox], laters: &[ZoneBox]) -> u64
    ensures { result ≡ capped (steps.count_sharing owns.now laters.now) }
{
    let mut count: u64 = 0;
    for own in owns {
        count = count.saturating_add(count_near(own, laters));
    }
    count
}

/// How many boxes of two stretches are compared that may overlap.
#[tactic(auto, unfolding(crate::specs::CountSteps::count_in_boxes))]
fn count_in_boxes(left: &Stretch, right: &Stretch) -> u64
    ensures { result ≡ capped (steps.count_in_boxes left.now right.now) }
{
    if share_channel(left, right) {
        count_sharing(&left.boxes, &right.boxes)
    } else {
        (left.boxes.len() as u64).saturating_mul(right.boxes.len() as u64)
    }
}

/// How many boxes of two zones are compared, or the greatest number of 64 bits where there are more.
pub(crate) fn count_of_zones(clocks: &Clocks, left: &TimedZone, right: &TimedZone) -> u64
    requires { AreTimed (is_before_in clocks.now.rows) (left.now, right.now) }
    ensures { result ≡ capped (length (boxes_with (is_before_in clocks.now.rows) (left.now, right.now))) }
{
    let mut count: u64 = 0;
    for pair in StretchPairs::of(clocks, left, right) {
        let left = pair.left;
        let right = pair.right;
        count = count.saturating_add(count_in_boxes(left.stretch, right.stretch));
    }
    count
}
