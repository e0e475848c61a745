//! The stretches of two zones that may overlap, one pair after another.
ghost use Rattle.std.specs.Prelude.{◌≡◌, ◌==◌, ◌∷◌, [], if◌then◌else◌, IfSome, None, Some, filter, length};
ghost use Rattle.order_clocks.specs.Tells.{is_before_in};
ghost use Rattle.zone_stretches.specs.Overlaps.{may_overlap};
ghost use Rattle.zone_stretches.specs.StretchPairs as model;
ghost use Rattle.zone_stretches.specs.TimedZones.{AreTimed};

use crate::ascents::{IndexRange, near_part};
use crate::overlaps::may_overlap;
use crate::stretches::Stretch;
use crate::timed_zones::{TimedZone, ZoneStretch};
use order_clocks::Clocks;
use std::marker::Model;

/// A stretch of a zone and one of another. A contract sees the zones and the stretches.
#[derive(Drop)]
pub struct StretchPair<'a> {
    /// The stretch of the zone with the lower number.
    pub left: ZoneStretch<'a>,
    /// That of the other zone.
    pub right: ZoneStretch<'a>,
}

impl<'a> Model for StretchPair<'a> {
    ghost use Rattle.zone_stretches.specs.StretchPairs.{StretchPairView};

    ghost Value = { StretchPairView };

    ghost view = { λ p. record {
      left = record { zone = p.left.zone.now; stretch = p.left.stretch.now };
      right = record { zone = p.right.zone.now; stretch = p.right.stretch.now };
    } };
}

/// The stretches of two zones of different groups that may overlap: the pairs that are left, in order. A contract sees the list of them.
#[derive(Drop)]
pub struct StretchPairs<'a> {
    clocks: &'a Clocks,
    left: &'a TimedZone<'a>,
    right: &'a TimedZone<'a>,
    own: Option<&'a Stretch>,
    others: &'a [Stretch],
    next: usize,
    range: IndexRange,
}

impl<'a> Model for StretchPairs<'a> {
    ghost use Rattle.std.specs.Prelude.{List, option_copied};
    ghost use Rattle.order_clocks.specs.Tells.{is_before_in};
    ghost use Rattle.zone_stretches.specs.StretchPairs.{StretchPairView, pairs_left};
    ghost use Rattle.zone_stretches.specs.TimedZones.{AreTimed};

    ghost Value = { List StretchPairView };

    ghost view = { λ p. pairs_left (is_before_in p.clocks.now.rows) p.left.now.time p.right.now.time
        (option_copied p.own) p.others.now p.next };

    ghost invariant = { λ p. AreTimed (is_before_in p.clocks.now.rows) (p.left.now, p.right.now) };
}

/// A stretch, the first of another zone that it may overlap, and those of that zone that come after.
#[derive(Clone, Copy)]
struct FirstPair<'a> {
    own: &'a Stretch,
    other: &'a Stretch,
    others: &'a [Stretch],
    next: usize,
    range: IndexRange,
}

/// The place of the stretch from which on pairs are looked for: that after the last where two zones are of one group.
fn first_place(left: &TimedZone, right: &TimedZone) -> usize
    ensures { result ≡ (if left.now.time.zone.group == right.now.time.zone.group
        then length left.now.time.stretches else 0) }
{
    if left.zone.group == right.zone.group {
        left.stretches.len()
    } else {
        0
    }
}

/// The first of these stretches that may overlap one, and those after it.
fn first_overlap<'a>(
    clocks: &Clocks,
    own: &Stretch,
    others: &'a [Stretch],
) -> Option<(&'a Stretch, &'a [Stretch])>
    ensures some { IfSome result (λ found. filter (may_overlap (is_before_in clocks.now.rows) own.now) others.now
        ≡ found.0.now ∷ filter (may_overlap (is_before_in clocks.now.rows) own.now) found.1.now) }
    ensures none { result ≡ None → filter (may_overlap (is_before_in clocks.now.rows) own.now) others.now ≡ [] }
{
    for place in 0..others.len() {
        let other = &others[place];
        if may_overlap(clocks, own, other) {
            return Some((other, &others[place + 1..]));
        }
    }
    None
}

/// The first stretch from this place on that may overlap one of another zone. Where these ascend, they are looked for in the range of
/// those of the stretch before.
fn first_pair<'a>(
    clocks: &Clocks,
    left: &TimedZone<'a>,
    right: &TimedZone<'a>,
    from: usize,
    range: IndexRange,
) -> Option<FirstPair<'a>>
    requires { AreTimed (is_before_in clocks.now.rows) (left.now, right.now) }
    ensures some { IfSome result (λ first.
        model.pairs_from (is_before_in clocks.now.rows) left.now.time right.now.time from
        ≡ model.two_stretches left.now.time right.now.time first.own.now first.other.now
        ∷ model.pairs_left (is_before_in clocks.now.rows) left.now.time right.now.time (Some first.own.now)
        first.others.now first.next) }
    ensures none { result ≡ None
        → model.pairs_from (is_before_in clocks.now.rows) left.now.time right.now.time from ≡ [] }
{
    let mut range = range;
    let stretches = left.stretches;
    for place in from..stretches.len() {
        let own = &stretches[place];
        let near = near_part(clocks, own, right.stretches, right.ascends, &mut range);
        if let Some((other, others)) = first_overlap(clocks, own, near) {
            return Some(FirstPair {
                own,
                other,
                others,
                next: place + 1,
                range,
            });
        }
    }
    None
}

impl<'a> StretchPairs<'a> {
    /// The pairs of stretches of `left` and `right` that may overlap. It takes no memory.
    pub fn of(clocks: &'a Clocks, left: &'a TimedZone<'a>, right: &'a TimedZone<'a>) -> Self
        requires { AreTimed (is_before_in clocks.now.rows) (left.now, right.now) }
        ensures { result ≡ model.overlapping_stretches (is_before_in clocks.now.rows) left.now.time right.now.time }
    {
        StretchPairs {
            clocks,
            left,
            right,
            own: None,
            others: &[],
            next: first_place(left, right),
            range: IndexRange { from: 0, upto: 0 },
        }
    }
}

/// A stretch of a zone and one of another.
fn pair_of<'a>(
    left: &'a TimedZone<'a>,
    own: &'a Stretch,
    right: &'a TimedZone<'a>,
    other: &'a Stretch,
) -> StretchPair<'a>
    ensures { result ≡ model.two_stretches left.now.time right.now.time own.now other.now }
{
    StretchPair {
        left: ZoneStretch {
            zone: &left.zone,
            stretch: own,
        },
        right: ZoneStretch {
            zone: &right.zone,
            stretch: other,
        },
    }
}

impl<'a> Iterator for StretchPairs<'a> {
    ghost use Rattle.std.specs.Iterator.{YieldsFirst, item_count};

    type Item = StretchPair<'a>;

    ghost next_gives = { YieldsFirst (λ left. left) };

    ghost remaining = { item_count (λ left. left) };

    fn next(&mut self) -> Option<StretchPair<'a>> {
        if let Some(own) = self.own {
            if let Some((other, others)) = first_overlap(self.clocks, own, self.others) {
                self.others = others;
                return Some(pair_of(self.left, own, self.right, other));
            }
        }
        match first_pair(self.clocks, self.left, self.right, self.next, self.range) {
            None => None,
            Some(first) => {
                self.own = Some(first.own);
                self.others = first.others;
                self.next = first.next;
                self.range = first.range;
                Some(pair_of(self.left, first.own, self.right, first.other))
            }
        }
    }
}
