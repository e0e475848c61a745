//! Which stretches of a zone may overlap one of another: the stretches of a zone come one after another, so these stand side by
//! side.
ghost use Rattle.std.specs.Prelude.{◌≡◌, ◌≤◌, Bool, true, false, [], ◌∷◌, nat_le, drop, filter, take, length, slice_index_or};
ghost use Rattle.order_clocks.specs.Tells.{is_before_in};
ghost use Rattle.zone_stretches.specs.Ascents as model;
ghost use Rattle.zone_stretches.specs.Ascents.{IsTimed};
ghost use Rattle.zone_stretches.specs.Overlaps.{may_overlap};
ghost use Rattle.zone_stretches.specs.Times.{lists_in};

use crate::Stretch;
use crate::overlaps::{is_open_at, is_upto};
use axis_sets::ZONE_LIMIT;
use order_clocks::Clocks;
use sync_types::EventId;

/// Two places among the stretches of a zone: of the first that may overlap a stretch of another zone, and of the first after
/// these.
#[derive(Clone, Copy)]
pub struct IndexRange {
    /// The place of the first.
    pub from: usize,
    /// The place after the last.
    pub upto: usize,
}

/// A walk along the stretches of a zone: for each of them the places are found of the stretches of another zone that may overlap it.
#[derive(Clone, Copy)]
pub struct RangeCursor {
    /// Whether each stretch that is walked along is over as the next begins, so that the places only go on.
    pub ascends: bool,
    /// The places found last.
    pub range: IndexRange,
    /// How far the places go, where they only go on.
    pub limit: IndexRange,
}

/// Whether a stretch is over as another begins.
fn is_over(clocks: &Clocks, early: &Stretch, late: &Stretch) -> bool
    ensures { result ≡ model.is_over (is_before_in clocks.now.rows) early.now late.now }
{
    !is_open_at(clocks, early.last, late.first)
}

/// Whether an event, if there are two, is another or before it.
fn is_in_order(clocks: &Clocks, first: Option<EventId>, last: Option<EventId>) -> bool
    ensures { result ≡ model.is_in_order (is_before_in clocks.now.rows) first last }
{
    match first {
        None => true,
        Some(first) => match last {
            None => true,
            Some(last) => is_upto(clocks, &first, &last),
        },
    }
}

/// Whether a stretch does not end before it begins.
fn is_forward(clocks: &Clocks, stretch: &Stretch) -> bool
    ensures { result ≡ model.is_forward (is_before_in clocks.now.rows) stretch.now }
{
    is_in_order(clocks, stretch.first, stretch.last)
}

/// Whether a stretch is over as the one of this place begins, if there is one.
fn is_over_at(clocks: &Clocks, early: &Stretch, stretches: &[Stretch], place: usize) -> bool
    ensures { result ≡ model.is_over_at_first (is_before_in clocks.now.rows) early.now (drop place stretches.now) }
{
    if place < stretches.len() {
        is_over(clocks, early, &stretches[place])
    } else {
        true
    }
}

/// Whether each stretch is over as the next begins.
pub fn is_chain(clocks: &Clocks, stretches: &[Stretch]) -> bool
    ensures { result ≡ model.is_chain (is_before_in clocks.now.rows) stretches.now }
{
    for place in 0..stretches.len() {
        let stretch = &stretches[place];
        if !is_forward(clocks, stretch) || !is_over_at(clocks, stretch, stretches, place + 1) {
            return false;
        }
    }
    true
}

/// Of the zones, by their places, those of which each stretch is over as the next begins.
pub fn ascents_of(clocks: &Clocks, lists: &[Vec<Stretch>]) -> [bool; ZONE_LIMIT]
    ensures { model.AreAscents (is_before_in clocks.now.rows) (lists_in lists.now) result }
{
    let mut ascents = [false; ZONE_LIMIT];
    for place in 0..lists.len().min(ZONE_LIMIT) {
        ascents[place] = is_chain(clocks, lists[place].as_slice());
    }
    ascents
}

/// Whether the zone of this place is known as one of those of which each stretch is over as the next begins.
pub fn ascends_at(ascents: &[bool; ZONE_LIMIT], place: usize) -> bool
    ensures { result ≡ slice_index_or ascents.now place false }
{
    place < ZONE_LIMIT && ascents[place]
}

/// What stretches of another zone are asked beside a stretch: whether each is over as this one begins; or where that is asked,
/// whether it begins before this one is over. Those that are or do pass.
#[derive(Clone, Copy)]
struct Passing<'a> {
    clocks: &'a Clocks,
    ended: bool,
    own: &'a Stretch,
}

/// Whether a stretch of another zone is over as this one begins; or where that is asked, whether it begins before this one is
/// over.
fn passes(clocks: &Clocks, ended: bool, own: &Stretch, other: &Stretch) -> bool
    ensures { result ≡ model.passes (is_before_in clocks.now.rows) ended own.now other.now }
{
    if ended {
        is_over(clocks, other, own)
    } else {
        !is_over(clocks, own, other)
    }
}

impl<'a> Passing<'a> {
    /// How many stretches pass before the first that does not: no fewer than the one number and no more than the other.
    fn count_between(&self, others: &[Stretch], low: usize, high: usize) -> usize
        requires low { low ≤ model.leading (model.passes (is_before_in self.now.clocks.now.rows) self.now.ended
            self.now.own.now) others.now }
        requires high { model.leading (model.passes (is_before_in self.now.clocks.now.rows) self.now.ended
            self.now.own.now) others.now ≤ high }
        requires within { high ≤ length others.now }
        ensures { result ≡ model.leading (model.passes (is_before_in self.now.clocks.now.rows) self.now.ended
            self.now.own.now) others.now }
    {
        for place in low..high {
            if !passes(self.clocks, self.ended, self.own, &others[place]) {
                return place;
            }
        }
        high
    }
}

/// How many stretches pass before the first that does not, found by halves.
fn count_by_halves(clocks: &Clocks, ended: bool, own: &Stretch, others: &[Stretch]) -> usize
    requires { model.PassFirst (model.passes (is_before_in clocks.now.rows) ended own.now) others.now }
    ensures { result ≡ model.leading (model.passes (is_before_in clocks.now.rows) ended own.now) others.now }
{
    others.partition_point(
        |other: &Stretch| -> bool
            ensures { result ≡ model.passes (is_before_in clocks.entry.now.rows) ended own.entry.now other.now }
        { passes(clocks, ended, own, other) },
    )
}

/// The places of the stretches that may overlap this one, found by halves.
fn range_by_halves(clocks: &Clocks, own: &Stretch, others: &[Stretch]) -> IndexRange
    requires { (ended : Bool) → model.PassFirst (model.passes (is_before_in clocks.now.rows) ended own.now) others.now }
    ensures from { result.from ≡ model.leading (model.passes (is_before_in clocks.now.rows) true own.now) others.now }
    ensures upto { result.upto ≡ model.leading (model.passes (is_before_in clocks.now.rows) false own.now) others.now }
{
    IndexRange {
        from: count_by_halves(clocks, true, own, others),
        upto: count_by_halves(clocks, false, own, others),
    }
}

/// A walk along the stretches of a zone, at its start. Where these ascend, the places go from those of the first to those of the last.
pub fn start_walk(
    clocks: &Clocks,
    own: &[Stretch],
    others: &[Stretch],
    ascends: bool,
) -> RangeCursor
    requires timed { IsTimed (is_before_in clocks.now.rows) (own.now ∷ (others.now ∷ [])) }
    requires ascend { ascends ≡ true → model.is_chain (is_before_in clocks.now.rows) own.now ≡ true }
    requires others { model.is_chain (is_before_in clocks.now.rows) others.now ≡ true }
    ensures { model.IsWalk (is_before_in clocks.now.rows) own.now others.now 0 result }
{
    if !ascends || own.is_empty() {
        let none = IndexRange { from: 0, upto: 0 };
        return RangeCursor {
            ascends: false,
            range: none,
            limit: none,
        };
    }
    RangeCursor {
        ascends,
        range: range_by_halves(clocks, &own[0], others),
        limit: range_by_halves(clocks, &own[own.len() - 1], others),
    }
}

/// The places of the stretches that may overlap this one, the next of a walk.
pub fn range_of(clocks: &Clocks, own: &Stretch, others: &[Stretch], walk: RangeCursor) -> IndexRange
    requires passing { (ended : Bool) → model.PassFirst
        (model.passes (is_before_in clocks.now.rows) ended own.now) others.now }
    requires known { walk.ascends ≡ true → model.IsBetween (is_before_in clocks.now.rows) own.now
        others.now walk.range walk.limit }
    ensures within_from { result.from ≤ length others.now }
    ensures within { result.upto ≤ length others.now }
    ensures from { result.from ≡ model.leading (model.passes (is_before_in clocks.now.rows) true own.now) others.now }
    ensures upto { result.upto ≡ model.leading (model.passes (is_before_in clocks.now.rows) false own.now) others.now }
{
    if !walk.ascends {
        return range_by_halves(clocks, own, others);
    }
    let low = walk.range;
    let high = walk.limit;
    let over = Passing {
        clocks,
        ended: true,
        own,
    };
    let begun = Passing {
        clocks,
        ended: false,
        own,
    };
    IndexRange {
        from: over.count_between(others, low.from, high.from),
        upto: begun.count_between(others, low.upto, high.upto),
    }
}

/// Whether so many stretches pass before the first that does not.
fn do_pass(clocks: &Clocks, ended: bool, own: &Stretch, others: &[Stretch], count: usize) -> bool
    requires { model.PassFirst (model.passes (is_before_in clocks.now.rows) ended own.now) others.now }
    ensures { result ≡ nat_le count (model.leading
        (model.passes (is_before_in clocks.now.rows) ended own.now) others.now) }
{
    if count == 0 {
        return true;
    }
    if others.len() < count {
        return false;
    }
    passes(clocks, ended, own, &others[count - 1])
}

/// Whether so many pass and no more.
fn is_count(clocks: &Clocks, ended: bool, own: &Stretch, others: &[Stretch], count: usize) -> bool
    requires { model.PassFirst (model.passes (is_before_in clocks.now.rows) ended own.now) others.now }
    ensures { result ≡ true → count ≡ model.leading
        (model.passes (is_before_in clocks.now.rows) ended own.now) others.now }
{
    do_pass(clocks, ended, own, others, count)
        && !do_pass(clocks, ended, own, others, count.saturating_add(1))
}

/// How many stretches pass before the first that does not: as many as is guessed or one more, or as many as are found by halves.
fn count_near(
    clocks: &Clocks,
    ended: bool,
    own: &Stretch,
    others: &[Stretch],
    guess: usize,
) -> usize
    requires { model.PassFirst (model.passes (is_before_in clocks.now.rows) ended own.now) others.now }
    ensures { result ≡ model.leading (model.passes (is_before_in clocks.now.rows) ended own.now) others.now }
{
    if is_count(clocks, ended, own, others, guess) {
        return guess;
    }
    let next = guess.saturating_add(1);
    if is_count(clocks, ended, own, others, next) {
        return next;
    }
    count_by_halves(clocks, ended, own, others)
}

/// The places of the stretches that may overlap this one, looked for first where they are guessed.
fn range_near(clocks: &Clocks, own: &Stretch, others: &[Stretch], guess: IndexRange) -> IndexRange
    requires { (ended : Bool) → model.PassFirst (model.passes (is_before_in clocks.now.rows) ended own.now) others.now }
    ensures from { result.from ≡ model.leading (model.passes (is_before_in clocks.now.rows) true own.now) others.now }
    ensures upto { result.upto ≡ model.leading (model.passes (is_before_in clocks.now.rows) false own.now) others.now }
    ensures within { result.upto ≤ length others.now }
{
    IndexRange {
        from: count_near(clocks, true, own, others, guess.from),
        upto: count_near(clocks, false, own, others, guess.upto),
    }
}

/// What stands in these places.
pub fn part<T>(others: &[T], range: IndexRange) -> &[T]
    requires { range.upto ≤ length others.now }
    ensures { result.now ≡ drop range.from (take range.upto others.now) }
{
    if range.from <= range.upto {
        &others[range.from..range.upto]
    } else {
        &[]
    }
}

/// Stretches of another zone among which all are that may overlap this one: no others, where each of them is over as the next begins;
/// else all. They are looked for first where those of the stretch before stood, since they come one after another.
pub fn near_part<'a>(
    clocks: &Clocks,
    own: &Stretch,
    others: &'a [Stretch],
    ascend: bool,
    range: &mut IndexRange,
) -> &'a [Stretch]
    requires { ascend ≡ true → (ended : Bool)
        → model.PassFirst (model.passes (is_before_in clocks.now.rows) ended own.now) others.now }
    ensures { filter (may_overlap (is_before_in clocks.now.rows) own.now) result.now
        ≡ filter (may_overlap (is_before_in clocks.now.rows) own.now) others.now }
{
    if ascend {
        let found = range_near(clocks, own, others, *range);
        *range = found;
        part(others, found)
    } else {
        others
    }
}
