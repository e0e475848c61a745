//! The races of two events, and the least of many.
ghost use Rattle.axis_sets.specs.Sets.{has};
ghost use Rattle.axis_sets.specs.declared.limits.TheConstants.{AXIS_LIMIT};
ghost use Rattle.counter_rows.specs.Rows.{count_of};
ghost use Rattle.order_clocks.specs.TracedRaces.{Lowered, Needed, Took, Touched};
ghost use Rattle.order_clocks.specs.Pairs.{AreUnlike, IsApartPair, IsLeastOf, IsLeastWith, IsMet, IsPairRace, IsRaceBetween, IsRaceOver, IsUnlikePair, IsUnordered, IsWaitingPair};
ghost use Rattle.order_clocks.specs.RaceOrder.{IsUpTo, numbers_of};
ghost use Rattle.order_clocks.specs.declared.pairs.RaceTiming.TheVariants.{Later, Together, Waiting};
ghost use Rattle.std.specs.Prelude.{◌≡◌, ℕ, ◌↔◌, ◌==◌, ◌||◌, ◌<◌, true, false, IsTrue, MatchOption, length};
ghost use Rattle.sync_types.specs.declared.runs.Race.{Race};
ghost use Rattle.step_deeds.specs.Holds.{waits_in};

use crate::events::{EVENT_PLACES, Event};
use step_deeds::{differ, meets_wait, share_axes, share_channels};
use sync_types::Race;

/// How two events of a race stand to one another.
#[derive(Clone, Copy)]
pub enum RaceTiming {
    /// The second is of a later step.
    Later,
    /// Both go on in one step.
    Together,
    /// The second is a wait that goes on when the step of the first is over.
    Waiting,
}

impl Event {
    /// The number of its channel.
    pub(crate) fn place(&self) -> usize
        ensures { result ≡ self.now.channel }
    {
        usize::from(self.channel.number)
    }

    /// Whether a later event is of another channel and does not count this one.
    pub(crate) fn is_unordered(&self, late: &Event) -> bool
        ensures { IsTrue result ↔ IsUnordered self.now late.now }
    {
        let c = self.place();
        c != late.place() && late.row.at(c) < self.row.at(c)
    }

    /// Whether another waits for a mark that this one lowers.
    pub(crate) fn meets_lowered(&self, late: &Event) -> bool
        ensures { IsTrue result ↔ ((c m : ℕ) × IsMet self.now late.now (Lowered c m)) }
    {
        meets_wait(&late.waits, self.lowers, self.channel)
    }

    /// Whether another lowers a mark that this one needed.
    pub(crate) fn meets_needed(&self, late: &Event) -> bool
        ensures { IsTrue result ↔ ((c m : ℕ) × IsMet self.now late.now (Needed c m)) }
    {
        meets_wait(&self.needs, late.lowers, late.channel)
    }

    /// Whether another asks for an axis that this one took.
    pub(crate) fn meets_taken(&self, late: &Event) -> bool
        ensures { IsTrue result ↔ ((x : ℕ) × IsMet self.now late.now (Took x)) }
    {
        share_axes(self.took, late.asks)
    }

    /// Whether both are INIT or START on one channel.
    pub(crate) fn meets_touched(&self, late: &Event) -> bool
        ensures { IsTrue result ↔ ((c : ℕ) × IsMet self.now late.now (Touched c)) }
    {
        share_channels(self.touches, late.touches)
    }

    /// Whether this one names the other at the number of both, and they name others.
    pub(crate) fn is_unlike(&self, other: &Event) -> bool
        ensures { IsTrue result ↔ AreUnlike self.now.needs other.now.needs self.now.channel other.now.channel }
    {
        match &self.needs {
            None => false,
            Some(one) => match &other.needs {
                None => false,
                Some(two) => {
                    one.number == two.number
                        && one.named.contains(other.channel)
                        && differ(one.named.with(self.channel), two.named.with(other.channel))
                }
            },
        }
    }
}

/// Whether a race is up to another in the order of races.
pub(crate) fn is_up_to(race: &Race, other: &Race) -> bool
    ensures { IsTrue result ↔ IsUpTo (numbers_of race.now) (numbers_of other.now) }
{
    if race.case != other.case {
        return race.case < other.case;
    }
    if race.first.0.number != other.first.0.number {
        return race.first.0.number < other.first.0.number;
    }
    if race.first.1 != other.first.1 {
        return race.first.1 < other.first.1;
    }
    if race.second.0.number != other.second.0.number {
        return race.second.0.number < other.second.0.number;
    }
    race.second.1 <= other.second.1
}

/// The lesser of the races so far and another.
pub(crate) fn lesser(least: Option<Race>, race: Race) -> Option<Race>
    ensures { MatchOption result ⊥ (λ r. IsLeastOf least race r) }
{
    match least {
        None => Some(race),
        Some(old) => {
            if is_up_to(&old, &race) {
                Some(old)
            } else {
                Some(race)
            }
        }
    }
}

/// The lesser of the races so far and another, where that is one.
pub(crate) fn lesser_if(least: Option<Race>, is_race: bool, race: Race) -> Option<Race>
    ensures { IsLeastWith (λ q. (is_race ≡ true) × (q ≡ race)) least result }
{
    if is_race { lesser(least, race) } else { least }
}

/// A race of two events.
pub(crate) fn race_of(case: u8, first: &Event, second: &Event) -> Race
    ensures { result ≡ (record {
      case = case;
      first = (first.now.channel, first.now.line);
      second = (second.now.channel, second.now.line);
    }) }
{
    Race {
        case,
        first: (first.channel, first.line),
        second: (second.channel, second.line),
    }
}

/// The least of the races so far and those of an event and one of a later step: a, b, e and g.
pub(crate) fn least_apart(early: &Event, late: &Event, least: Option<Race>) -> Option<Race>
    ensures { IsLeastWith (IsApartPair early.now late.now) least result }
{
    if !early.is_unordered(late) {
        return least;
    }
    let lowered = lesser_if(least, early.meets_lowered(late), race_of(b'a', early, late));
    let needed = lesser_if(
        lowered,
        early.meets_needed(late),
        race_of(b'b', late, early),
    );
    let taken = lesser_if(needed, early.meets_taken(late), race_of(b'e', early, late));
    lesser_if(taken, early.meets_touched(late), race_of(b'g', early, late))
}

/// The least of the races so far and that of two which go on in one step: d.
pub(crate) fn least_unlike(one: &Event, other: &Event, least: Option<Race>) -> Option<Race>
    ensures { IsLeastWith (IsUnlikePair one.now other.now) least result }
{
    lesser_if(least, one.is_unlike(other), race_of(b'd', other, one))
}

/// The least of the races so far and those of an event and the wait of another channel: c and f.
pub(crate) fn least_waiting(event: &Event, wait: &Event, least: Option<Race>) -> Option<Race>
    ensures { IsLeastWith (IsWaitingPair event.now wait.now) least result }
{
    if event.place() == wait.place() {
        return least;
    }
    let lowered = lesser_if(least, event.meets_lowered(wait), race_of(b'c', event, wait));
    lesser_if(lowered, event.meets_taken(wait), race_of(b'f', event, wait))
}

/// The least of the races so far and those of two events that stand so to one another.
pub(crate) fn least_pair(
    meeting: &RaceTiming,
    early: &Event,
    late: &Event,
    least: Option<Race>,
) -> Option<Race>
    ensures { IsLeastWith (IsPairRace meeting.now early.now late.now) least result }
{
    match meeting {
        RaceTiming::Later => least_apart(early, late, least),
        RaceTiming::Together => least_unlike(early, late, least),
        RaceTiming::Waiting => least_waiting(early, late, least),
    }
}

/// The least of the races so far and those of an event with others.
pub(crate) fn least_over(
    meeting: &RaceTiming,
    events: &[Option<Event>; EVENT_PLACES],
    late: &Event,
    start: Option<Race>,
) -> Option<Race>
    ensures { IsLeastWith (IsRaceOver meeting.now events.now EVENT_PLACES late.now) start result }
{
    let mut least = start;
    for k in 0..EVENT_PLACES {
        match &events[k] {
            None => {}
            Some(early) => least = least_pair(meeting, early, late, least),
        }
    }
    least
}

/// The least of the races so far and those of events with others.
pub(crate) fn least_between(
    meeting: &RaceTiming,
    earlies: &[Option<Event>; EVENT_PLACES],
    lates: &[Option<Event>; EVENT_PLACES],
    start: Option<Race>,
) -> Option<Race>
    ensures { IsLeastWith (IsRaceBetween meeting.now earlies.now lates.now EVENT_PLACES) start result }
{
    let mut least = start;
    for k in 0..EVENT_PLACES {
        match &lates[k] {
            None => {}
            Some(late) => least = least_over(meeting, earlies, late, least),
        }
    }
    least
}
