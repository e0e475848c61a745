//! The events of a step with what they leave and mind, and the waits when it is over.
ghost use Rattle.axis_sets.specs.Sets.{has};
ghost use Rattle.axis_sets.specs.declared.limits.TheConstants.{CHANNEL_PLACES};
ghost use Rattle.order_clocks.specs.Chains.{IsIn};
ghost use Rattle.order_clocks.specs.TracedRaces.{Trace};
ghost use Rattle.order_clocks.specs.LastPlaces.{deed_leaves, deed_minds, departure_leaves, departure_minds};
ghost use Rattle.order_clocks.specs.Pairs.{AreEvents, AreWaits, IsActEvent, IsGoAt, IsWaitAt, IsWaitEvent, left_by, minded_by};
ghost use Rattle.std.specs.Prelude.{◌≡◌, ℕ, ◌↔◌, ◌<◌, true, length, Some, None, slice_index_or};
ghost use Rattle.step_deeds.specs.Holds.{DepartsFromMark, HoldAtLineOfMark, asks_begun, asks_of_hold, departure_of, line_of_held, lowers_at, marks_begun, marks_in, marks_of_hold};

use axis_sets::{AxisSet, CHANNEL_PLACES, ChannelId, ChannelSet, MarkSet};
use counter_rows::{StepClocks, VectorClock};
use step_deeds::{
    NamedMarks, StepEvents, WaitAt, Wakeup, axes_begun, axes_of_hold, line_of, marks_begun,
    marks_lowered, marks_needed, marks_of_hold,
};

/// The places of the events of a step: by channel, and last the act.
pub(crate) const EVENT_PLACES: usize = CHANNEL_PLACES + 1;

/// An event with its counters, what it leaves and what it minds; or a wait.
#[derive(Clone, Copy)]
pub struct Event {
    /// A channel of it.
    pub channel: ChannelId,
    /// The line that is printed.
    pub line: u32,
    /// Its counters.
    pub row: VectorClock,
    /// Its own marks that it lowers.
    pub lowers: MarkSet,
    /// The marks that it needed.
    pub needs: Option<NamedMarks>,
    /// The axes that it took.
    pub took: AxisSet,
    /// The channels of its INIT or START.
    pub touches: ChannelSet,
    /// The marks for which it begins to wait.
    pub waits: Option<NamedMarks>,
    /// The axes for which it begins to wait.
    pub asks: AxisSet,
}

/// The act.
pub(crate) fn act_event(deed: &StepEvents, row: VectorClock) -> Event
    ensures { IsActEvent deed.now row result }
{
    Event {
        channel: deed.channel,
        line: deed.line,
        row,
        lowers: deed.lowers,
        needs: None,
        took: AxisSet::empty(),
        touches: deed.touches,
        waits: marks_begun(&deed.begins),
        asks: axes_begun(&deed.begins),
    }
}

/// That a channel goes on.
pub(crate) fn go_event(channel: ChannelId, gone: &Wakeup, row: VectorClock) -> Event
    requires { HoldAtLineOfMark gone.now.held }
    ensures channel { result.channel ≡ channel }
    ensures line { result.line ≡ line_of_held gone.now.held }
    ensures row { result.row ≡ row }
    ensures left { (t : Trace) → left_by result t ≡ departure_leaves channel gone.now t }
    ensures minded { (t : Trace) → (minded_by result t ≡ true) ↔ IsIn t (departure_minds channel (Some gone.now)) }
    ensures needs { result.needs ≡ marks_in gone.now.held }
{
    Event {
        channel,
        line: line_of(&gone.held),
        row,
        lowers: marks_lowered(&gone.held),
        needs: marks_needed(&gone.held),
        took: gone.took,
        touches: ChannelSet::empty(),
        waits: None,
        asks: AxisSet::empty(),
    }
}

/// Empties a place. One that is empty is not written.
fn empty(place: &mut Option<Event>)
    ensures { place.new ≡ None }
{
    if place.is_some() {
        *place = None;
    }
}

/// Puts in its place that a channel goes on, where it does.
pub(crate) fn put_go(
    goes: &[Option<Wakeup>; CHANNEL_PLACES],
    rows: &[VectorClock; CHANNEL_PLACES],
    channel: ChannelId,
    place: &mut Option<Event>,
)
    requires numbers { (c : ℕ) → DepartsFromMark (slice_index_or goes.now c None) }
    ensures { IsGoAt goes.now rows.now channel place.new }
{
    let c = usize::from(channel.number);
    match &goes[c] {
        None => empty(place),
        Some(gone) => *place = Some(go_event(channel, gone, rows[c])),
    }
}

/// Puts in their places, by channel, that channels go on.
pub(crate) fn put_goes(
    goes: &[Option<Wakeup>; CHANNEL_PLACES],
    rows: &[VectorClock; CHANNEL_PLACES],
    events: &mut [Option<Event>; EVENT_PLACES],
)
    requires numbers { (c : ℕ) → DepartsFromMark (slice_index_or goes.now c None) }
    ensures go { (c : ℕ) → 0 < c → c < CHANNEL_PLACES → IsGoAt goes.now rows.now c (slice_index_or events.new c None) }
    ensures none { slice_index_or events.new 0 None ≡ None }
    ensures size { length events.new ≡ EVENT_PLACES }
{
    empty(&mut events[0]);
    for number in 1..CHANNEL_PLACES as u8 {
        let place = &mut events[usize::from(number)];
        put_go(goes, rows, ChannelId { number }, place);
    }
}

/// Puts the events of a step in their places: by channel that it goes on, and last the act. What stood there is gone.
pub(crate) fn put_events(
    deed: &StepEvents,
    rows: &StepClocks,
    events: &mut [Option<Event>; EVENT_PLACES],
)
    requires numbers { (c : ℕ) → DepartsFromMark (departure_of deed.now c) }
    ensures { AreEvents deed.now rows.now events.new }
{
    put_goes(&deed.goes, &rows.goes, events);
    events[CHANNEL_PLACES] = Some(act_event(deed, rows.act));
}

/// The wait of a channel.
pub(crate) fn wait_event(channel: ChannelId, held: &WaitAt) -> Event
    ensures { IsWaitEvent held.now channel result }
{
    Event {
        channel,
        line: held.line,
        row: VectorClock::zero(),
        lowers: MarkSet::empty(),
        needs: None,
        took: AxisSet::empty(),
        touches: ChannelSet::empty(),
        waits: marks_of_hold(&held.hold),
        asks: axes_of_hold(&held.hold),
    }
}

/// Puts the wait of a channel in its place, where it waits.
pub(crate) fn put_wait(
    holds: &[Option<WaitAt>; CHANNEL_PLACES],
    channel: ChannelId,
    place: &mut Option<Event>,
)
    ensures { IsWaitAt (slice_index_or holds.now channel None) channel place.new }
{
    match &holds[usize::from(channel.number)] {
        None => empty(place),
        Some(held) => *place = Some(wait_event(channel, held)),
    }
}

/// Puts the waits of the channels in their places. What stood there is gone.
pub(crate) fn put_waits(
    holds: &[Option<WaitAt>; CHANNEL_PLACES],
    waits: &mut [Option<Event>; EVENT_PLACES],
)
    ensures waits { AreWaits holds.now waits.new }
    ensures size { length holds.now ≡ CHANNEL_PLACES }
{
    empty(&mut waits[0]);
    empty(&mut waits[CHANNEL_PLACES]);
    for number in 1..CHANNEL_PLACES as u8 {
        let place = &mut waits[usize::from(number)];
        put_wait(holds, ChannelId { number }, place);
    }
}
