//! Which channels have acted, and which an alarm has stopped.
ghost use Rattle.axis_sets.specs.declared.limits.TheConstants.{CHANNEL_PLACES};
ghost use Rattle.std.specs.Prelude.{◌≡◌, ℕ, ◌+◌, ◌^◌, ◌<◌, ◌≤◌, ◌==◌, ◌&&◌, not, Bool, true, false, List, [], ◌∷◌, map, filter, length, drop, slice_index, slice_index_or};
ghost use Rattle.axis_sets.specs.Sets.{has};
ghost use Rattle.std.specs.List.{list_any};
ghost use Rattle.order_clocks.specs.Stops.{AreActors, AreLastPlaces, alarms_in, is_alarm_end, is_idle_end, no_end, are_acted, IsWhole, TellsAlarms, is_alarm_in};
ghost use Rattle.order_clocks.specs.Clocked.{moves_in};
ghost use Rattle.sync_types.specs.Boards.{Board, channel_numbers};

use axis_sets::CHANNEL_PLACES;
use sync_types::{ChannelEnd, Entry};

/// The channel of an entry.
pub(crate) fn actor_of(entry: &Entry) -> usize
    ensures channel { result ≡ entry.now.channel }
    ensures from { 1 ≤ result }
    ensures below { result < CHANNEL_PLACES }
{
    usize::from(entry.channel.number)
}

/// For each channel one more than the place of its last entry; 0 where it has none.
pub(crate) fn last_places(entries: &[Entry]) -> [usize; CHANNEL_PLACES]
    ensures places { AreLastPlaces (map (λ e. e.channel) entries.now) (length entries.now) result }
    ensures channels { AreActors entries.now }
    ensures size { length result ≡ CHANNEL_PLACES }
{
    let mut last = [0; CHANNEL_PLACES];
    for i in 0..entries.len() {
        let c = actor_of(&entries[i]);
        last[c] = i + 1;
    }
    last
}

/// Sees that who acts in an entry is a channel of the machine. It runs for the proof alone.
pub(crate) fn see_actors(entries: &[Entry])
    ensures { AreActors entries.now }
{
    for i in 0..entries.len() {
        let _number = actor_of(&entries[i]);
    }
}

/// Whether a channel has not started.
pub(crate) fn is_idle(end: &ChannelEnd) -> bool
    ensures { result ≡ is_idle_end end.now }
{
    match end {
        ChannelEnd::Idle => true,
        _ => false,
    }
}

/// Whether an alarm has stopped a channel.
pub(crate) fn is_alarm(end: &ChannelEnd) -> bool
    ensures { result ≡ is_alarm_end end.now }
{
    match end {
        ChannelEnd::Alarmed(_) => true,
        _ => false,
    }
}

/// The place of the next channel that has started.
pub(crate) fn next_started(ends: &[ChannelEnd], from: usize) -> usize
    requires { from ≤ length ends.now }
    ensures rest { alarms_in (drop result ends.now) ≡ alarms_in (drop from ends.now) }
    ensures started { result < length ends.now → is_idle_end (slice_index_or ends.now result no_end) ≡ false }
    ensures within { result ≤ length ends.now }
{
    for k in from..ends.len() {
        if !is_idle(&ends[k]) {
            return k;
        }
    }
    ends.len()
}

/// Whether an alarm has stopped the next channel that has started, where that is asked, and where the ends go on.
pub(crate) fn take_end(ends: &[ChannelEnd], from: usize, acted: bool) -> (bool, usize)
    requires { from ≤ length ends.now }
    ensures within { result.1 ≤ length ends.now }
    ensures passed { acted ≡ false → result.1 ≡ from }
    ensures taken { (flag : Bool) (flags : List Bool) → acted ≡ true → alarms_in (drop from ends.now) ≡ flag ∷ flags
        → (result.0 ≡ flag) × (alarms_in (drop result.1 ends.now) ≡ flags) }
{
    if !acted {
        return (false, from);
    }
    let place = next_started(ends, from);
    if place < ends.len() {
        (is_alarm(&ends[place]), place + 1)
    } else {
        (false, place)
    }
}

/// For each channel that has acted whether an alarm has stopped it.
pub(crate) fn alarmed_of(
    last: &[usize; CHANNEL_PLACES],
    ends: &[ChannelEnd],
) -> [bool; CHANNEL_PLACES]
    ensures { (alarmed : ℕ → Bool) → alarms_in ends.now ≡ map alarmed (filter (are_acted last.now) channel_numbers)
        → (c : ℕ) → 1 ≤ c → c < CHANNEL_PLACES → are_acted last.now c ≡ true → has result c ≡ alarmed c }
{
    let mut alarmed = [false; CHANNEL_PLACES];
    let mut next = 0;
    for c in 1..CHANNEL_PLACES {
        let (flag, after) = take_end(ends, next, last[c] != 0);
        alarmed[c] = flag;
        next = after;
    }
    alarmed
}

/// Where each channel has acted last, and whether an alarm has stopped it.
#[derive(Clone, Copy)]
pub(crate) struct Stops {
    pub(crate) last: [usize; CHANNEL_PLACES],
    pub(crate) alarmed: [bool; CHANNEL_PLACES],
}

impl Stops {
    /// Whether the entry of this place is the last of its channel, which an alarm has stopped.
    pub(crate) fn is_at(&self, entry: &Entry, place: usize) -> bool
        requires { place + 1 < 2 ^ 64 }
        ensures { result ≡ is_alarm_in self.now place entry.now.channel }
    {
        let c = actor_of(entry);
        self.alarmed[c] && self.last[c] == place + 1
    }
}

/// Whether an alarm has stopped a channel of these.
pub(crate) fn has_alarm(ends: &[ChannelEnd]) -> bool
    ensures { result ≡ list_any is_alarm_end ends.now }
{
    ends.iter().any(|end| is_alarm(end))
}

/// The stops of channels that have acted, by who acted last where.
fn stops_by_places(entries: &[Entry], ends: &[ChannelEnd]) -> Stops
    ensures { (b : Board) → IsWhole b entries.now ends.now → TellsAlarms b (moves_in entries.now) result }
{
    let last = last_places(entries);
    let alarmed = alarmed_of(&last, ends);
    Stops { last, alarmed }
}

/// Which steps of a whole run alarm. Where no channel has an alarm none does, and the entries are not read: they are many.
pub(crate) fn stops_of(entries: &[Entry], ends: &[ChannelEnd]) -> Stops
    ensures { (b : Board) → IsWhole b entries.now ends.now → TellsAlarms b (moves_in entries.now) result }
{
    see_actors(entries);
    if has_alarm(ends) {
        stops_by_places(entries, ends)
    } else {
        Stops {
            last: [0; CHANNEL_PLACES],
            alarmed: [false; CHANNEL_PLACES],
        }
    }
}
