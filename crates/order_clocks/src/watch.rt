//! Reads the steps of a run from its entries.
ghost use Rattle.axis_sets.specs.declared.limits.TheConstants.{CHANNEL_LIMIT, CHANNEL_PLACES};
ghost use Rattle.std.specs.List.{list_any};
ghost use Rattle.std.specs.Prelude.{◌≡◌, [], List, Option, Some, ℕ, ◌<◌, ◌≤◌, ◌==◌, ◌&&◌, ◌||◌, not, Bool, false, true, find, is_some, None, if◌then◌else◌, slice_index, slice_index_or, length, map, option_copied, option_map};
ghost use Rattle.axis_sets.specs.Positions.{position_of};
ghost use Rattle.axis_sets.specs.Sets.{has};
ghost use Rattle.order_clocks.specs.Happenings.{happening_of};
ghost use Rattle.order_clocks.specs.Watching.{BeginIsSound, Keeps, IsRead, IsLawful, IsGone, WatchIsSound, begun_at, go_in};
ghost use Rattle.sync_types.specs.Boards.{Board};
ghost use Rattle.sync_types.specs.Turns.{after_step};
ghost use Rattle.order_clocks.specs.Partners.{AreAllLinked, PairsAllPartners};
ghost use Rattle.step_deeds.specs.Holds.{DepartsFromMark, HoldAtLineOfMark, are_partners, departure_of, goes_in, is_at_axes, is_given, lowers_at};
ghost use Rattle.sync_types.specs.Events.{Pair};

use crate::acts::{Act, changes_of, touches_of};
use crate::groups::groups_of;
use axis_sets::{AxisId, AxisSet, CHANNEL_PLACES, ChannelId, ChannelSet, MarkSet, Positions};
use std::marker::Model;
use step_deeds::{StepEvents, WaitAt, Wakeup, clear_goes, marks_left, took_of};
use sync_types::{Entry, Go};

/// The marks that stand and for what channels wait, by their numbers.
#[derive(Clone, Copy)]
pub(crate) struct BoardReplay {
    pub(crate) marks: [MarkSet; CHANNEL_PLACES],
    pub(crate) holds: [Option<WaitAt>; CHANNEL_PLACES],
}

impl BoardReplay {
    /// Before the first step.
    pub(crate) fn new() -> BoardReplay
        ensures marks { (c m : ℕ) → has (slice_index_or result.marks c []) m ≡ false }
        ensures holds { (c : ℕ) → slice_index_or result.holds c None ≡ None }
    {
        BoardReplay {
            marks: [MarkSet::empty(); CHANNEL_PLACES],
            holds: [None; CHANNEL_PLACES],
        }
    }

    /// The act of a channel.
    pub(crate) fn open(&mut self, channel: ChannelId, line: u32, act: &Act)
        ensures marks { (c m : ℕ) → has (slice_index_or self.new.marks c []) m
            ≡ (if c == channel then (has (slice_index_or self.old.marks c []) m || has act.now.raises m)
            && not (has act.now.lowers m) else has (slice_index_or self.old.marks c []) m) }
        ensures holds { (c : ℕ) → slice_index_or self.new.holds c None
            ≡ (if c == channel then begun_at act.now.begins line (slice_index_or self.old.holds c None)
            else slice_index_or self.old.holds c None) }
    {
        let c = usize::from(channel.number);
        self.marks[c] = self.marks[c].union(act.raises).minus(act.lowers);
        match &act.begins {
            None => {}
            Some(hold) => self.holds[c] = Some(WaitAt { hold: *hold, line }),
        }
    }

    /// A channel goes on.
    pub(crate) fn let_go(&mut self, c: usize, at: &Positions) -> Wakeup
        requires { c < CHANNEL_PLACES }
        ensures held { result.held ≡ slice_index_or self.old.holds c None }
        ensures took { (x : ℕ) → has result.took x
            ≡ (is_at_axes (slice_index_or self.old.holds c None) && is_some (position_of at.now x)) }
        ensures holds { (d : ℕ) → slice_index_or self.new.holds d None
            ≡ (if d == c then None else slice_index_or self.old.holds d None) }
        ensures marks { (d m : ℕ) → has (slice_index_or self.new.marks d []) m
            ≡ (if d == c then has (slice_index_or self.old.marks d []) m
            && not (lowers_at (slice_index_or self.old.holds d None) m)
            else has (slice_index_or self.old.marks d []) m) }
    {
        let held = self.holds[c];
        let took = took_of(&held, at);
        self.marks[c] = marks_left(self.marks[c], &held);
        self.holds[c] = None;
        Wakeup { held, took }
    }

    /// A channel goes on, where it is among these.
    pub(crate) fn let_go_of(
        &mut self,
        goes: &[Go],
        goers: &[bool; CHANNEL_PLACES],
        number: u8,
    ) -> Option<Wakeup>
        requires from { 1 ≤ number }
        requires below { number < CHANNEL_PLACES }
        requires goers { (c : ℕ) → has goers.now c ≡ list_any (λ go. go.channel == c) goes.now }
        ensures gone { IsGone result (slice_index_or self.old.holds number None) (go_in goes.now number) }
        ensures holds { (d : ℕ) → slice_index_or self.new.holds d None
            ≡ (if (d == number) && is_some (go_in goes.now d) then None else slice_index_or self.old.holds d None) }
        ensures marks { (d m : ℕ) → has (slice_index_or self.new.marks d []) m
            ≡ (has (slice_index_or self.old.marks d []) m
            && not (((d == number) && is_some (go_in goes.now d))
            && lowers_at (slice_index_or self.old.holds d None) m)) }
    {
        let c = usize::from(number);
        if !goers[c] {
            return None;
        }
        match go_of(goes, ChannelId { number }) {
            None => None,
            Some(go) => Some(self.let_go(c, &go.grant.at)),
        }
    }

    /// All that go on, and the numbers of their groups. What stood in their places is gone; where nobody goes
    /// on, the numbers stay as they were.
    pub(crate) fn depart(
        &mut self,
        goes: &[Go],
        gone: &mut [Option<Wakeup>; CHANNEL_PLACES],
        group: &mut [u8; CHANNEL_PLACES],
    )
        ensures goes { (c : ℕ) → IsGone (slice_index_or gone.new c None)
            (slice_index_or self.old.holds c None) (go_in goes.now c) }
        ensures holds { (c : ℕ) → slice_index_or self.new.holds c None
            ≡ (if is_some (go_in goes.now c) then None else slice_index_or self.old.holds c None) }
        ensures marks { (c m : ℕ) → has (slice_index_or self.new.marks c []) m
            ≡ (has (slice_index_or self.old.marks c []) m
            && not (is_some (go_in goes.now c) && lowers_at (slice_index_or self.old.holds c None) m)) }
        ensures none { slice_index_or gone.new 0 None ≡ None }
        ensures joined { (k : ℕ) → is_given (slice_index_or gone.new k None) ≡ true → (a b : ℕ) → 1 ≤ a
            → a < CHANNEL_PLACES → 1 ≤ b → b < CHANNEL_PLACES → are_partners gone.new a b ≡ true
            → slice_index group.new a ≡ slice_index group.new b }
        ensures linked { (k : ℕ) → is_given (slice_index_or gone.new k None) ≡ true → (ps : List Pair)
            → PairsAllPartners ps gone.new → AreAllLinked ps group.new }
        ensures size { length gone.new ≡ CHANNEL_PLACES }
    {
        clear_goes(gone);
        if goes.is_empty() {
            return;
        }
        let goers = goers_in(goes);
        for number in 1..CHANNEL_PLACES as u8 {
            gone[usize::from(number)] = self.let_go_of(goes, &goers, number);
        }
        *group = groups_of(gone);
    }
}

impl BoardReplay {
    /// Reads an entry, and goes on to the next: who acts, with what, and who goes on. What happens is put in the
    /// place of an earlier deed.
    pub(crate) fn tell(&mut self, entry: &Entry, alarms: bool, deed: &mut StepEvents)
        requires sound { WatchIsSound self.old }
        ensures sound { WatchIsSound self.new }
        ensures reads { (b : Board) → Keeps self.old b
            → IsLawful b entry.now.channel entry.now.step entry.now.goes alarms
            → IsRead deed.new (happening_of b entry.now.channel entry.now.step) }
        ensures keeps { (b : Board) → Keeps self.old b
            → IsLawful b entry.now.channel entry.now.step entry.now.goes alarms
            → Keeps self.new (after_step b entry.now.channel entry.now.step) }
        ensures departures { (c : ℕ) → DepartsFromMark (departure_of deed.new c) }
        ensures begins { BeginIsSound deed.new.begins }
        ensures none { goes_in deed.new 0 ≡ false }
        ensures size { length deed.new.goes ≡ CHANNEL_PLACES }
    {
        let channel = entry.channel();
        let step = entry.step();
        let act = changes_of(channel, &step.action, self.own(channel), alarms);
        self.open(channel, step.line, &act);
        self.depart(entry.goes(), &mut deed.goes, &mut deed.group);
        let touches = touches_of(&step.action);
        put_act(channel, step.line, &act, touches, deed);
    }

    /// The own marks of a channel.
    pub(crate) fn own(&self, channel: ChannelId) -> MarkSet
        ensures { result ≡ slice_index_or self.now.marks channel [] }
    {
        self.marks[usize::from(channel.number)]
    }
}

/// Puts down who acts, at which line, and what the act changes.
pub(crate) fn put_act(
    channel: ChannelId,
    line: u32,
    act: &Act,
    touches: ChannelSet,
    deed: &mut StepEvents,
)
    ensures { deed.new ≡ (record {
      channel = channel;
      line = line;
      raises = act.now.raises;
      lowers = act.now.lowers;
      frees = act.now.frees;
      starts = act.now.starts;
      ends = act.now.ends;
      touches = touches;
      begins = act.now.begins;
      goes = deed.old.goes;
      group = deed.old.group;
    }) }
{
    deed.channel = channel;
    deed.line = line;
    deed.raises = act.raises;
    deed.lowers = act.lowers;
    deed.frees = act.frees;
    deed.starts = act.starts;
    deed.ends = act.ends;
    deed.touches = touches;
    deed.begins = act.begins;
}

/// For each channel whether it is among those that go on.
pub(crate) fn goers_in(goes: &[Go]) -> [bool; CHANNEL_PLACES]
    ensures members { (c : ℕ) → has result c ≡ list_any (λ go. go.channel == c) goes.now }
    ensures from { has result 0 ≡ false }
    ensures size { length result ≡ CHANNEL_PLACES }
{
    let mut goers = [false; CHANNEL_PLACES];
    for go in goes {
        goers[usize::from(go.channel.number)] = true;
    }
    goers
}

/// How a channel goes on; none where it does not.
pub(crate) fn go_of(goes: &[Go], channel: ChannelId) -> Option<&Go>
    ensures { option_copied result ≡ go_in goes.now channel }
{
    goes.iter().find(|go| go.channel == channel)
}
