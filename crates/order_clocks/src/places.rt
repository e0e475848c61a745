//! For each trace the last events that left it.
ghost use Rattle.axis_sets.specs.Sets.{has, members_of};
ghost use Rattle.axis_sets.specs.declared.limits.TheConstants.{CHANNEL_PLACES};
ghost use Rattle.counter_rows.specs.Rows.{count_of, top, IsMissed};
ghost use Rattle.order_clocks.specs.Courses.{Course};
ghost use Rattle.order_clocks.specs.TracedRaces.{Trace};
ghost use Rattle.order_clocks.specs.LastPlaces.{AreLast, IsTracked, deed_leaves, deed_minds, departure_leaves, departure_minds, hold_minds, leaves_of, spot_at};
ghost use Rattle.order_clocks.specs.Steps.{AreRows, IsStep};
ghost use Rattle.order_clocks.specs.Tracks.{IsRacyAt, Tracks};
ghost use Rattle.std.specs.Prelude.{◌≡◌, ℕ, suc, true, false, ◌<◌, ◌==◌, ◌&&◌, ◌↔◌, IsTrue, length, [], None, Some, slice_index_or, IfOk, if◌then◌else◌};
ghost use Rattle.step_deeds.specs.Holds.{BeginsAtMark, DepartsFromMark, departure_of};

use axis_sets::{AXIS_LIMIT, CHANNEL_PLACES};
use counter_rows::{
    MarkClocks, StepClocks, VectorClock, at_channel, axis_flags, channel_flags, most_chosen,
    note_chosen,
};
use out_of_memory::NoMemory;
use std::alloc::Global;
use step_deeds::{Hold, StepEvents, Wakeup};

/// For each trace and each channel the counter of its last event that left the trace; 0 for none.
#[derive(Drop)]
pub struct LastTouches {
    /// By mark and channel: the mark was lowered.
    pub lowered: MarkClocks,
    /// By mark and channel: the mark was needed.
    pub needed: MarkClocks,
    /// By axis: it was taken.
    pub took: [VectorClock; AXIS_LIMIT],
    /// By channel: INIT or START named it.
    pub touched: [VectorClock; CHANNEL_PLACES],
}

impl LastTouches {
    /// Before all events. `NoMemory` where there is too little.
    pub(crate) fn new(alloc: Global) -> Result<LastTouches, NoMemory>
        ensures { IfOk result (λ places. (t : Trace) (c : ℕ) → count_of (spot_at places t) c ≡ 0) }
    {
        let lowered = MarkClocks::new(alloc)?;
        let needed = MarkClocks::new(alloc)?;
        let zero = VectorClock::zero();
        Ok(LastTouches {
            lowered,
            needed,
            took: [zero; AXIS_LIMIT],
            touched: [zero; CHANNEL_PLACES],
        })
    }

    /// Notes the act.
    pub(crate) fn note_act(&mut self, deed: &StepEvents, place: u64)
        ensures { (t : Trace) (c : ℕ) → count_of (spot_at self.new t) c
            ≡ (if deed_leaves deed.now t && (c == deed.now.channel) then place else count_of (spot_at self.old t) c) }
    {
        let c = usize::from(deed.channel.number);
        self.lowered.note_marks(&deed.lowers, c, place);
        if !deed.touches.is_empty() {
            note_chosen(&mut self.touched, &channel_flags(&deed.touches), c, place);
        }
    }

    /// Notes that a channel goes on.
    pub(crate) fn note_go(&mut self, c: usize, gone: &Wakeup, place: u64)
        requires channel { c < CHANNEL_PLACES }
        requires number { DepartsFromMark (Some gone.now) }
        ensures { (t : Trace) (d : ℕ) → count_of (spot_at self.new t) d
            ≡ (if departure_leaves c gone.now t && (d == c) then place else count_of (spot_at self.old t) d) }
    {
        note_chosen(&mut self.took, &axis_flags(&gone.took), c, place);
        if let Some(held) = &gone.held {
            if let Hold::Marks(m, named) = &held.hold {
                let m = usize::from(*m);
                self.lowered.note_one(m, c, place);
                self.needed.note_row(m, &channel_flags(named), c, place);
            }
        }
    }

    /// Notes all that go on.
    pub(crate) fn note_goes(
        &mut self,
        goes: &[Option<Wakeup>; CHANNEL_PLACES],
        rows: &[VectorClock; CHANNEL_PLACES],
    )
        requires numbers { (c : ℕ) → DepartsFromMark (slice_index_or goes.now c None) }
        ensures { (t : Trace) (c : ℕ) → count_of (spot_at self.new t) c
            ≡ (if leaves_of c (slice_index_or goes.now c None) t then count_of (slice_index_or rows.now c []) c
            else count_of (spot_at self.old t) c) }
    {
        for c in 0..CHANNEL_PLACES {
            if let Some(gone) = &goes[c] {
                self.note_go(c, gone, rows[c].at(c));
            }
        }
    }

    /// Notes the events of a step.
    pub(crate) fn note(&mut self, deed: &StepEvents, rows: &StepClocks)
        requires numbers { (c : ℕ) → DepartsFromMark (departure_of deed.now c) }
        ensures { (run : Course) (tracks : Tracks) (i : ℕ) → IsStep run i deed.now → IsTracked tracks i deed.now
            → AreRows run i rows.now → AreLast run tracks i self.old → AreLast run tracks (suc i) self.new }
    {
        let c = deed.actor();
        self.note_act(deed, rows.act.at(c));
        self.note_goes(&deed.goes, &rows.goes);
    }

    /// The greatest places of what a hold minds.
    pub(crate) fn hold_limit(&self, begins: &Option<Hold>) -> VectorClock
        requires number { BeginsAtMark begins.now }
        ensures { (x : ℕ) → count_of result x ≡ top (λ t. count_of (spot_at self.now t) x) (hold_minds begins.now) }
    {
        match begins {
            None => VectorClock::zero(),
            Some(hold) => match hold {
                Hold::Marks(m, named) => most_chosen(
                    self.lowered.row(usize::from(*m)),
                    &channel_flags(named),
                    VectorClock::zero(),
                ),
                Hold::Ends(_) => VectorClock::zero(),
                Hold::Axes(axes) => most_chosen(&self.took, &axis_flags(axes), VectorClock::zero()),
            },
        }
    }

    /// The greatest places of what an act minds.
    pub(crate) fn act_limit(&self, deed: &StepEvents) -> VectorClock
        requires number { BeginsAtMark deed.now.begins }
        ensures { (x : ℕ) → count_of result x ≡ top (λ t. count_of (spot_at self.now t) x) (deed_minds deed.now) }
    {
        let c = deed.actor();
        let hold = self.hold_limit(&deed.begins);
        let touched = most_chosen(&self.touched, &channel_flags(&deed.touches), hold);
        self.needed.most_of_marks(&deed.lowers, c, touched)
    }

    /// The greatest places of what one that goes on minds.
    pub(crate) fn go_limit(&self, c: usize, gone: &Option<Wakeup>) -> VectorClock
        requires channel { c < CHANNEL_PLACES }
        requires number { DepartsFromMark gone.now }
        ensures { (x : ℕ) → count_of result x ≡ top (λ t. count_of (spot_at self.now t) x)
            (departure_minds c gone.now) }
    {
        match gone {
            None => VectorClock::zero(),
            Some(gone) => match &gone.held {
                None => VectorClock::zero(),
                Some(held) => match &held.hold {
                    Hold::Marks(m, _) => at_channel(self.needed.row(usize::from(*m)), c),
                    Hold::Ends(_) => VectorClock::zero(),
                    Hold::Axes(_) => VectorClock::zero(),
                },
            },
        }
    }

    /// Whether one that goes on is apart from an earlier event.
    pub(crate) fn has_racy_go(
        &self,
        goes: &[Option<Wakeup>; CHANNEL_PLACES],
        rows: &[VectorClock; CHANNEL_PLACES],
    ) -> bool
        requires numbers { (c : ℕ) → DepartsFromMark (slice_index_or goes.now c None) }
        ensures { IsTrue result ↔ ((c d : ℕ) × (((d == c) ≡ false)
            × (count_of (slice_index_or rows.now c []) d < top (λ t. count_of (spot_at self.now t) d)
            (departure_minds c (slice_index_or goes.now c None))))) }
    {
        for c in 0..CHANNEL_PLACES {
            if goes[c].is_some() {
                let limit = self.go_limit(c, &goes[c]);
                if rows[c].misses(&limit, c) {
                    return true;
                }
            }
        }
        false
    }

    /// Whether an event of the step is apart from one of an earlier step.
    pub(crate) fn is_racy(&self, deed: &StepEvents, rows: &StepClocks) -> bool
        requires number { BeginsAtMark deed.now.begins }
        requires numbers { (c : ℕ) → DepartsFromMark (departure_of deed.now c) }
        ensures { (run : Course) (tracks : Tracks) (i : ℕ) → IsStep run i deed.now → IsTracked tracks i deed.now
            → AreRows run i rows.now → AreLast run tracks i self.now → (IsTrue result ↔ IsRacyAt run tracks i) }
    {
        let c = deed.actor();
        let limit = self.act_limit(deed);
        rows.act.misses(&limit, c) || self.has_racy_go(&deed.goes, &rows.goes)
    }
}
