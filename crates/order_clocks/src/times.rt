//! The counters of the last events.
ghost use Rattle.axis_sets.specs.Sets.{has};
ghost use Rattle.axis_sets.specs.declared.limits.TheConstants.{CHANNEL_PLACES};
ghost use Rattle.std.specs.Prelude.{◌≡◌, ℕ, suc, ◌+◌, ◌<◌, ◌^◌, ◌==◌, max, length, [], None, true, slice_index_or, IfOk, if◌then◌else◌};
ghost use Rattle.order_clocks.specs.Happenings.{Key};
ghost use Rattle.order_clocks.specs.Courses.{Course};
ghost use Rattle.order_clocks.specs.Counters.{LastRows, rows_after_goings, go_row, last_rows};
ghost use Rattle.counter_rows.specs.Rows.{top, count_of};
ghost use Rattle.order_clocks.specs.Steps.{IsStep, Shows, HasRoom, AreRows, keys_of, gives_of, row_at};
ghost use Rattle.step_deeds.specs.Holds.{DepartsFromMark, departure_of, goes_in};

use axis_sets::{AXIS_LIMIT, CHANNEL_PLACES};
use counter_rows::{
    MarkClocks, StepClocks, VectorClock, at_channel, axis_flags, channel_flags, joint_rows,
    most_chosen, put_at, put_axes, put_channels, put_rows,
};
use out_of_memory::NoMemory;
use std::alloc::Global;
use step_deeds::{Hold, StepEvents, Wakeup, goers, is_nobody};

/// The counters of the last event of each channel, and of the last Act that gave each key.
#[derive(Drop)]
pub struct LastClocks {
    /// By channel.
    pub past: [VectorClock; CHANNEL_PLACES],
    /// By mark and channel: of the raising of the mark.
    pub raised: MarkClocks,
    /// By axis: of the giving away.
    pub freed: [VectorClock; AXIS_LIMIT],
    /// By channel: of the START.
    pub started: [VectorClock; CHANNEL_PLACES],
    /// By channel: of the program end.
    pub ended: [VectorClock; CHANNEL_PLACES],
}

impl LastClocks {
    /// Before all events. `NoMemory` where there is too little.
    pub fn new(alloc: Global) -> Result<LastClocks, NoMemory>
        ensures past { IfOk result (λ times. (c x : ℕ) → count_of (slice_index_or times.past c []) x ≡ 0) }
        ensures last { IfOk result (λ times. (k : Key) (x : ℕ) → count_of (row_at times k) x ≡ 0) }
    {
        let raised = MarkClocks::new(alloc)?;
        let zero = VectorClock::zero();
        Ok(LastClocks {
            past: [zero; CHANNEL_PLACES],
            raised,
            freed: [zero; AXIS_LIMIT],
            started: [zero; CHANNEL_PLACES],
            ended: [zero; CHANNEL_PLACES],
        })
    }

    /// The same counters, to be changed apart. `NoMemory` where there is too little.
    pub fn copied(&self) -> Result<LastClocks, NoMemory>
        ensures { IfOk result (λ times. times ≡ self.now) }
    {
        let raised = self.raised.copied()?;
        Ok(LastClocks {
            past: self.past,
            raised,
            freed: self.freed,
            started: self.started,
            ended: self.ended,
        })
    }

    /// Counts the Act.
    pub fn open(&mut self, deed: &StepEvents) -> VectorClock
        requires room { count_of (slice_index_or self.old.past deed.now.channel []) deed.now.channel + 1 < 2 ^ 64 }
        ensures row { (c : ℕ) → count_of result c
            ≡ (if c == deed.now.channel then suc (count_of (slice_index_or self.old.past deed.now.channel []) c)
            else count_of (slice_index_or self.old.past deed.now.channel []) c) }
        ensures past { (c : ℕ) → slice_index_or self.new.past c []
            ≡ (if c == deed.now.channel then result else slice_index_or self.old.past c []) }
        ensures last { (k : Key) → row_at self.new k ≡ (if gives_of deed.now k then result else row_at self.old k) }
    {
        let c = usize::from(deed.channel.number);
        let row = self.past[c].counted(c);
        put_at(&mut self.past, c, row);
        self.raised.put_marks(&deed.raises, c, row);
        put_axes(&mut self.freed, &deed.frees, row);
        put_channels(&mut self.started, &deed.starts, row);
        if deed.ends {
            put_at(&mut self.ended, c, row);
        }
        row
    }

    /// The row of what a Go rests on.
    pub(crate) fn own_row(&self, c: usize, gone: &Option<Wakeup>) -> VectorClock
        requires channel { c < CHANNEL_PLACES }
        requires number { DepartsFromMark gone.now }
        ensures { (x : ℕ) → count_of result x ≡ max (count_of (slice_index_or self.now.past c []) x)
            (top (λ k. count_of (row_at self.now k) x) (keys_of c gone.now)) }
    {
        let past = at_channel(&self.past, c);
        match gone {
            None => past,
            Some(gone) => match &gone.held {
                None => past.most(at_channel(&self.started, c)),
                Some(held) => match &held.hold {
                    Hold::Marks(m, named) => most_chosen(
                        self.raised.row(usize::from(*m)),
                        &channel_flags(named),
                        past,
                    ),
                    Hold::Ends(named) => most_chosen(&self.ended, &channel_flags(named), past),
                    Hold::Axes(_) => most_chosen(&self.freed, &axis_flags(&gone.took), past),
                },
            },
        }
    }

    /// For each channel the row of what a Go of it rests on.
    pub(crate) fn own_rows(
        &self,
        goes: &[Option<Wakeup>; CHANNEL_PLACES],
    ) -> [VectorClock; CHANNEL_PLACES]
        requires numbers { (c : ℕ) → DepartsFromMark (slice_index_or goes.now c None) }
        ensures rows { (c x : ℕ) → c < CHANNEL_PLACES → count_of (slice_index_or result c []) x
            ≡ max (count_of (slice_index_or self.now.past c []) x)
            (top (λ k. count_of (row_at self.now k) x) (keys_of c (slice_index_or goes.now c None))) }
        ensures size { length result ≡ CHANNEL_PLACES }
    {
        let mut own = [VectorClock::zero(); CHANNEL_PLACES];
        for c in 0..CHANNEL_PLACES {
            own[c] = self.own_row(c, &goes[c]);
        }
        own
    }

    /// Counts the Gos, and puts down their rows; that of a channel that does not go on stays as it was.
    pub(crate) fn close(&mut self, deed: &StepEvents, rows: &mut [VectorClock; CHANNEL_PLACES])
        requires room { HasRoom self.old 1 }
        requires numbers { (c : ℕ) → DepartsFromMark (departure_of deed.now c) }
        ensures shows { (run : Course) (i : ℕ) (s : LastRows) → IsStep run i deed.now → Shows self.old s
            → Shows self.new (rows_after_goings run i s) }
        ensures rows { (run : Course) (i : ℕ) (s : LastRows) → IsStep run i deed.now → Shows self.old s → (c x : ℕ)
            → goes_in deed.now c ≡ true → count_of (slice_index_or rows.new c []) x ≡ go_row run i s (run.group i c) x }
    {
        if is_nobody(&deed.goes) {
            return;
        }
        self.close_goes(deed, &goers(&deed.goes), rows);
    }

    /// The same where some channel goes on.
    #[inline(never)]
    fn close_goes(
        &mut self,
        deed: &StepEvents,
        goes: &[bool; CHANNEL_PLACES],
        rows: &mut [VectorClock; CHANNEL_PLACES],
    )
        requires room { HasRoom self.old 1 }
        requires numbers { (c : ℕ) → DepartsFromMark (departure_of deed.now c) }
        requires goers { (c : ℕ) → has goes.now c ≡ goes_in deed.now c }
        requires size { length goes.now ≡ CHANNEL_PLACES }
        ensures shows { (run : Course) (i : ℕ) (s : LastRows) → IsStep run i deed.now → Shows self.old s
            → Shows self.new (rows_after_goings run i s) }
        ensures rows { (run : Course) (i : ℕ) (s : LastRows) → IsStep run i deed.now → Shows self.old s → (c x : ℕ)
            → goes_in deed.now c ≡ true → count_of (slice_index_or rows.new c []) x ≡ go_row run i s (run.group i c) x }
    {
        let own = self.own_rows(&deed.goes);
        *rows = joint_rows(&own, goes, &deed.group);
        put_rows(&mut self.past, goes, rows);
    }

    /// Counts the events of the next step, and puts down their rows.
    pub fn step(&mut self, deed: &StepEvents, rows: &mut StepClocks)
        requires room { HasRoom self.old 2 }
        requires numbers { (c : ℕ) → DepartsFromMark (departure_of deed.now c) }
        ensures shows { (run : Course) (i : ℕ) → IsStep run i deed.now → Shows self.old (last_rows run i)
            → Shows self.new (last_rows run (suc i)) }
        ensures rows { (run : Course) (i : ℕ) → IsStep run i deed.now
            → Shows self.old (last_rows run i) → AreRows run i rows.new }
    {
        rows.act = self.open(deed);
        self.close(deed, &mut rows.goes);
    }
}
