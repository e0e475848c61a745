//! What stands at the end of a run.
ghost use Rattle.std.specs.Prelude.{◌≡◌, ℕ, ◌<◌, ◌≤◌, ◌^◌, ◌==◌, ◌&&◌, ◌||◌, not, true, false, [], None, Some, if◌then◌else◌, length, slice_index_or};
ghost use Rattle.axis_sets.specs.Sets.{has};
ghost use Rattle.axis_sets.specs.declared.limits.TheConstants.{AXIS_LIMIT, CHANNEL_LIMIT, CHANNEL_PLACES};
ghost use Rattle.order_clocks.specs.Happenings.{happening_of};
ghost use Rattle.order_clocks.specs.Stops.{IsWhole};
ghost use Rattle.order_clocks.specs.Watching.{IsRead, begun_at, wait_in, wait_shown};
ghost use Rattle.explain_ends.specs.LastBoards.{IsTold, taker_upto, took_by};
ghost use Rattle.step_deeds.specs.Holds.{is_given, lowers_at};
ghost use Rattle.sync_types.specs.Boards.{Board, first_board, is_running, owner_of};
ghost use Rattle.sync_types.specs.Runs.{ComesFrom};
ghost use Rattle.sync_types.specs.Starts.{first_owner};
ghost use Rattle.sync_types.specs.Turns.{after_entries, after_step};
ghost use Rattle.sync_types.specs.declared.Step.{Step};

use crate::owners::{Owners, first_owners, give};
use axis_sets::{AxisId, CHANNEL_LIMIT, CHANNEL_PLACES, ChannelId, MarkSet};
use order_clocks::StepReader;
use step_deeds::{StepEvents, WaitAt, Wakeup, marks_left};
use sync_types::{ChannelEnd, Entry, Run, StartState};

/// How a channel goes on; none where it does not.
fn departure_at(goes: &[Option<Wakeup>; CHANNEL_PLACES], number: u8) -> Option<Wakeup>
    requires { number < CHANNEL_PLACES }
    ensures { result ≡ slice_index_or goes.now number None }
{
    goes[usize::from(number)]
}

/// What stands after some steps of a run: the marks of each channel, for what each waits, and who owns each axis.
#[derive(Clone, Copy)]
pub struct LastBoard {
    marks: [MarkSet; CHANNEL_PLACES],
    holds: [Option<WaitAt>; CHANNEL_PLACES],
    owners: Owners,
}

impl LastBoard {
    /// Whether a mark of a channel stands.
    pub fn stands(&self, channel: ChannelId, mark: u8) -> bool
        ensures { (b : Board) → IsTold self.now b → result ≡ b.marks channel mark }
    {
        self.marks[usize::from(channel.number)].contains(mark)
    }

    /// For what a channel waits, and at which line; none where it does not wait.
    pub fn hold_of(&self, channel: ChannelId) -> Option<WaitAt>
        ensures { (b : Board) → IsTold self.now b → wait_shown result ≡ wait_in (b.state channel) }
    {
        self.holds[usize::from(channel.number)]
    }

    /// The channel that owns an axis; none where it is free.
    pub fn owner_of(&self, axis: AxisId) -> Option<ChannelId>
        ensures { (b : Board) → IsTold self.now b → result ≡ owner_of (b.axis axis) }
    {
        self.owners[usize::from(axis.index)]
    }

    /// What stands before the first step.
    fn first(start: &StartState) -> LastBoard
        ensures marks { (c m : ℕ) → has (slice_index_or result.marks c []) m ≡ false }
        ensures holds { (c : ℕ) → slice_index_or result.holds c None ≡ None }
        ensures owners { (x : ℕ) → x < AXIS_LIMIT → slice_index_or result.owners x None ≡ first_owner start.now x }
    {
        LastBoard {
            marks: [MarkSet::empty(); CHANNEL_PLACES],
            holds: [None; CHANNEL_PLACES],
            owners: first_owners(start),
        }
    }

    /// What a channel does in a step by itself.
    fn act(&mut self, deed: &StepEvents)
        ensures marks { (c m : ℕ) → has (slice_index_or self.new.marks c []) m
            ≡ (if c == deed.now.channel then (has (slice_index_or self.old.marks c []) m || has deed.now.raises m)
            && not (has deed.now.lowers m) else has (slice_index_or self.old.marks c []) m) }
        ensures holds { (c : ℕ) → slice_index_or self.new.holds c None
            ≡ (if c == deed.now.channel then begun_at deed.now.begins deed.now.line
            (slice_index_or self.old.holds c None) else slice_index_or self.old.holds c None) }
        ensures owners { (x : ℕ) → x < AXIS_LIMIT → slice_index_or self.new.owners x None
            ≡ (if has deed.now.frees x then None else slice_index_or self.old.owners x None) }
    {
        let c = deed.actor();
        self.marks[c] = self.marks[c].union(deed.raises).minus(deed.lowers);
        match &deed.begins {
            None => {}
            Some(hold) => {
                self.holds[c] = Some(WaitAt {
                    hold: *hold,
                    line: deed.line,
                })
            }
        }
        give(&mut self.owners, &deed.frees, &None);
    }

    /// A channel goes on: its wait is over, and it has what it took.
    fn let_go(&mut self, channel: ChannelId, gone: &Wakeup)
        ensures marks { (d m : ℕ) → has (slice_index_or self.new.marks d []) m
            ≡ (if d == channel then has (slice_index_or self.old.marks d []) m
            && not (lowers_at (slice_index_or self.old.holds d None) m)
            else has (slice_index_or self.old.marks d []) m) }
        ensures holds { (d : ℕ) → slice_index_or self.new.holds d None
            ≡ (if d == channel then None else slice_index_or self.old.holds d None) }
        ensures owners { (x : ℕ) → x < AXIS_LIMIT → slice_index_or self.new.owners x None
            ≡ (if has gone.now.took x then Some channel else slice_index_or self.old.owners x None) }
    {
        let c = usize::from(channel.number);
        let held = self.holds[c];
        self.marks[c] = marks_left(self.marks[c], &held);
        self.holds[c] = None;
        give(&mut self.owners, &gone.took, &Some(channel));
    }

    /// A channel goes on, where it does.
    fn let_go_if(&mut self, channel: ChannelId, gone: &Option<Wakeup>)
        ensures marks { (d m : ℕ) → has (slice_index_or self.new.marks d []) m
            ≡ (has (slice_index_or self.old.marks d []) m
            && not (((d == channel) && is_given gone.now) && lowers_at (slice_index_or self.old.holds d None) m)) }
        ensures holds { (d : ℕ) → slice_index_or self.new.holds d None
            ≡ (if (d == channel) && is_given gone.now then None else slice_index_or self.old.holds d None) }
        ensures owners { (x : ℕ) → x < AXIS_LIMIT → slice_index_or self.new.owners x None
            ≡ (if took_by gone.now x then Some channel else slice_index_or self.old.owners x None) }
    {
        if let Some(gone) = gone {
            self.let_go(channel, gone);
        }
    }

    /// All that go on.
    fn depart(&mut self, goes: &[Option<Wakeup>; CHANNEL_PLACES])
        ensures marks { (c m : ℕ) → 1 ≤ c → c < CHANNEL_PLACES → has (slice_index_or self.new.marks c []) m
            ≡ (has (slice_index_or self.old.marks c []) m
            && not (is_given (slice_index_or goes.now c None) && lowers_at (slice_index_or self.old.holds c None) m)) }
        ensures holds { (c : ℕ) → 1 ≤ c → c < CHANNEL_PLACES → slice_index_or self.new.holds c None
            ≡ (if is_given (slice_index_or goes.now c None) then None else slice_index_or self.old.holds c None) }
        ensures owners { (x : ℕ) → x < AXIS_LIMIT → slice_index_or self.new.owners x None
            ≡ taker_upto goes.now CHANNEL_LIMIT x (slice_index_or self.old.owners x None) }
    {
        for place in 0..CHANNEL_LIMIT as u8 {
            let number = place + 1;
            let gone = departure_at(goes, number);
            self.let_go_if(ChannelId { number }, &gone);
        }
    }

    /// A step.
    fn tell(&mut self, deed: &StepEvents)
        ensures { (b : Board) (c : ℕ) (step : Step) → IsTold self.old b → is_running (b.state c) ≡ true
            → IsRead deed.now (happening_of b c step) → IsTold self.new (after_step b c step) }
    {
        self.act(deed);
        self.depart(&deed.goes);
    }
}

/// What stands after all steps, where this stands before the first.
fn board_after(first: LastBoard, entries: &[Entry], ends: &[ChannelEnd]) -> LastBoard
    requires few { length entries.now < 2 ^ 32 }
    requires whole { (b : Board) × IsWhole b entries.now ends.now }
    ensures { (b : Board) → IsWhole b entries.now ends.now → IsTold first b
        → IsTold result (after_entries b entries.now) }
{
    let mut reader = StepReader::new(entries, ends);
    let mut board = first;
    for place in 0..entries.len() {
        let read = reader.next(entries, place);
        board.tell(&read.deed);
    }
    board
}

/// What stands at the end of a whole run from this start. It takes no memory.
pub fn last_board(start: &StartState, run: &Run) -> LastBoard
    requires few { length run.now.entries < 2 ^ 32 }
    requires whole { ComesFrom start.now run.now }
    ensures { IsTold result (after_entries (first_board start.now) run.now.entries) }
{
    board_after(LastBoard::first(start), run.entries(), run.ends())
}
