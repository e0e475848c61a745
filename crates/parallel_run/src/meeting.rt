//! Where workers meet before they begin: either all of them have come, or none begins.
//!
//! They share one number, which counts them; one more than all of them says that none begins. A rule binds it: it is at most
//! that, and once it is all or one more it stays.
ghost use Rattle.std.specs.Prelude.{◌≡◌, ◌⊎◌, ℕ, ◌+◌, ◌<◌, ◌≤◌, ◌^◌, [], IfOk};
ghost use Rattle.parallel_run.specs.Meetings.{AllCameWhereTold, AreToldAlike, Comes, GivesUp, IsTold, Looks, Sits, first_knowledge};

use atomic_table::{Play, Seat, Table, TableRule};
use out_of_memory::NoMemory;
use std::alloc::Global;
use std::marker::Model;
use std::thread;

/// For so many turns, each of which yields its thread, a worker waits for the others.
const MEETING_TURNS: u32 = 1_000_000;

/// What the seat of a worker knows of a meeting. No value of it is made.
pub(crate) struct Knowledge {
    /// How many workers meet.
    pub workers: u64,
    /// 1 where the worker was counted, and else 0.
    pub come: u64,
    /// The number, as the seat has seen it last.
    pub seen: u64,
}

/// The rule of the number.
pub(crate) struct Rules;

impl TableRule<(), Knowledge, u64> for Rules {
    ghost use Rattle.parallel_run.specs.Meetings.{IsKept, first_knowledge};

    ghost holds = { λ workers s. IsKept workers s };

    ghost first = { first_knowledge };
}

/// A worker takes its seat.
pub(crate) struct Sit;

impl Play<(), Knowledge> for Sit {
    ghost use Rattle.parallel_run.specs.Meetings.{Sits};

    ghost then = { λ st m r m'. Sits m r m' };
}

/// The number is read.
pub(crate) struct Look;

impl Play<(), Knowledge> for Look {
    ghost use Rattle.parallel_run.specs.Meetings.{Looks};

    ghost then = { λ st m r m'. Looks m r m' };
}

/// The worker is counted.
pub(crate) struct Come;

impl Play<(), Knowledge> for Come {
    ghost use Rattle.parallel_run.specs.Meetings.{Comes};

    ghost then = { λ st m r m'. Comes st.first m r m' };
}

/// None begins.
pub(crate) struct GiveUp;

impl Play<(), Knowledge> for GiveUp {
    ghost use Rattle.parallel_run.specs.Meetings.{GivesUp};

    ghost then = { λ st m r m'. GivesUp st.first m r m' };
}

/// The seat of a worker at a meeting.
pub(crate) type MeetingSeat = Seat<(), Knowledge>;

/// Where workers meet. A contract sees for how many it is.
#[derive(Drop)]
pub(crate) struct Meeting {
    workers: u64,
    table: Table<(), Knowledge, u64, Rules, Global>,
}

impl Model for Meeting {
    ghost use Rattle.std.specs.Prelude.{◌≡◌, ◌+◌, ◌<◌, ◌^◌};
    ghost use Rattle.parallel_run.specs.Meetings.{MeetingView};

    ghost Value = { MeetingView };

    ghost view = { λ m. record { table_id = m.table.shared.table_id; workers = m.workers } };

    ghost invariant = { λ m. (m.table.shared.table_id.words ≡ 1) × (m.table.shared.key ≡ m.workers)
        × (m.workers + 1 < 2 ^ 64) };
}

impl Meeting {
    /// For so many workers.
    pub(crate) fn new(alloc: Global, workers: usize) -> Result<Meeting, NoMemory>
        requires few { workers + 1 < 2 ^ 64 }
        ensures workers { IfOk result (λ meeting. meeting.workers ≡ workers) }
    {
        let workers = workers as u64;
        let (table, _) = Table::of_words(alloc, &[0], &workers)?;
        Ok(Meeting { workers, table })
    }

    /// The seat of a worker that has not come yet, and the number then.
    fn sit(&self) -> (u64, MeetingSeat)
        ensures table { result.1.table_id ≡ self.now.table_id }
        ensures fresh { Sits (first_knowledge self.now.workers, []) result.0 result.1.me }
    {
        self.table.shared.load_new_seat::<Sit>(0)
    }

    /// Reads the number.
    fn look(&self, seat: &mut MeetingSeat) -> u64
        requires table { seat.old.table_id ≡ self.now.table_id }
        ensures table { seat.new.table_id ≡ self.now.table_id }
        ensures found { Looks seat.old.me result seat.new.me }
    {
        self.table.shared.load::<Look>(seat, 0)
    }

    /// Counts the worker, where the number is as expected.
    fn count(&self, seat: &mut MeetingSeat, expected: u64) -> u64
        requires table { seat.old.table_id ≡ self.now.table_id }
        requires fewer { expected < self.now.workers }
        requires first { seat.old.me.0.come ≡ 0 }
        ensures table { seat.new.table_id ≡ self.now.table_id }
        ensures found { Comes expected seat.old.me result seat.new.me }
    {
        self.table
            .shared
            .compare_exchange::<Come>(seat, 0, expected, expected + 1)
    }

    /// Says that none begins, where the number is as expected.
    fn give_up(&self, seat: &mut MeetingSeat, expected: u64) -> u64
        requires table { seat.old.table_id ≡ self.now.table_id }
        requires fewer { expected < self.now.workers }
        requires workers { seat.old.me.0.workers ≡ self.now.workers }
        ensures table { seat.new.table_id ≡ self.now.table_id }
        ensures found { GivesUp expected seat.old.me result seat.new.me }
    {
        self.table
            .shared
            .compare_exchange::<GiveUp>(seat, 0, expected, self.workers + 1)
    }

    /// The seat of a worker, which is counted where all may still come.
    fn come(&self) -> MeetingSeat
        ensures table { result.table_id ≡ self.now.table_id }
        ensures workers { result.me.0.workers ≡ self.now.workers }
        ensures counted { (result.me.0.come ≡ 1) ⊎ (self.now.workers ≤ result.me.0.seen) }
    {
        let (mut expected, mut seat) = self.sit();
        'turns: while expected < self.workers {
            let found = self.count(&mut seat, expected);
            if found == expected {
                return seat;
            }
            expected = found;
        }
        seat
    }

    /// The number as it stays. Where not all have come it says that none begins.
    fn last_number(&self, seat: &mut MeetingSeat) -> u64
        requires table { seat.old.table_id ≡ self.now.table_id }
        requires workers { seat.old.me.0.workers ≡ self.now.workers }
        ensures table { seat.new.table_id ≡ self.now.table_id }
        ensures seen { seat.new.me.0.seen ≡ result }
        ensures last { (self.now.workers ≤ result) × (result ≤ self.now.workers + 1) }
    {
        let mut expected = self.look(seat);
        'turns: while expected < self.workers {
            let found = self.give_up(seat, expected);
            if found == expected {
                return self.workers + 1;
            }
            expected = found;
        }
        expected
    }

    /// Waits for the others, and answers whether all have come, with the seat that was told so. All workers get the same answer.
    /// A thread that is not made, or comes too late, keeps the others from beginning, and none of them waits for good.
    pub(crate) fn all_come(&self) -> (bool, MeetingSeat)
        ensures table { result.1.table_id ≡ self.now.table_id }
        ensures told { IsTold self.now result.0 result.1.me.0 }
    {
        let mut seat = self.come();
        for _ in 0..MEETING_TURNS {
            if self.table.shared.peek(0) >= self.workers {
                break;
            }
            thread::yield_now();
        }
        let last = self.last_number(&mut seat);
        (last == self.workers, seat)
    }
}

/// Whatever the number is and the seats know by the rule: all that are told whether all have come are told the same, and where
/// one is told that all have come, as many were counted, each once.
fn the_rule_holds_workers_together()
    ensures alike { (workers : ℕ) → AreToldAlike (Unit {0}) workers }
    ensures all { (workers : ℕ) → AllCameWhereTold (Unit {0}) workers }
{}
