//! `run` judges the run that its threads make, and tells the gate each entry of it.

use crate::running::run_words;
use edge_io::{Gate, MemSink, MemSource};
use exit_statuses::Status;
use std::alloc::{AllocError, Global};
use std::sync::Wait;
use std::sync::atomic::{AtomicU64, Ordering};
use std::test::Fail;
use std::thread;
use std::thread::Threads;

// Channel 2 raises a mark for which nobody waits, and each channel ends.
const SECOND_MARKS: &str = "JOB 1
CHANNEL 1 A START
CHANNEL 2 B START
%_N_A_MPF
M30
%_N_B_MPF
SETM(3)
M30
";

// Channel 1 does.
const FIRST_MARKS: &str = "JOB 1
CHANNEL 1 A START
CHANNEL 2 B START
%_N_A_MPF
SETM(3)
M30
%_N_B_MPF
M30
";

const SECOND_OUTPUT: &str = "TURNMILL 1
CHANNEL 1
5 END
STATE ENDED 5
CHANNEL 2
7 SETM 3
8 END
STATE ENDED 8
VERDICT YES
";

const FIRST_OUTPUT: &str = "TURNMILL 1
CHANNEL 1
5 SETM 3
6 END
STATE ENDED 6
CHANNEL 2
8 END
STATE ENDED 8
VERDICT YES
";

// Whether channel 1 goes on depends on whether it waits for the mark before channel 2 lowers it.
const OPEN_ORDER: &str = "JOB 1
CHANNEL 1 A START
CHANNEL 2 B START
%_N_A_MPF
WAITM(3,2)
M30
%_N_B_MPF
SETM(3)
CLEARM(3)
M30
";

const OPEN_OUTPUT: &str = "TURNMILL 1
CHANNEL 1
5 WAITM 3 2
6 END
STATE ENDED 6
CHANNEL 2
8 SETM 3
9 CLEARM 3
10 END
STATE ENDED 10
VERDICT RACE CHANNEL 2 LINE 9 CHANNEL 1 LINE 5
";

// A gate waits for so many turns at most.
const TURNS: u64 = 10_000_000;

// A channel is held at its first step until another comes to a later one. The entries that are judged are counted, and the first
// of them is kept.
#[derive(Drop)]
struct HoldingGate {
    held: u8,
    other: u8,
    step: u32,
    has_come: AtomicU64,
    gave_up: AtomicU64,
    judged: AtomicU64,
    first: AtomicU64,
}

impl HoldingGate {
    fn new(held: u8, other: u8, step: u32) -> HoldingGate {
        HoldingGate {
            held,
            other,
            step,
            has_come: AtomicU64::new(0),
            gave_up: AtomicU64::new(0),
            judged: AtomicU64::new(0),
            first: AtomicU64::new(0),
        }
    }

    fn hold(&self) {
        for _ in 0..TURNS {
            if self.has_come.load(Ordering::SeqCst) == 1 {
                return;
            }
            thread::yield_now();
        }
        self.gave_up.store(1, Ordering::SeqCst);
    }

    // Whether so many entries were judged, and first of them the first entry of the run, of this channel.
    fn was_told(&self, count: u64, channel: u8) -> bool {
        self.gave_up.load(Ordering::SeqCst) == 0
            && self.judged.load(Ordering::SeqCst) == count
            && self.first.load(Ordering::SeqCst) == u64::from(channel)
    }
}

impl Gate for HoldingGate {
    fn pass(&self, channel: u8, step: u32) {
        if channel == self.other && step == self.step {
            self.has_come.store(1, Ordering::SeqCst);
        }
        if channel == self.held && step == 0 {
            self.hold();
        }
    }

    fn judged(&self, channel: u8, step: u32) {
        if self.judged.fetch_add(1, Ordering::SeqCst) == 0 {
            self.first.store(u64::from(step) * 256 + u64::from(channel), Ordering::SeqCst);
        }
    }
}

// Whether a call of `run` on a job ends so and writes this.
fn gives<R: Threads + Wait + Sync>(
    rt: &R,
    alloc: Global,
    job: &str,
    gate: &HoldingGate,
    status: Status,
    output: &str,
) -> Result<bool, AllocError> {
    let bytes = job.as_bytes().to_vec(alloc)?;
    let mut source = MemSource::new(bytes, 1000, Vec::new(alloc));
    let mut sink = MemSink::new(alloc, 1000, Vec::new(alloc));
    let ended = run_words(rt, alloc, &["run"], &mut source, &mut sink, gate);
    Ok(ended == status && sink.bytes() == output.as_bytes())
}

#[test]
fn the_run_of_the_threads_is_judged(rt: HostRuntime) -> Result<(), Fail> {
    let alloc = rt.alloc();
    let second = HoldingGate::new(1, 2, 1);
    assert!(rt;
        gives(
            &rt,
            alloc,
            SECOND_MARKS,
            &second,
            Status::Yes,
            SECOND_OUTPUT
        )?
    );
    assert!(rt; second.was_told(3, 2));
    let first = HoldingGate::new(2, 1, 1);
    assert!(rt; gives(&rt, alloc, FIRST_MARKS, &first, Status::Yes, FIRST_OUTPUT)?);
    assert!(rt; first.was_told(3, 1));
    Ok(())
}

// Where the order is open, `run` reports the run in order, also where its threads made another run: that has a race.
#[test]
fn a_race_is_reported_in_order(rt: HostRuntime) -> Result<(), Fail> {
    let gate = HoldingGate::new(1, 2, 2);
    assert!(rt;
        gives(
            &rt,
            rt.alloc(),
            OPEN_ORDER,
            &gate,
            Status::Race,
            OPEN_OUTPUT
        )?
    );
    assert!(rt; gate.was_told(5, 1));
    Ok(())
}
