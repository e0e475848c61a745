//! Workers that a gate holds up, each in a thread of its own.
use crate::jobs::{TWO, job_of};
use edge_io::Gate;
use parallel_run::run_threads;
use std::sync::atomic::{AtomicU64, Ordering};
use std::test::Fail;
use std::thread;

/// For so many turns, each of which yields its thread, a gate holds a worker up.
const GATE_TURNS: u32 = 10_000_000;

/// Channels 1 and 2 wait at their step 0 until both have come there, and then the one that is held until the other comes to its
/// step 2. It is noted where the turns run out.
#[derive(Drop)]
struct HoldingGate {
    held: u8,
    come: AtomicU64,
    passed: AtomicU64,
    ran_out: AtomicU64,
}

impl HoldingGate {
    fn wait_for(&self, word: &AtomicU64, number: u64) {
        for _ in 0..GATE_TURNS {
            if word.load(Ordering::SeqCst) == number {
                return;
            }
            thread::yield_now();
        }
        self.ran_out.store(1, Ordering::SeqCst);
    }
}

impl Gate for HoldingGate {
    fn pass(&self, channel: u8, step: u32) {
        if step == 0 {
            self.come.fetch_add(1, Ordering::SeqCst);
            self.wait_for(&self.come, 2);
            if channel == self.held {
                self.wait_for(&self.passed, 1);
            }
        }
        if step == 2 && channel != self.held {
            self.passed.store(1, Ordering::SeqCst);
        }
    }

    fn judged(&self, _channel: u8, _step: u32) {}
}

/// Two workers are under way at once, and the run is the one that they make, in each order: the steps of the one that is not held
/// are the first.
#[test]
fn the_run_is_the_one_that_two_workers_make(rt: HostRuntime) -> Result<(), Fail> {
    let job = job_of(rt.alloc(), TWO)?;
    for held in 1..=2u8 {
        let gate = HoldingGate {
            held,
            come: AtomicU64::new(0),
            passed: AtomicU64::new(0),
            ran_out: AtomicU64::new(0),
        };
        let run = run_threads(&rt, rt.alloc(), &job, &gate)?;
        assert!(rt; gate.ran_out.load(Ordering::SeqCst) == 0 && run.entries.len() == 6);
        for entry in run.entries.iter().take(2) {
            assert!(rt; entry.channel.number != held);
        }
    }
    Ok(())
}
