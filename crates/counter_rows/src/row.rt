//! Counters of the events of each channel.
ghost use Rattle.std.specs.Prelude.{◌≡◌, ℕ, suc, ◌+◌, ◌<◌, ◌^◌, ◌==◌, ◌↔◌, IsTrue, max, length, if◌then◌else◌};
ghost use Rattle.axis_sets.specs.declared.limits.TheConstants.{CHANNEL_PLACES};
ghost use Rattle.counter_rows.specs.Rows.{count_of, IsMissed};

use axis_sets::CHANNEL_PLACES;
use std::marker::Model;

/// For each channel below 9 a number of its events. A contract sees the list of these numbers.
#[derive(Clone, Copy)]
pub struct VectorClock {
    counts: [u64; CHANNEL_PLACES],
}

impl Model for VectorClock {
    ghost use Rattle.std.specs.Prelude.{ℕ, List};

    ghost Value = { List ℕ };

    ghost view = { λ r. r.counts };

    ghost inverse = { λ counts. record { counts = counts } };
}

impl VectorClock {
    /// No event.
    pub fn zero() -> VectorClock
        ensures counts { (c : ℕ) → count_of result c ≡ 0 }
        ensures size { length result ≡ CHANNEL_PLACES }
    {
        VectorClock {
            counts: [0; CHANNEL_PLACES],
        }
    }

    /// The number of events of a channel, 0 past the last.
    pub fn at(&self, channel: usize) -> u64
        ensures count { result ≡ count_of self.now channel }
        ensures size { length self.now ≡ CHANNEL_PLACES }
    {
        if channel < CHANNEL_PLACES {
            self.counts[channel]
        } else {
            0
        }
    }

    /// The greater number of each channel.
    pub fn most(mut self, other: VectorClock) -> VectorClock
        ensures counts { (c : ℕ) → count_of result c ≡ max (count_of self c) (count_of other c) }
        ensures size { length result ≡ CHANNEL_PLACES }
    {
        for c in 0..CHANNEL_PLACES {
            if self.counts[c] < other.counts[c] {
                self.counts[c] = other.counts[c];
            }
        }
        self
    }

    /// One event more of a channel.
    pub fn counted(mut self, channel: usize) -> VectorClock
        requires channel { channel < CHANNEL_PLACES }
        requires room { count_of self channel + 1 < 2 ^ 64 }
        ensures counts { (c : ℕ) → count_of result c
            ≡ (if c == channel then suc (count_of self c) else count_of self c) }
        ensures size { length result ≡ CHANNEL_PLACES }
    {
        self.counts[channel] += 1;
        self
    }

    /// This number for a channel.
    pub fn put(mut self, channel: usize, count: u64) -> VectorClock
        requires channel { channel < CHANNEL_PLACES }
        ensures counts { (c : ℕ) → count_of result c ≡ (if c == channel then count else count_of self c) }
        ensures size { length result ≡ CHANNEL_PLACES }
    {
        self.counts[channel] = count;
        self
    }

    /// Whether the number of some other channel is below its limit.
    pub fn misses(&self, limit: &VectorClock, but: usize) -> bool
        ensures { IsTrue result ↔ IsMissed but self.now limit.now }
    {
        let _size = limit.at(0);
        for c in 0..CHANNEL_PLACES {
            if c != but && self.at(c) < limit.at(c) {
                return true;
            }
        }
        false
    }
}
