//! Sources and sinks over memory.
ghost use Rattle.std.specs.Prelude.{◌≡◌, ℕ, ◌+◌, ◌-◌, ◌^◌, ◌<◌, ◌≤◌, ⊤, length, IfOk, Option, None, Some, [], min, take, drop, ◌++◌};
ghost use Rattle.edge_io.specs.Moves.{Counts, HasCause, Reads, Writes, WritesCount};
ghost use Rattle.edge_io.specs.Memory.{ReadsAsListed, WritesAsListed, CountsOn, is_listed};

use super::{Failed, Sink, Source};
use std::alloc::Global;
use std::marker::Model;

/// A source over bytes in memory, which gives them in pieces and fails the reads that it is told to.
#[derive(Drop)]
pub struct MemSource {
    bytes: Vec<u8>,
    at: usize,
    piece: usize,
    fails: Vec<u32>,
    calls: u64,
    faults: u64,
}

impl Model for MemSource {
    ghost use Rattle.std.specs.Prelude.{◌≤◌, ◌<◌, drop, vec_len};
    ghost use Rattle.edge_io.specs.Memory.{SourceView};

    ghost Value = { SourceView };

    ghost view = { λ s. record {
      left = drop s.at s.bytes.items;
      piece = s.piece;
      fails = s.fails.items;
      calls = s.calls;
      faults = s.faults;
    } };

    ghost invariant = { λ s. (s.at ≤ vec_len s.bytes) × (0 < s.piece) };
}

impl MemSource {
    /// A source of these bytes. A read gives at most `piece` of them, which is at least 1. The reads
    /// whose numbers stand in `fails`, counted from 0, fail, and no others.
    pub fn new(bytes: Vec<u8>, piece: usize, fails: Vec<u32>) -> MemSource
        requires { 0 < piece }
        ensures { result ≡ record { left = bytes.items; piece = piece; fails = fails.items; calls = 0; faults = 0 } }
    {
        MemSource {
            bytes,
            at: 0,
            piece,
            fails,
            calls: 0,
            faults: 0,
        }
    }
}

impl Source for MemSource {
    ghost left = { λ s. Some s.left };

    ghost faults = { λ s. s.faults };

    ghost can_read = { λ _. ⊤ };

    fn read(&mut self, buffer: &mut [u8]) -> Result<usize, Failed>
        requires room { 0 < length buffer.old }
        requires few { self.old.faults < 2 ^ 64 - 1 }
        ensures within { IfOk result (λ n. n ≤ length buffer.new) }
        ensures bytes { Reads (Some self.old.left) (Some self.new.left) result buffer.new }
        ensures cause { HasCause self.old.faults self.new.faults result }

        ensures listed { ReadsAsListed self.old self.new (length buffer.old) result }
    {
        let is_failing = is_listed(&self.fails, self.calls);
        self.calls = self.calls.saturating_add(1);
        if is_failing {
            self.faults += 1;
            return Err(Failed);
        }
        let left = &self.bytes[self.at..];
        let taken = left.len().min(buffer.len()).min(self.piece);
        buffer[..taken].copy_from_slice(&left[..taken]);
        self.at += taken;
        Ok(taken)
    }
}

/// A sink that keeps what is written in memory. It takes it in pieces, and fails the writes that it
/// is told to.
#[derive(Drop)]
pub struct MemSink {
    written: Vec<u8>,
    piece: usize,
    fails: Vec<u32>,
    calls: u64,
    faults: u64,
}

impl Model for MemSink {
    ghost use Rattle.std.specs.Prelude.{◌<◌};
    ghost use Rattle.edge_io.specs.Memory.{SinkView};

    ghost Value = { SinkView };

    ghost view = { λ s. record {
      written = s.written.items;
      piece = s.piece;
      fails = s.fails.items;
      calls = s.calls;
      faults = s.faults;
    } };

    ghost invariant = { λ s. 0 < s.piece };
}

impl MemSink {
    /// A sink with nothing written. A write takes at most `piece` bytes, which is at least 1. The
    /// writes whose numbers stand in `fails`, counted from 0, fail, and so does a write for which no
    /// memory is found.
    pub fn new(alloc: Global, piece: usize, fails: Vec<u32>) -> MemSink
        requires { 0 < piece }
        ensures { result ≡ record { written = []; piece = piece; fails = fails.items; calls = 0; faults = 0 } }
    {
        MemSink {
            written: Vec::new(alloc),
            piece,
            fails,
            calls: 0,
            faults: 0,
        }
    }

    /// All that was written.
    pub fn bytes(&self) -> &[u8]
        ensures { result.now ≡ self.now.written }
    {
        &self.written
    }
}

impl Sink for MemSink {
    ghost written = { λ s. Some s.written };

    ghost count = { λ s. Some (length s.written) };

    ghost faults = { λ s. s.faults };

    fn write(&mut self, piece: &[u8]) -> Result<usize, Failed>
        requires some { 0 < length piece.now }
        requires few { self.old.faults < 2 ^ 64 - 1 }
        ensures within { IfOk result (λ n. (0 < n) × (n ≤ length piece.now)) }
        ensures bytes { Writes (Some self.old.written) (Some self.new.written) result piece.now }
        ensures number { WritesCount (Some (length self.old.written)) (Some (length self.new.written)) result }
        ensures cause { HasCause self.old.faults self.new.faults result }

        ensures listed { WritesAsListed self.old self.new piece.now result }
    {
        let is_failing = is_listed(&self.fails, self.calls);
        self.calls = self.calls.saturating_add(1);
        let taken = piece.len().min(self.piece);
        if is_failing || self.written.extend_from_slice(&piece[..taken]).is_err() {
            self.faults += 1;
            return Err(Failed);
        }
        Ok(taken)
    }
}

/// A sink that keeps nothing of what is written but the number of its bytes. It never fails.
#[derive(Drop)]
pub struct CountSink {
    count: Option<u64>,
}

impl Model for CountSink {
    ghost use Rattle.std.specs.Prelude.{Option, ℕ};

    ghost Value = { Option ℕ };

    ghost view = { λ s. s.count };
}

impl CountSink {
    /// A sink with no byte written.
    pub fn new() -> CountSink
        ensures { result ≡ Some 0 }
    {
        CountSink { count: Some(0) }
    }

    /// The number of bytes written, `None` exactly where it does not fit 64 bits.
    pub fn count(&self) -> Option<u64>
        ensures { result ≡ self.now }
    {
        self.count
    }
}

impl Default for CountSink {
    ghost is_default = { λ sink. sink ≡ Some 0 };

    fn default() -> CountSink {
        CountSink::new()
    }
}

impl Sink for CountSink {
    ghost written = { λ _. None };

    ghost count = { λ s. s };

    ghost faults = { λ _. 0 };

    fn write(&mut self, piece: &[u8]) -> Result<usize, Failed>
        requires { 0 < length piece.now }
        ensures within { IfOk result (λ n. (0 < n) × (n ≤ length piece.now)) }
        ensures bytes { Writes None None result piece.now }
        ensures number { WritesCount self.old self.new result }
        ensures cause { HasCause 0 0 result }

        ensures whole { result ≡ Ok (length piece.now) }
        ensures count { CountsOn self.old self.new (length piece.now) }
    {
        self.count = count_after(self.count, piece.len());
        Ok(piece.len())
    }
}

// The number of bytes written after so many more.
fn count_after(count: Option<u64>, more: usize) -> Option<u64>
    ensures total { CountsOn count result more }
    ensures told { Counts count result more }
{
    count?.checked_add(more as u64)
}

// Whether the call of this number is one of those to fail.
fn is_listed(fails: &[u32], call: u64) -> bool
    ensures { result ≡ is_listed fails.now call }
{
    fails.iter().any(|&listed| u64::from(listed) == call)
}
