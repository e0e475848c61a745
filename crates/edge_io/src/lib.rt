//! Sources and sinks of bytes, with the count of their faults.
//!
//! A [`Source`] is read from and a [`Sink`] is written to. Each counts its faults, so that a caller
//! can tell a failed call of this object from any other end. Those over memory tell all that they
//! hold, for tests and for programs that keep what they write; those over `std`'s readers and
//! writers tell nothing but their faults, since nobody can say what a file gives or takes.
#![tactic(auto)]

ghost use Rattle.std.specs.Prelude.{◌≡◌, ℕ, ◌-◌, ◌^◌, ◌<◌, ◌≤◌, List, Option, length, IfOk, OnOk, OnErr};
ghost use Rattle.edge_io.specs.Moves.{HasCause, Grows, Counts, Reads, Writes, WritesCount, GrowsByFront};

mod gate;
mod memory;
mod standard;

pub use gate::{Gate, OpenGate};
pub use memory::{CountSink, MemSink, MemSource};
pub use standard::{StdSink, StdSource};

/// A read or a write failed.
#[derive(Clone, Copy, PartialEq, Eq)]
pub struct Failed;

/// Something that bytes are read from.
pub trait Source {
    /// The bytes that are left, where the source tells them.
    ghost left: { Self → Option (List ℕ) };

    /// How many reads failed. It never falls.
    ghost faults: { Self → ℕ };

    /// The source may be read. It may be again after a read that gave a byte, and nothing is promised after one that gave
    /// none or failed: who knows no more of a source stops there.
    ghost can_read: { Self → Type 0 };

    /// Moves the first bytes left to the start of the buffer and answers how many, 0 only where no
    /// byte is left. The buffer has room for at least one byte.
    ///
    /// `Failed` comes only where the count of faults rose in this call. The bytes left are then as
    /// before, and those in the buffer are of no meaning.
    fn read(&mut self, buffer: &mut [u8]) -> Result<usize, Failed>
        requires room { 0 < length buffer.old }
        requires few { faults self.old < 2 ^ 64 - 1 }
        requires readable { can_read self.old }
        ensures within { IfOk result (λ n. n ≤ length buffer.new) }
        ensures bytes { Reads (left self.old) (left self.new) result buffer.new }
        ensures cause { HasCause (faults self.old) (faults self.new) result }
        ensures stays_readable { IfOk result (λ n. 0 < n → can_read self.new) };
}

/// Something that bytes are written to.
pub trait Sink {
    /// The bytes written, where the sink tells them.
    ghost written: { Self → Option (List ℕ) };

    /// The number of bytes written, where the sink tells it.
    ghost count: { Self → Option ℕ };

    /// How many writes failed. It never falls.
    ghost faults: { Self → ℕ };

    /// Takes the first bytes of the piece and answers how many, at least one. The piece has at least
    /// one byte.
    ///
    /// `Failed` comes only where the count of faults rose in this call. The bytes written are then
    /// as before.
    fn write(&mut self, piece: &[u8]) -> Result<usize, Failed>
        requires some { 0 < length piece.now }
        requires few { faults self.old < 2 ^ 64 - 1 }
        ensures within { IfOk result (λ n. (0 < n) × (n ≤ length piece.now)) }
        ensures bytes { Writes (written self.old) (written self.new) result piece.now }
        ensures number { WritesCount (count self.old) (count self.new) result }
        ensures cause { HasCause (faults self.old) (faults self.new) result };
}

/// Writes all the bytes, by as many writes as the sink wants. The first write that fails ends the
/// call: a front of the bytes is then written, and nothing is tried again.
pub fn put_all<K: Sink>(sink: &mut K, bytes: &[u8]) -> Result<(), Failed>
    requires { K.faults sink.old < 2 ^ 64 - 1 }
    ensures whole { OnOk result (Grows (K.written sink.old) (K.written sink.new) bytes.now) }
    ensures number { OnOk result (Counts (K.count sink.old) (K.count sink.new) (length bytes.now)) }
    ensures front { OnErr result (GrowsByFront (K.written sink.old) (K.written sink.new) bytes.now) }
    ensures cause { HasCause (K.faults sink.old) (K.faults sink.new) result }
{
    let mut done = 0;
    while done < bytes.len() {
        done += sink.write(&bytes[done..])?;
    }
    Ok(())
}
