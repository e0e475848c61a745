//! A source and a sink over the readers and writers of `std`. What a file, a pipe or a terminal
//! gives and takes is beyond every proof, so both tell nothing but their faults.
ghost use Rattle.std.specs.Prelude.{◌≡◌, ◌-◌, ◌^◌, ◌<◌, ◌≤◌, ⊤, length, None, IfOk};
ghost use Rattle.edge_io.specs.Moves.{HasCause, Reads, Writes, WritesCount};
ghost use Rattle.edge_io.specs.Standard.{reader_of, read_faults, writer_of, write_faults};

use super::{Failed, Sink, Source};
use std::io::{Read, Write};

/// A source over a reader. Each error of the reader is a fault, and nothing is read again after one,
/// also where a signal interrupted the read: a program that handles no signals does not see such
/// reads.
#[derive(Drop)]
pub struct StdSource<R> {
    reader: R,
    faults: u64,
}

impl<R: Read> StdSource<R> {
    /// A source over this reader.
    pub fn new(reader: R) -> StdSource<R>
        ensures reader { reader_of result ≡ reader }
        ensures faults { read_faults result ≡ 0 }
    {
        StdSource { reader, faults: 0 }
    }
}

impl<R: Read> Source for StdSource<R> {
    ghost left = { λ _. None };

    ghost faults = { read_faults };

    ghost can_read = { λ _. ⊤ };

    fn read(&mut self, buffer: &mut [u8]) -> Result<usize, Failed>
        requires room { 0 < length buffer.old }
        requires few { read_faults self.old < 2 ^ 64 - 1 }
        ensures within { IfOk result (λ n. n ≤ length buffer.new) }
        ensures bytes { Reads None None result buffer.new }
        ensures cause { HasCause (read_faults self.old) (read_faults self.new) result }

        // Of a reader that tells its bytes none is lost.
        ensures reader { Reads (R.remaining (reader_of self.old)) (R.remaining (reader_of self.new))
            result buffer.new }
    {
        match self.reader.read(buffer) {
            Ok(taken) => Ok(taken),
            Err(_) => {
                self.faults += 1;
                Err(Failed)
            }
        }
    }
}

/// A sink over a writer. Each error of the writer is a fault, and so is a write that takes nothing.
/// Nothing is written again after one, also where a signal interrupted the write.
///
/// The sink flushes nothing. The writers that `std::io::writer` and the standard streams give hold
/// nothing back. Of one that does, as a `BufWriter`, pass a `&mut`, and flush it afterwards.
#[derive(Drop)]
pub struct StdSink<W> {
    writer: W,
    faults: u64,
}

impl<W: Write> StdSink<W> {
    /// A sink over this writer.
    pub fn new(writer: W) -> StdSink<W>
        ensures writer { writer_of result ≡ writer }
        ensures faults { write_faults result ≡ 0 }
    {
        StdSink { writer, faults: 0 }
    }
}

impl<W: Write> Sink for StdSink<W> {
    ghost written = { λ _. None };

    ghost count = { λ _. None };

    ghost faults = { write_faults };

    fn write(&mut self, piece: &[u8]) -> Result<usize, Failed>
        requires some { 0 < length piece.now }
        requires few { write_faults self.old < 2 ^ 64 - 1 }
        ensures within { IfOk result (λ n. (0 < n) × (n ≤ length piece.now)) }
        ensures bytes { Writes None None result piece.now }
        ensures number { WritesCount None None result }
        ensures cause { HasCause (write_faults self.old) (write_faults self.new) result }

        // A writer that tells its bytes has taken these.
        ensures writer { Writes (W.contents (writer_of self.old)) (W.contents (writer_of self.new))
            result piece.now }
    {
        match self.writer.write(piece) {
            Ok(taken) if taken > 0 => Ok(taken),
            _ => {
                self.faults += 1;
                Err(Failed)
            }
        }
    }
}
