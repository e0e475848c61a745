//! A page of bytes that are to be written.
ghost use Rattle.std.specs.Prelude.{◌≡◌, ◌+◌, ◌-◌, ◌^◌, ◌<◌, ◌≤◌, [], ◌++◌, OnOk, length};
ghost use Rattle.std.specs.Fmt.{decimal};
ghost use Rattle.edge_io.specs.Moves.{HasCause};
ghost use Rattle.job_report.specs.Pages.{Puts, stage};

use arrayvec::ArrayVec;
use edge_io::{Failed, Sink, put_all};
use itoa::Buffer;
use std::marker::Model;

/// How many bytes a page has room for.
pub(crate) const PAGE_ROOM: usize = 5120;

/// The most bytes of a line: an arc of all axes has 866 at most, and all marks with their word and line 1,140.
pub(crate) const LINE_ROOM: usize = 1280;

/// The most digits of a number of 32 bits.
pub(crate) const NUMBER_ROOM: usize = 10;

/// The most digits of a number of 64 bits.
pub(crate) const COUNT_ROOM: usize = 20;

/// The most bytes of the text of an alarm or of a refusal.
pub(crate) const TEXT_ROOM: usize = 40;

/// Bytes that are to be written next.
#[derive(Drop)]
pub(crate) struct Page {
    bytes: ArrayVec<u8, PAGE_ROOM>,
}

impl Model for Page {
    ghost use Rattle.std.specs.Prelude.{List, ℕ};

    ghost Value = { List ℕ };

    ghost view = { λ p. p.bytes.items };
}

impl Page {
    pub(crate) fn new() -> Page
        ensures { result ≡ [] }
    {
        Page {
            bytes: ArrayVec::new(),
        }
    }

    /// Puts bytes at the end.
    pub(crate) fn push_bytes(&mut self, bytes: &[u8])
        requires { length self.old + length bytes.now ≤ PAGE_ROOM }
        ensures { self.new ≡ self.old ++ bytes.now }
    {
        let Ok(()) = self.bytes.try_extend_from_slice(bytes) else {
            unreachable!()
        };
    }

    /// Puts a text at the end.
    pub(crate) fn push(&mut self, text: &str)
        requires { length self.old + length text.now ≤ PAGE_ROOM }
        ensures { self.new ≡ self.old ++ text.now }
    {
        self.push_bytes(text.as_bytes());
    }

    /// Puts a number of one digit at the end.
    pub(crate) fn push_digit(&mut self, digit: u8)
        requires digit { digit < 10 }
        requires room { length self.old < PAGE_ROOM }
        ensures text { self.new ≡ self.old ++ decimal digit }
        ensures room { length self.new ≤ length self.old + 1 }
    {
        self.bytes.push(b'0' + digit);
    }

    /// Puts the digits of a number at the end.
    pub(crate) fn push_number(&mut self, number: u32)
        requires { length self.old + NUMBER_ROOM ≤ PAGE_ROOM }
        ensures text { self.new ≡ self.old ++ decimal number }
        ensures room { length self.new ≤ length self.old + NUMBER_ROOM }
    {
        self.push(Buffer::new().format(number));
    }

    /// Puts the digits of a number of 64 bits at the end.
    pub(crate) fn push_count(&mut self, count: u64)
        requires { length self.old + COUNT_ROOM ≤ PAGE_ROOM }
        ensures text { self.new ≡ self.old ++ decimal count }
        ensures room { length self.new ≤ length self.old + COUNT_ROOM }
    {
        self.push(Buffer::new().format(count));
    }
}

/// Writes what the page has, and empties it.
pub(crate) fn flush<K: Sink>(page: &mut Page, sink: &mut K) -> Result<(), Failed>
    requires few { K.faults sink.old < 2 ^ 64 - 1 }
    ensures text { Puts (stage (K.written sink.old) (K.count sink.old) page.old)
        (stage (K.written sink.new) (K.count sink.new) page.new) result [] }
    ensures cause { HasCause (K.faults sink.old) (K.faults sink.new) result }
    ensures empty { OnOk result (page.new ≡ []) }
{
    put_all(sink, page.bytes.as_slice())?;
    page.bytes.clear();
    Ok(())
}

/// Makes room for a line.
pub(crate) fn begin_line<K: Sink>(page: &mut Page, sink: &mut K) -> Result<(), Failed>
    requires few { K.faults sink.old < 2 ^ 64 - 1 }
    ensures text { Puts (stage (K.written sink.old) (K.count sink.old) page.old)
        (stage (K.written sink.new) (K.count sink.new) page.new) result [] }
    ensures cause { HasCause (K.faults sink.old) (K.faults sink.new) result }
    ensures room { OnOk result (length page.new + LINE_ROOM ≤ PAGE_ROOM) }
{
    if page.bytes.len() + LINE_ROOM > PAGE_ROOM {
        flush(page, sink)?;
    }
    Ok(())
}
