//! Each public call once, and each fault once.
use edge_io::*;
use std::alloc::{AllocError, Global};
use std::io;
use std::io::{Cursor, ErrorKind, Read, Write};
use std::test::Fail;

#[test]
fn reads_pieces_and_fails_the_listed_read(rt: HostRuntime) -> Result<(), Fail> {
    let alloc = rt.alloc();
    let mut source = MemSource::new(b"abcdefg".to_vec(alloc)?, 3, [1].to_vec(alloc)?);
    let mut wide = [0; 5];
    assert!(rt; source.read(&mut wide) == Ok(3) && &wide == b"abc\0\0");
    assert!(rt; source.read(&mut wide) == Err(Failed));
    let mut narrow = [0; 2];
    assert!(rt; source.read(&mut narrow) == Ok(2) && &narrow == b"de");
    assert!(rt; source.read(&mut wide) == Ok(2) && &wide[..2] == b"fg".as_slice());
    assert!(rt; source.read(&mut wide) == Ok(0));
    Ok(())
}

/// Whether eight bytes that are put in pieces of three, where one write fails, give this answer and leave these bytes.
fn puts(
    alloc: Global,
    fails: u32,
    answer: Result<(), Failed>,
    bytes: &[u8],
) -> Result<bool, AllocError> {
    let mut sink = MemSink::new(alloc, 3, [fails].to_vec(alloc)?);
    let given = put_all(&mut sink, b"abcdefgh");
    Ok(given == answer && sink.bytes() == bytes)
}

#[test]
fn puts_all_or_a_front(rt: HostRuntime) -> Result<(), Fail> {
    let alloc = rt.alloc();
    assert!(rt; puts(alloc, 0, Err(Failed), b"")?);
    assert!(rt; puts(alloc, 2, Err(Failed), b"abcdef")?);
    assert!(rt; puts(alloc, 3, Ok(()), b"abcdefgh")?);
    let mut sink = MemSink::new(alloc, 3, [1].to_vec(alloc)?);
    assert!(rt; sink.write(b"abcde") == Ok(3) && sink.write(b"de") == Err(Failed));
    assert!(rt; sink.write(b"de") == Ok(2) && sink.bytes() == b"abcde".as_slice());
    Ok(())
}

#[test]
fn counts_bytes(rt: HostRuntime) {
    let mut sink = CountSink::new();
    assert!(rt; sink.count() == Some(0) && sink.write(b"abc") == Ok(3));
    assert!(rt; put_all(&mut sink, b"de") == Ok(()) && sink.count() == Some(5));
}

#[test]
fn reads_a_reader_and_writes_a_writer(rt: HostRuntime) {
    let mut buffer = [0; 4];
    let mut source = StdSource::new(b"abcdef".as_slice());
    assert!(rt; source.read(&mut buffer) == Ok(4) && &buffer == b"abcd");
    assert!(rt; source.read(&mut buffer) == Ok(2) && &buffer[..2] == b"ef".as_slice());
    assert!(rt; source.read(&mut buffer) == Ok(0));
    let mut page = [b'-'; 4];
    let mut sink = StdSink::new(Cursor::new(page.as_mut_slice()));
    // The page takes four bytes, and then nothing.
    assert!(rt; sink.write(b"abc") == Ok(3) && put_all(&mut sink, b"de") == Err(Failed));
    assert!(rt; &page == b"abcd");
}

// A stream whose first call is interrupted, and whose next ones move a byte each.
#[derive(Drop)]
struct InterruptedOnce {
    is_over: bool,
}

impl InterruptedOnce {
    fn call(&mut self) -> io::Result<()> {
        if self.is_over {
            return Ok(());
        }
        self.is_over = true;
        Err(io::Error::from(ErrorKind::Interrupted))
    }
}

impl Read for InterruptedOnce {
    fn read(&mut self, buffer: &mut [u8]) -> io::Result<usize> {
        self.call()?;
        let taken = buffer.len().min(1);
        buffer[..taken].fill(b'a');
        Ok(taken)
    }
}

impl Write for InterruptedOnce {
    fn write(&mut self, piece: &[u8]) -> io::Result<usize> {
        self.call()?;
        Ok(piece.len().min(1))
    }

    fn flush(&mut self) -> io::Result<()> {
        Ok(())
    }
}

// An error is a fault at once, also where another try would do.
#[test]
fn tries_nothing_again(rt: HostRuntime) {
    let mut stream = InterruptedOnce { is_over: false };
    assert!(rt; stream.call().is_err() && stream.call().is_ok());
    let mut buffer = [0; 4];
    let mut source = StdSource::new(InterruptedOnce { is_over: false });
    assert!(rt; source.read(&mut buffer) == Err(Failed));
    let mut sink = StdSink::new(InterruptedOnce { is_over: false });
    assert!(rt; sink.write(b"ab") == Err(Failed));
}
