//! Reads and writes that fail, and an input that comes in pieces. The job is that of the program's stored run.
ghost use Rattle.std.specs.Prelude.{◌<◌};

use crate::running::run_words;
use edge_io::{MemSink, MemSource, OpenGate};
use exit_statuses::Status;
use std::alloc::{AllocError, Global};
use std::sync::Wait;
use std::test::Fail;
use std::thread::Threads;

// Two turrets face a part, the one after the other.
const TURRETS: &str = "JOB 1
CHANNEL 1 UPPER START
CHANNEL 2 LOWER START
AXIS X1 1 150
AXIS Z1 1 200
AXIS X2 2 150
AXIS Z2 2 200
GEO 1 X X1
GEO 1 Z Z1
GEO 2 X X2
GEO 2 Z Z2
OFFSET 1 G54 Z 50
OFFSET 2 G54 Z 50
ZONE 1 1 1 ON +X1 0 40 - -10 10 +Z1 0 60
ZONE 2 2 2 ON -X2 -40 0 - -10 10 +Z2 0 60
%_N_UPPER_MPF
N10 G18 G90 G54 G95 DIAMON
N20 G96 S180 LIMS=2500 M4
N30 G0 X62 Z2
N40 G1 X-1.6 F0.2
N50 G0 Z5
N60 G0 X300 Z150
N70 WAITM(1,2)
N80 M30
%_N_LOWER_MPF
N10 G18 G90 G54 G95 DIAMON
N20 WAITM(1,1)
N30 G0 X62 Z2
N40 G1 X-1.6 F0.2
N50 G0 X300
N60 M30
";

const TURRETS_OUTPUT: &str = "TURNMILL 1
CHANNEL 1
19 LINE X1=31.000 Z1=52.000
20 LINE X1=-0.800
21 LINE Z1=55.000
22 LINE X1=150.000 Z1=200.000
23 WAITM 1 2
24 END
STATE ENDED 24
CHANNEL 2
27 WAITM 1 1
28 LINE X2=31.000 Z2=52.000
29 LINE X2=-0.800
30 LINE X2=150.000
31 END
STATE ENDED 31
VERDICT YES
";

// The number of a read or a write that never comes.
const NEVER: u32 = 1000;

// How the streams of a call fail: reads give pieces of a size, and the read and the write of these numbers fail.
#[derive(Clone, Copy)]
struct Streams {
    size: usize,
    read: u32,
    write: u32,
}

// Whether a call with this word ends so and writes this, where its streams fail so, and writes take 16 bytes.
fn gives<R: Threads + Wait + Sync>(
    rt: &R,
    alloc: Global,
    word: &str,
    streams: Streams,
    status: Status,
    output: &[u8],
) -> Result<bool, AllocError>
    requires { 0 < streams.size }
{
    let input = TURRETS.as_bytes().to_vec(alloc)?;
    let mut source = MemSource::new(input, streams.size, [streams.read].to_vec(alloc)?);
    let mut sink = MemSink::new(alloc, 16, [streams.write].to_vec(alloc)?);
    let ended = run_words(rt, alloc, &[word], &mut source, &mut sink, &OpenGate);
    Ok(ended == status && sink.bytes() == output)
}

// The first ten reads, under each word. The input has 526 bytes, so the ninth read of 64 gives the last of them, and the tenth none.
#[test]
fn stops_at_each_read_that_fails(rt: HostRuntime) -> Result<(), Fail> {
    let alloc = rt.alloc();
    for failing in 0..20 {
        let word = if failing < 10 { "check" } else { "run" };
        let read = failing % 10;
        let streams = Streams {
            size: 64,
            read,
            write: NEVER,
        };
        assert!(rt;
            gives(&rt, alloc, word, streams, Status::ReadFault, &[])?,
            "{failing}"
        );
    }
    Ok(())
}

// All seventeen writes, under each word: the output has 272 bytes. Where the eighteenth is to fail, or the read after the one that
// gave none, the output is whole.
#[test]
fn stops_at_each_write_that_fails(rt: HostRuntime) -> Result<(), Fail> {
    let alloc = rt.alloc();
    let output = TURRETS_OUTPUT.as_bytes();
    for failing in 0..36 {
        let word = if failing < 18 { "check" } else { "run" };
        let write = failing % 18;
        let status = if write < 17 {
            Status::WriteFault
        } else {
            Status::Yes
        };
        let front = output.get(..16 * write as usize).ok_or("a short output")?;
        let streams = Streams {
            size: 64,
            read: 10,
            write,
        };
        assert!(rt;
            gives(&rt, alloc, word, streams, status, front)?,
            "{failing}"
        );
    }
    Ok(())
}

// However an input comes, in pieces of a byte, of a part of a line or of all its lines, it is answered as a whole.
#[test]
fn answers_an_input_in_pieces(rt: HostRuntime) -> Result<(), Fail> {
    let output = TURRETS_OUTPUT.as_bytes();
    for size in [1, 7, 4096] {
        let streams = Streams {
            size,
            read: NEVER,
            write: NEVER,
        };
        assert!(rt;
            gives(&rt, rt.alloc(), "check", streams, Status::Yes, output)?,
            "{size}"
        );
    }
    Ok(())
}
