//! Inputs that are read from files and from standard input.
use job_lines::INPUT_LIMIT;
use std::alloc::Global;
use std::io::Read;
use std::rt::Files;
use std::{fs, io};

/// The number of bytes at which an input is too long.
const TOO_MANY: usize = INPUT_LIMIT + 1;

/// The most bytes that one read asks for.
const PIECE: usize = 4096;

/// Why an input was not read.
#[derive(Drop)]
pub(crate) enum InputFault {
    /// A file could not be opened, or a read failed.
    Failed(io::Error),
    /// The input has more than `INPUT_LIMIT` bytes.
    TooLong,
    /// Memory was wanted and not found.
    NoMemory,
}

/// Reads to the end, or to the `TOO_MANY`th byte.
fn read_all<R: Read>(alloc: Global, reader: &mut R) -> Result<Vec<u8>, InputFault> {
    let mut bytes = Vec::new(alloc);
    let mut buffer = [0; PIECE];
    for _ in 0..TOO_MANY {
        let taken = match reader.read(&mut buffer) {
            Ok(taken) => taken,
            Err(fault) => return Err(InputFault::Failed(fault)),
        };
        if taken == 0 {
            return Ok(bytes);
        }
        if bytes.extend_from_slice(&buffer[..taken]).is_err() {
            return Err(InputFault::NoMemory);
        }
        if bytes.len() >= TOO_MANY {
            return Err(InputFault::TooLong);
        }
    }
    Err(InputFault::TooLong)
}

/// Reads a file whole; the name `-` is that of standard input.
pub(crate) fn read_file<R: Files + Input>(
    rt: &R,
    alloc: Global,
    name: &str,
) -> Result<Vec<u8>, InputFault> {
    if name == "-" {
        return read_all(alloc, &mut rt.reader());
    }
    match fs::open(rt, name) {
        Ok(file) => {
            let mut file = file;
            read_all(alloc, &mut file)
        }
        Err(fault) => Err(InputFault::Failed(fault)),
    }
}
