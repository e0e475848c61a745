//! Lines, cut from an input that comes in pieces.

ghost use Rattle.std.specs.Prelude.{◌<◌};

use block_scanner::Cutter;
use std::alloc::{AllocError, Global};
use std::io;

/// Puts a line after a text, with a mark after it, and `!` before that where the line is too long.
fn put_line(text: &mut String, cutter: &Cutter, mark: &str) -> Result<(), AllocError> {
    text.push_str(str::from_utf8(cutter.line()).unwrap_or("no text"))?;
    if cutter.too_long() {
        text.push_str("!")?;
    }
    text.push_str(mark)
}

/// Puts each line that ends in a piece after a text, with `|` after it.
fn put_lines(text: &mut String, cutter: &mut Cutter, piece: &[u8]) -> Result<(), AllocError> {
    let mut rest = piece;
    for _ in 0..piece.len() {
        if rest.is_empty() {
            break;
        }
        let (taken, ended) = cutter.take(rest);
        if ended {
            put_line(text, cutter, "|")?;
        }
        rest = &rest[taken..];
    }
    Ok(())
}

/// The lines of an input that comes in pieces of a size, and what is left at its end, with `.` after it.
fn lines_of(alloc: Global, input: &[u8], size: usize) -> Result<String, AllocError>
    requires { 0 < size }
{
    let mut cutter = Cutter::new();
    let mut text = String::new(alloc);
    for piece in input.chunks(size) {
        put_lines(&mut text, &mut cutter, piece)?;
    }
    put_line(&mut text, &cutter, ".")?;
    Ok(text)
}

/// Tells the lines of an input, which are the same in pieces of every size.
pub(crate) fn tell_lines(rt: &impl Print, alloc: Global, input: &[u8]) -> io::Result<()> {
    let whole = lines_of(alloc, input, 4096)?;
    for size in 1..=100 {
        if lines_of(alloc, input, size)? != whole {
            return println!(rt; "not the same in pieces of {size}");
        }
    }
    println!(rt; "{whole:?}")
}
