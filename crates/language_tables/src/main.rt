//! Tells what the crates of the control language make of cases, one on each line of standard input.
//!
//! A case is a word, which says what is asked, a blank, and a line of a part program; [`spelled_out`] says how a long line
//! is written. Each case is written again with ` => ` and the answer after it. An empty line, and one that begins with
//! `#`, is written again as it is.
#![tactic(auto)]

ghost use Rattle.block_scanner.specs.Scanned.{IsScanned};

mod cutting;
mod expressions;
mod spelling;
mod tokens;

use block_scanner::{LINE_LIMIT, Words, scan};
use cutting::tell_lines;
use expressions::{tell_constant, tell_value};
use nc_syntax::statement;
use spelling::spelled_out;
use std::alloc::Global;
use std::io;
use tokens::tell_tokens;

/// Tells the block of a line, or why it has none.
fn tell_block(
    rt: &impl Print,
    alloc: Global,
    words: &Words<'_>,
    compensation: bool,
) -> io::Result<()>
    requires { IsScanned words.now }
{
    match statement(alloc, words, compensation) {
        Ok(block) => println!(rt; "{block:?}"),
        Err(fault) => println!(rt; "{fault}"),
    }
}

/// Tells what is asked of a scanned line.
fn tell_words(rt: &impl Print, alloc: Global, asked: &str, words: &Words<'_>) -> io::Result<()>
    requires { IsScanned words.now }
{
    match asked {
        "tokens" => tell_tokens(rt, words),
        "value" => tell_value(rt, alloc, words),
        "constant" => tell_constant(rt, words),
        "block" => tell_block(rt, alloc, words, false),
        "compensated" => tell_block(rt, alloc, words, true),
        _ => println!(rt; "no such question"),
    }
}

/// Tells what is asked of a text.
fn tell(rt: &impl Print, alloc: Global, asked: &str, text: &str) -> io::Result<()> {
    if asked == "lines" {
        return tell_lines(rt, alloc, text.as_bytes());
    }
    if text.len() > LINE_LIMIT {
        return println!(rt; "too long");
    }
    match scan(alloc, text.as_bytes()) {
        Ok(words) => tell_words(rt, alloc, asked, &words),
        Err(fault) => println!(rt; "{fault}"),
    }
}

/// Writes a row of standard input, and what is asked there.
fn tell_row(rt: &impl Print, alloc: Global, row: &str) -> io::Result<()> {
    if row.is_empty() || row.starts_with('#') {
        return println!(rt; "{row}");
    }
    let (asked, case) = row.split_once(' ').unwrap_or((row, ""));
    let text = spelled_out(alloc, case)?;
    print!(rt; "{row} => ")?;
    tell(rt, alloc, asked, text.as_str())
}

/// Reads all rows. A read or a write that fails, and want of memory, end it with a status that is not 0.
fn main(rt: HostRuntime) -> io::Result<()> {
    for row in rt.lines(rt.alloc()) {
        tell_row(&rt, rt.alloc(), row?.as_str())?;
    }
    Ok(())
}
