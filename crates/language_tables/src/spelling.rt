//! Cases as they are written in a table.

use std::alloc::{AllocError, Global};

/// Puts a part of a case after a text: what stands before `}`, a byte by its name or a piece with the number of times that
/// it stands, and then the rest as it is.
fn put_part(text: &mut String, part: &str) -> Result<(), AllocError> {
    let (braced, rest) = part.split_once('}').unwrap_or(("", part));
    let (times, piece) = match braced {
        "n" => ("1", "\n"),
        "r" => ("1", "\r"),
        "t" => ("1", "\t"),
        "0" => ("1", "\0"),
        _ => braced.split_once(' ').unwrap_or(("1", braced)),
    };
    for _ in 0..times.parse::<u16>().unwrap_or(0) {
        text.push_str(piece)?;
    }
    text.push_str(rest)
}

/// The text of a case: `{n}`, `{r}`, `{t}` and `{0}` are a line feed, a carriage return, a tab and a byte 0, and
/// `{512 +}` is 512 times `+`.
pub(crate) fn spelled_out(alloc: Global, case: &str) -> Result<String, AllocError> {
    let mut text = String::new(alloc);
    for part in case.split('{') {
        put_part(&mut text, part)?;
    }
    Ok(text)
}
