//! Lines of bytes, their texts and their words.
ghost use Rattle.std.specs.Prelude.{◌≡◌, ◌<◌, ◌≤◌, true, IfOk, IfSome, map, length, position};
ghost use Rattle.block_scanner.specs.Bytes.{is_semicolon};
ghost use Rattle.block_scanner.specs.LineParts.{first_of};
ghost use Rattle.nc_expressions.specs.NameTexts.{upper};
ghost use Rattle.tape_job.specs.Lines.{is_feed, IsFirstLine, text_of, before_comment, words, is_visible, has_token, begins_with_percent, is_bare};

use block_scanner::is_blank;
use std::alloc::{AllocError, Global};

/// The place of the first line feed.
fn feed_in(bytes: &[u8]) -> Option<usize>
    ensures { result ≡ position is_feed bytes.now }
{
    bytes.iter().position(|byte| *byte == b'\n')
}

/// How many bytes the first line has with its line feed, where it has one.
#[tactic(auto, unfolding(block_scanner::specs::LineParts::first_of))]
pub(crate) fn length_of_first(bytes: &[u8]) -> Option<usize>
    ensures first { IfSome result (λ n. first_of bytes.now ≡ (n, true)) }
    ensures within { IfSome result (λ n. n ≤ length bytes.now) }
{
    let at = feed_in(bytes)?;
    Some(at + 1)
}

/// How many bytes the first line has, with its line feed where it has one.
#[tactic(auto, using(crate::proofs::LineLemmas::first_line), unfolding(block_scanner::specs::LineParts::first_of))]
pub fn first_length(bytes: &[u8]) -> usize
    requires { 0 < length bytes.now }
    ensures { IsFirstLine bytes.now result }
{
    match feed_in(bytes) {
        Some(at) => at + 1,
        None => bytes.len(),
    }
}

/// The text of a line, without its line end.
#[tactic(auto, unfolding(crate::specs::Lines::text_of))]
pub fn text_in(raw: &[u8]) -> &[u8]
    ensures value { result.now ≡ text_of raw.now }
    ensures shorter { length result.now ≤ length raw.now }
{
    match raw {
        [front @ .., b'\n'] => match front {
            [text @ .., b'\r'] => text,
            _ => front,
        },
        _ => raw,
    }
}

/// The place of the first `;`.
fn semicolon_in(text: &[u8]) -> Option<usize>
    ensures { result ≡ position is_semicolon text.now }
{
    text.iter().position(|byte| *byte == b';')
}

/// What stands before the comment of a text, or all of it where it has none.
#[tactic(auto, unfolding(crate::specs::Lines::before_comment))]
pub(crate) fn before_comment(text: &[u8]) -> &[u8]
    ensures { result.now ≡ before_comment text.now }
{
    match semicolon_in(text) {
        Some(at) => &text[..at],
        None => text,
    }
}

/// Whether something other than blanks stands in the text.
pub(crate) fn is_visible(text: &[u8]) -> bool
    ensures { result ≡ is_visible text.now }
{
    text.iter().any(|byte| !is_blank(*byte))
}

/// Whether something other than blanks stands before the comment of a line.
#[tactic(auto, unfolding(crate::specs::Lines::has_token))]
pub(crate) fn has_token(raw: &[u8]) -> bool
    ensures { result ≡ has_token raw.now }
{
    is_visible(before_comment(text_in(raw)))
}

/// Whether a line begins with `%`.
#[tactic(auto, unfolding(crate::specs::Lines::begins_with_percent))]
pub(crate) fn begins_with_percent(raw: &[u8]) -> bool
    ensures { result ≡ begins_with_percent raw.now }
{
    raw.first() == Some(&b'%')
}

/// Whether a line is nothing but its line end.
#[tactic(auto, unfolding(crate::specs::Lines::is_bare))]
pub(crate) fn is_bare(raw: &[u8]) -> bool
    ensures { result ≡ is_bare raw.now }
{
    raw == b"\n".as_slice() || raw == b"\r\n".as_slice()
}

/// The text in upper case.
pub(crate) fn upper_in(alloc: Global, text: &[u8]) -> Result<Vec<u8>, AllocError>
    ensures { IfOk result (λ v. v.items ≡ upper text.now) }
{
    text.iter()
        .map(|byte| byte.to_ascii_uppercase())
        .collect(alloc)
}

/// The words of a text.
pub(crate) fn words_of(alloc: Global, text: &[u8]) -> Result<Vec<&[u8]>, AllocError>
    ensures { IfOk result (λ v. map (λ word. word.now) v.items ≡ words text.now) }
{
    text.split(|byte| is_blank(*byte))
        .filter(|word| !word.is_empty())
        .collect(alloc)
}
