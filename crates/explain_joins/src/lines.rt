//! The lines of a file of a control, and what each of them begins.
ghost use Rattle.std.specs.Prelude.{◌≡◌, ◌<◌, ◌≤◌, ◌==◌, ◌∷◌, IfOk, drop, length, map, position, take};
ghost use Rattle.std.specs.Char.{is_ascii_alphabetic};
ghost use Rattle.std.specs.List.{list_all};
ghost use Rattle.explain_joins.specs.Lines as model;

use out_of_memory::NoMemory;
use std::alloc::Global;

/// The byte order mark, which some editors put before a text in UTF-8.
const BYTE_ORDER_MARK: &[u8] = b"\xef\xbb\xbf";

/// A text without the byte order mark before it.
pub(crate) fn without_mark(text: &[u8]) -> &[u8]
    ensures { result.now ≡ model.without_mark text.now }
{
    match text.strip_prefix(BYTE_ORDER_MARK) {
        Some(rest) => rest,
        None => text,
    }
}

/// The place of the first line feed.
fn feed_in(text: &[u8]) -> Option<usize>
    ensures { result ≡ position (λ byte. byte == 10) text.now }
{
    text.iter().position(|byte| *byte == b'\n')
}

/// How many bytes the first line of a text has, with its line feed.
#[tactic(auto, using(crate::proofs::LineLaws::line_cut, crate::proofs::LineLaws::line_left))]
fn first_length(text: &[u8]) -> usize
    requires { 0 < length text.now }
    ensures line { model.lines_of text.now ≡ take result text.now ∷ model.lines_of (drop result text.now) }
    ensures some { 0 < result }
    ensures within { result ≤ length text.now }
{
    match feed_in(text) {
        Some(place) => place + 1,
        None => text.len(),
    }
}

/// The lines of a text, each with its line feed. `NoMemory` where too little memory is found.
pub(crate) fn lines_of(alloc: Global, text: &[u8]) -> Result<Vec<&[u8]>, NoMemory>
    ensures { IfOk result (λ lines. map (λ line. line.now) lines.items ≡ model.lines_of text.now) }
{
    let mut lines = Vec::new(alloc);
    let mut rest = text;
    while !rest.is_empty() {
        let (line, behind) = rest.split_at(first_length(rest));
        lines.push(line)?;
        rest = behind;
    }
    Ok(lines)
}

/// A text without the white space at its end.
pub(crate) fn without_end(text: &[u8]) -> &[u8]
    ensures { result.now ≡ model.without_end text.now }
{
    text.trim_ascii_end()
}

/// A text without the white space at its start.
fn without_start(text: &[u8]) -> &[u8]
    ensures { result.now ≡ model.without_start text.now }
{
    text.trim_ascii_start()
}

/// A line without the white space around it.
pub(crate) fn trimmed(line: &[u8]) -> &[u8]
    ensures { result.now ≡ model.trimmed line.now }
{
    without_start(without_end(line))
}

/// Whether a text is `%` alone, as at the ends of a tape.
pub(crate) fn is_tape_end(text: &[u8]) -> bool
    ensures { result ≡ model.is_tape_end text.now }
{
    text == b"%".as_slice()
}

/// Whether a text is nothing but a comment, or the end of a tape.
#[tactic(auto, unfolding(crate::specs::Lines::is_silent))]
fn is_silent(text: &[u8]) -> bool
    ensures { result ≡ model.is_silent text.now }
{
    text.is_empty() || text[0] == b';' || is_tape_end(text)
}

/// Whether a text is a header, which begins a part of a file.
#[tactic(auto, unfolding(crate::specs::Lines::is_header))]
pub(crate) fn is_header(text: &[u8]) -> bool
    ensures { result ≡ model.is_header text.now }
{
    !text.is_empty() && text[0] == b'%' && !is_tape_end(text)
}

/// The first line that is not silent, without the white space around it; nothing where there is none.
pub(crate) fn first_told<'a>(lines: &[&'a [u8]]) -> &'a [u8]
    ensures { result.now ≡ model.first_told (map (λ line. line.now) lines.now) }
{
    for line in lines {
        let text = trimmed(line);
        if !is_silent(text) {
            return text;
        }
    }
    &[]
}

/// Whether a byte ends a word.
fn ends_word(byte: u8) -> bool
    ensures { result ≡ model.ends_word byte }
{
    byte <= b' ' || byte == b';'
}

/// The place at which the first word of a text ends.
fn word_end(text: &[u8]) -> Option<usize>
    ensures { result ≡ position model.ends_word text.now }
{
    text.iter().position(|byte| ends_word(*byte))
}

/// The first word of a text.
pub(crate) fn first_word(text: &[u8]) -> &[u8]
    ensures { result.now ≡ model.first_word text.now }
{
    match word_end(text) {
        Some(place) => &text[..place],
        None => text,
    }
}

/// Whether the first line that is not silent begins with the word JOB, in capitals or small letters.
fn tells_job(lines: &[&[u8]]) -> bool
    ensures { result ≡ model.tells_job (map (λ line. line.now) lines.now) }
{
    first_word(first_told(lines)).eq_ignore_ascii_case(b"JOB")
}

/// Whether a job list begins with the word JOB, in capitals or small letters, after lines that are empty or comments.
/// `NoMemory` where too little memory is found.
#[tactic(auto, unfolding(crate::specs::Lines::begins_with_job))]
pub fn begins_with_job(alloc: Global, list: &[u8]) -> Result<bool, NoMemory>
    ensures { IfOk result (λ begins. begins ≡ model.begins_with_job list.now) }
{
    let lines = lines_of(alloc, without_mark(list))?;
    Ok(tells_job(lines.as_slice()))
}

/// The last four bytes of a word.
fn last_four(word: &[u8]) -> &[u8]
    ensures { result.now ≡ model.last_four word.now }
{
    &word[word.len().saturating_sub(4)..]
}

/// Whether the header of a program ends so.
fn is_program_kind(kind: &[u8]) -> bool
    ensures { result ≡ model.is_program_kind kind.now }
{
    kind.eq_ignore_ascii_case(b"_MPF") || kind.eq_ignore_ascii_case(b"_SPF")
}

/// Whether these bytes are all letters.
fn are_letters(bytes: &[u8]) -> bool
    ensures { result ≡ list_all is_ascii_alphabetic bytes.now }
{
    bytes.iter().all(|byte| byte.is_ascii_alphabetic())
}

/// Whether the header of any part ends so: `_` and three letters.
fn is_kind(kind: &[u8]) -> bool
    ensures { result ≡ model.is_kind kind.now }
{
    kind.len() == 4 && kind[0] == b'_' && are_letters(&kind[1..])
}

/// Whether a part that is no program ends its header so.
fn is_other_kind(kind: &[u8]) -> bool
    ensures { result ≡ model.is_other_kind kind.now }
{
    is_kind(kind) && !is_program_kind(kind)
}

/// Whether the first word of a header is that of a part that is no program, as `%_N_TO_TOA`.
#[tactic(auto, unfolding(crate::specs::Lines::is_other_part))]
pub(crate) fn is_other_part(word: &[u8]) -> bool
    ensures { result ≡ model.is_other_part word.now }
{
    word.len() >= 4
        && word[..4].eq_ignore_ascii_case(b"%_N_")
        && is_other_kind(last_four(&word[4..]))
}
