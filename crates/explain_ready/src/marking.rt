//! How a line is left out.
ghost use Rattle.std.specs.Prelude.{◌≡◌, ◌==◌, ◌++◌, IfOk, take, drop, position};
ghost use Rattle.explain_ready.specs.Marking as model;

use block_scanner::LINE_LIMIT;
use explain_refused::quiet_place;
use growing_text::Text;
use out_of_memory::NoMemory;
use std::alloc::Global;
use tape_job::text_in;

/// What stands before a body that is left out: it makes a comment of the body.
pub(crate) const LEFT_OUT: &str = ";LEFT OUT ";

/// Whether the mark has room in a line.
fn has_room(raw: &[u8]) -> bool
    ensures { result ≡ model.has_room raw.now }
{
    raw.len() + LEFT_OUT.len() <= LINE_LIMIT
}

/// The place of the mark in a line that is refused with this code; none where the line is not left out. `NoMemory` where too little
/// memory is found.
fn place_at(alloc: Global, code: u16, raw: &[u8]) -> Result<Option<usize>, NoMemory>
    ensures { IfOk result (λ place. place ≡ model.place_at code raw.now) }
{
    if has_room(raw) {
        quiet_place(alloc, code, text_in(raw))
    } else {
        Ok(None)
    }
}

/// The place of the mark in a line that is refused with a code or is not refused; none where the line is not left out. `NoMemory`
/// where too little memory is found.
pub(crate) fn mark_place(
    alloc: Global,
    code: Option<u16>,
    raw: &[u8],
) -> Result<Option<usize>, NoMemory>
    ensures { IfOk result (λ place. place ≡ model.mark_place code raw.now) }
{
    match code {
        Some(code) => place_at(alloc, code, raw),
        None => Ok(None),
    }
}

/// Writes a line, with the mark at a place where there is one.
pub(crate) fn put_line(text: &mut Text, raw: &[u8], place: Option<usize>)
    ensures { text.new ≡ text.old ++ model.marked place raw.now }
{
    match place {
        Some(place) => put_marked(text, raw, place),
        None => text.bytes(raw),
    }
}

/// What stands before a place of a line, and what stands there.
fn parts_at(raw: &[u8], place: usize) -> (&[u8], &[u8])
    ensures { (result.0.now ≡ take place raw.now) × (result.1.now ≡ drop place raw.now) }
{
    if place <= raw.len() {
        raw.split_at(place)
    } else {
        (raw, &[])
    }
}

/// Writes a line with the mark at a place.
fn put_marked(text: &mut Text, raw: &[u8], place: usize)
    ensures { text.new ≡ text.old ++ model.marked_at place raw.now }
{
    let (front, body) = parts_at(raw, place);
    text.bytes(front);
    text.say(LEFT_OUT);
    text.bytes(body);
}

/// Whether a text begins with the mark.
fn begins_with_mark(text: &[u8]) -> bool
    ensures { result ≡ model.begins_with_mark text.now }
{
    match text.strip_prefix(LEFT_OUT.as_bytes()) {
        Some(_) => true,
        None => false,
    }
}

/// The place of the first `;`.
fn semicolon_of(raw: &[u8]) -> Option<usize>
    ensures { result ≡ position (λ byte. byte == 59) raw.now }
{
    raw.iter().position(|byte| *byte == b';')
}

/// Whether the first `;` of a line begins the mark.
#[tactic(auto, unfolding(crate::specs::Marking::is_left_out))]
pub(crate) fn is_left_out(raw: &[u8]) -> bool
    ensures { result ≡ model.is_left_out raw.now }
{
    match semicolon_of(raw) {
        Some(place) => begins_with_mark(&raw[place..]),
        None => false,
    }
}
