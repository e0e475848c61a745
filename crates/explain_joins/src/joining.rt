//! A job list and the files of a control, joined to one input.
ghost use Rattle.std.specs.Prelude.{◌≡◌, ◌++◌, IfOk, map, true};
ghost use Rattle.std.specs.List.{flat_map};
ghost use Rattle.explain_joins.specs.Joined as model;

use crate::lines::{
    first_told, first_word, is_header, is_other_part, is_tape_end, lines_of, trimmed, without_end,
    without_mark,
};
use crate::names::{base_name, ends_so, put_header};
use growing_text::Text;
use out_of_memory::NoMemory;
use std::alloc::Global;

/// A file of a control.
#[derive(Clone, Copy)]
pub struct ControlFile<'a> {
    /// Its name as it was given: a path.
    pub path: &'a str,
    /// Its bytes.
    pub bytes: &'a [u8],
}

/// A byte of a comment: an underscore for control characters, and for `;`, which begins comments.
fn comment_byte(byte: u8) -> u8
    ensures { result ≡ model.comment_byte byte }
{
    if byte < 32 || byte == b';' {
        b'_'
    } else {
        byte
    }
}

/// Writes the name of a file.
fn put_name(text: &mut Text, name: &[u8])
    ensures { text.new ≡ text.old ++ map model.comment_byte name.now }
{
    for byte in name {
        text.bytes([comment_byte(*byte)].as_slice());
    }
}

/// Writes the comment behind a header: the name of the file, and the line of the file that the header was, or 0.
#[tactic(auto, unfolding(crate::specs::Joined::comment))]
fn put_comment(text: &mut Text, name: &[u8], line: u64)
    ensures { text.new ≡ text.old ++ model.comment name.now line }
{
    text.say(" ; FILE ");
    put_name(text, name);
    text.say(" LINE ");
    text.number(line);
}

/// Writes what becomes of a line, by its number.
#[tactic(auto, unfolding(crate::specs::Joined::content_text))]
fn put_content(text: &mut Text, name: &[u8], number: u64, line: &[u8])
    ensures { text.new ≡ text.old ++ model.content_text name.now number line.now }
{
    let content = trimmed(line);
    if is_header(content) {
        text.bytes(content);
        put_comment(text, name, number);
    } else if !is_tape_end(content) {
        text.bytes(without_end(line));
    }
}

/// Whether a part is taken from a line on, where before it one is or is not.
#[tactic(auto, unfolding(crate::specs::Joined::takes_from))]
fn takes_from(before: bool, line: &[u8]) -> bool
    ensures { result ≡ model.takes_from before line.now }
{
    let content = trimmed(line);
    if is_header(content) {
        !is_other_part(first_word(content))
    } else {
        before
    }
}

/// Writes a line in a part that is taken, and nothing elsewhere.
fn put_taken(text: &mut Text, is_taken: bool, name: &[u8], number: u64, line: &[u8])
    ensures { text.new ≡ text.old ++ model.taken_text is_taken name.now number line.now }
{
    if is_taken {
        put_content(text, name, number, line);
        text.say("\n");
    }
}

/// Writes lines of a file, but for parts that are no programs.
fn put_lines(text: &mut Text, name: &[u8], lines: &[&[u8]])
    ensures { text.new ≡ text.old ++ model.lines_text name.now 1 true (map (λ line. line.now) lines.now) }
{
    let mut number: u64 = 0;
    let mut is_taken = true;
    for line in lines {
        number += 1;
        is_taken = takes_from(is_taken, line);
        put_taken(text, is_taken, name, number, line);
    }
}

/// Writes the header that a file gets where the first of its lines that is not silent is none. `NoMemory` where too little memory
/// is found.
fn put_made_header(
    alloc: Global,
    text: &mut Text,
    name: &[u8],
    lines: &[&[u8]],
) -> Result<(), NoMemory>
    ensures { IfOk result (λ _. text.new ≡ text.old ++ model.made_header name.now (map (λ line. line.now) lines.now)) }
{
    if is_header(first_told(lines)) {
        return Ok(());
    }
    put_header(alloc, text, name)?;
    put_comment(text, name, 0);
    text.say("\n");
    Ok(())
}

/// Writes a file, by its path: a header, and its lines. `NoMemory` where too little memory is found.
#[tactic(auto, unfolding(crate::specs::Joined::file_text))]
fn put_file(alloc: Global, text: &mut Text, path: &[u8], bytes: &[u8]) -> Result<(), NoMemory>
    ensures { IfOk result (λ _. text.new ≡ text.old ++ model.file_text path.now bytes.now) }
{
    let name = base_name(path);
    let lines = lines_of(alloc, without_mark(bytes))?;
    put_made_header(alloc, text, name, lines.as_slice())?;
    put_lines(text, name, lines.as_slice());
    Ok(())
}

/// Writes files, one after another. `NoMemory` where too little memory is found.
fn put_files(alloc: Global, text: &mut Text, files: &[ControlFile]) -> Result<(), NoMemory>
    ensures { IfOk result (λ _. text.new ≡ text.old
        ++ flat_map (λ file. model.file_text file.path.now file.bytes.now) files.now) }
{
    for file in files {
        put_file(alloc, text, file.path.as_bytes(), file.bytes)?;
    }
    Ok(())
}

/// Writes a text, with a line feed at its end.
fn put_ended(text: &mut Text, bytes: &[u8])
    ensures { text.new ≡ text.old ++ model.ended_text bytes.now }
{
    text.bytes(bytes);
    if !ends_so(bytes, b"\n") {
        text.say("\n");
    }
}

/// One input from a job list and the files of a control.
///
/// It is the list, with a line feed at its end, and each file. A byte order mark before any of them is dropped. A file gets a
/// header from its name, `%_N_UPPER_MPF` from `UPPER.MPF` and `%_N_UPPER_SPF` from `upper.spf`, unless its first line that is
/// neither empty nor a comment is a header. In the name of the program letters are capitals, and an underscore stands for what no
/// name has. A `_N_` before it and a `_MPF` or `_SPF` at its end are those of the header, and it is cut behind 24 letters. A file's
/// name with nothing before its ending gives a header that is refused.
///
/// Behind each header stands the comment `; FILE UPPER.MPF LINE n`: n is the line of the file that the header was, counted from 1,
/// or 0 where joining made it. In it control characters and `;` of the file's name are underscores. A header loses the white space
/// before it. A line with `%` alone, as at the ends of a tape, becomes empty. Each line of a file loses the white space at its end,
/// as a carriage return. The parts of a file that `other_parts` gives are left out, each up to the next header.
/// `NoMemory` where too little memory is found.
#[tactic(auto, unfolding(crate::specs::Joined::joined))]
pub fn joined_input(alloc: Global, list: &[u8], files: &[ControlFile]) -> Result<Vec<u8>, NoMemory>
    ensures { IfOk result (λ input. input.items
        ≡ model.joined list.now (flat_map (λ file. model.file_text file.path.now file.bytes.now) files.now)) }
{
    let mut text = Text::new(alloc);
    put_ended(&mut text, without_mark(list));
    put_files(alloc, &mut text, files)?;
    text.finish()
}
