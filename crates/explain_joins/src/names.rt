//! How files of a control and their programs are named.
ghost use Rattle.std.specs.Prelude.{◌≡◌, ◌<◌, ◌≤◌, ◌++◌, IfOk, length, map};
ghost use Rattle.std.specs.Option.{IfSome};
ghost use Rattle.std.specs.Path.{rfind_below};
ghost use Rattle.explain_joins.specs.Names as model;

use growing_text::Text;
use out_of_memory::NoMemory;
use std::alloc::Global;

/// The most letters that the name of a program has.
const NAME_LIMIT: usize = 24;

/// The last place of a byte in a text.
fn last_place(text: &[u8], byte: u8) -> Option<usize>
    ensures last { result ≡ rfind_below byte text.now (length text.now) }
    ensures within { IfSome result (λ place. place < length text.now) }
{
    let mut place = text.len();
    while place > 0 {
        if text[place - 1] == byte {
            return Some(place - 1);
        }
        place -= 1;
    }
    None
}

/// The name of a file: what stands behind the last `/` of its path.
pub(crate) fn base_name(path: &[u8]) -> &[u8]
    ensures { result.now ≡ model.base_name path.now }
{
    match last_place(path, b'/') {
        Some(place) => &path[place + 1..],
        None => path,
    }
}

/// Where the ending of a name begins: at its last point.
fn point_of(name: &[u8]) -> usize
    ensures point { result ≡ model.point_of name.now }
    ensures within { result ≤ length name.now }
{
    match last_place(name, b'.') {
        Some(place) => place,
        None => name.len(),
    }
}

/// A capital or a digit for a byte, and an underscore for what no name of a program has.
fn name_byte(byte: u8) -> u8
    ensures { result ≡ model.name_byte byte }
{
    if byte.is_ascii_alphanumeric() {
        byte.to_ascii_uppercase()
    } else {
        b'_'
    }
}

/// The letters of a name for those of a text. `NoMemory` where too little memory is found.
fn letters_for(alloc: Global, text: &[u8]) -> Result<Vec<u8>, NoMemory>
    ensures { IfOk result (λ letters. letters.items ≡ map model.name_byte text.now) }
{
    let mut letters = Vec::new(alloc);
    for byte in text {
        letters.push(name_byte(*byte))?;
    }
    Ok(letters)
}

/// Letters without the sign of a header before them.
fn without_sign(letters: &[u8]) -> &[u8]
    ensures { result.now ≡ model.without_sign letters.now }
{
    match letters.strip_prefix(b"_N_") {
        Some(rest) => rest,
        None => letters,
    }
}

/// Whether a text ends so.
pub(crate) fn ends_so(text: &[u8], end: &[u8]) -> bool
    ensures { result ≡ model.ends_so text.now end.now }
{
    match text.strip_suffix(end) {
        Some(_) => true,
        None => false,
    }
}

/// The letters that the name of a program has.
fn short_name(letters: &[u8]) -> &[u8]
    ensures { result.now ≡ model.short_name letters.now }
{
    if letters.len() > NAME_LIMIT {
        &letters[..NAME_LIMIT]
    } else {
        letters
    }
}

/// Letters without the four at their end.
fn before_four(letters: &[u8]) -> &[u8]
    ensures { result.now ≡ model.before_four letters.now }
{
    &letters[..letters.len().saturating_sub(4)]
}

/// The kind of a program, from the letters of the ending of its file's name.
fn kind_of(ending: &[u8]) -> &'static str
    ensures { result.now ≡ model.kind_of ending.now }
{
    if ending == b"_SPF".as_slice() {
        "_SPF"
    } else {
        "_MPF"
    }
}

/// Writes the name and the kind of a program.
#[tactic(auto, unfolding(crate::specs::Names::word_of))]
fn put_word(text: &mut Text, letters: &[u8], ending: &[u8])
    ensures { text.new ≡ text.old ++ model.word_of letters.now ending.now }
{
    if ends_so(letters, b"_SPF") {
        text.bytes(short_name(before_four(letters)));
        text.say("_SPF");
    } else if ends_so(letters, b"_MPF") {
        text.bytes(short_name(before_four(letters)));
        text.say("_MPF");
    } else {
        text.bytes(short_name(letters));
        text.say(kind_of(ending));
    }
}

/// Writes the header that the name of a file gives to its program. `NoMemory` where too little memory is found.
#[tactic(auto, unfolding(crate::specs::Names::header_of))]
pub(crate) fn put_header(alloc: Global, text: &mut Text, name: &[u8]) -> Result<(), NoMemory>
    ensures { IfOk result (λ _. text.new ≡ text.old ++ model.header_of name.now) }
{
    let letters = letters_for(alloc, name)?;
    let (front, ending) = letters.split_at(point_of(name));
    text.say("%_N_");
    put_word(text, without_sign(front), ending);
    Ok(())
}
