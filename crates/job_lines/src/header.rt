//! Headers of programs.
ghost use Rattle.std.specs.Prelude.{◌≡◌, ◌≤◌, map, length, IsTrue};
ghost use Rattle.std.specs.List.{list_all};
ghost use Rattle.job_lines.specs.Header.{is_name_byte, has_header_form, is_header, header_word_of, header_of};

use crate::code::Code;
use nc_blocks::NameText;

/// Whether the byte is a capital letter, a digit or an underscore.
#[tactic(auto, unfolding(crate::specs::Header::is_name_byte))]
fn is_name_byte(byte: u8) -> bool
    ensures { result ≡ is_name_byte byte }
{
    byte.is_ascii_uppercase() || byte.is_ascii_digit() || byte == b'_'
}

/// Whether each byte may stand in a program's name.
fn is_name(bytes: &[u8]) -> bool
    ensures { result ≡ list_all is_name_byte bytes.now }
{
    bytes.iter().all(|byte| is_name_byte(*byte))
}

/// Whether the word is a header with this ending of four bytes.
#[tactic(auto, unfolding(crate::specs::Header::has_header_form))]
fn has_header_form(word: &[u8], ending: &[u8]) -> bool
    ensures value { result ≡ has_header_form word.now ending.now }
    ensures long { IsTrue result → (9 ≤ length word.now) × (length word.now ≤ 32) }
{
    if word.len() < 9 || word.len() > 32 {
        return false;
    }
    word.starts_with(b"%_N_") && word.ends_with(ending) && is_name(&word[4..word.len() - 4])
}

/// Whether the word is the header of a main program or of a subprogram.
#[tactic(auto, unfolding(crate::specs::Header::is_header))]
fn is_header(word: &[u8]) -> bool
    ensures value { result ≡ is_header word.now }
    ensures long { IsTrue result → (9 ≤ length word.now) × (length word.now ≤ 32) }
{
    has_header_form(word, b"_MPF") || has_header_form(word, b"_SPF")
}

/// The name in a header.
#[tactic(auto, unfolding(crate::specs::Header::header_word_of))]
fn header_word_in(word: &[u8]) -> Result<NameText, Code>
    ensures { result ≡ header_word_of word.now }
{
    if is_header(word) {
        Ok(NameText::of_word(&word[4..word.len() - 4]))
    } else {
        Err(Code::BadHeader)
    }
}

/// The name that a line with `%` gives to the program after it, from the line's words in upper case.
#[tactic(auto, unfolding(crate::specs::Header::header_of))]
pub fn header_in(words: &[&[u8]]) -> Result<NameText, Code>
    ensures { result ≡ header_of (map (λ word. word.now) words.now) }
{
    match words {
        [word] => header_word_in(word),
        _ => Err(Code::BadHeader),
    }
}
