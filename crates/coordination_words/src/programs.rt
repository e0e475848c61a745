//! The program that a text in INIT names.

ghost use Rattle.std.specs.Prelude.{◌≡◌, ◌≤◌, ◌<◌, ◌==◌, IfSome, length, position, reverse};
ghost use Rattle.coordination_words.specs.Programs as model;

use crate::setting::Setting;
use nc_blocks::{NAME_LIMIT, NameText};

/// How many bytes stand after the last `/`.
fn following_slash(text: &[u8]) -> Option<usize>
    ensures value { result ≡ position (λ byte. byte == 47) (reverse text.now) }
    ensures within { IfSome result (λ count. count < length text.now) }
{
    text.iter().rev().position(|byte| *byte == b'/')
}

/// What stands after the last `/`.
#[tactic(auto, unfolding(crate::specs::Programs::text_after_slash))]
fn text_after_slash(text: &[u8]) -> &[u8]
    ensures { result.now ≡ model.text_after_slash text.now }
{
    match following_slash(text) {
        Some(count) => &text[text.len() - count..],
        None => text,
    }
}

/// Whether a text is an ending of programs.
fn is_ending(text: &[u8]) -> bool
    ensures { result ≡ model.is_ending text.now }
{
    text.eq_ignore_ascii_case(b"_MPF") || text.eq_ignore_ascii_case(b"_SPF")
}

/// The text without what may stand before a name.
#[tactic(auto, unfolding(crate::specs::Programs::without_beginning))]
fn without_beginning(text: &[u8]) -> &[u8]
    ensures { result.now ≡ model.without_beginning text.now }
{
    if text.len() >= 3 && text[..3].eq_ignore_ascii_case(b"_N_") {
        &text[3..]
    } else {
        text
    }
}

/// The text without an ending of programs.
#[tactic(auto, unfolding(crate::specs::Programs::without_ending))]
fn without_ending(text: &[u8]) -> &[u8]
    ensures { result.now ≡ model.without_ending text.now }
{
    if text.len() >= 4 && is_ending(&text[text.len() - 4..]) {
        &text[..text.len() - 4]
    } else {
        text
    }
}

/// The number of the program of this name, in any case.
#[tactic(auto, unfolding(crate::specs::Programs::program_named))]
fn program_named<S: Setting>(setting: &S, text: &[u8]) -> Option<u16>
    ensures { result ≡ model.program_named (S.setting setting.now).names text.now }
{
    if text.len() <= NAME_LIMIT {
        setting.number_of(&NameText::of_word(text))
    } else {
        None
    }
}

/// The number of the program that a text names.
pub(crate) fn program_of<S: Setting>(setting: &S, text: &[u8]) -> Option<u16>
    ensures { result ≡ model.program_named (S.setting setting.now).names (model.program_text text.now) }
{
    program_named(
        setting,
        without_ending(without_beginning(text_after_slash(text))),
    )
}
