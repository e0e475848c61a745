//! The refused words of a line.

ghost use Rattle.std.specs.Prelude.{◌≡◌, ◌<◌, length, drop};
ghost use Rattle.block_scanner.specs.Scanned.{IsScanned, IsTokenOf};
ghost use Rattle.block_scanner.specs.Texts.{text_of};
ghost use Rattle.micro_units.specs.NumberText.{number_of};
ghost use Rattle.word_tables.specs.GroupWords.{small_whole};
ghost use Rattle.word_tables.specs.Refused.{refused_g, refused_kind, refused_whole, refused_value, refused_before, refused_following, refused_first, refused_word, IsLeftmost};
ghost use Rattle.g_groups.specs.declared.numbers.TheConstants.{CODE_LIMIT};

use crate::group_words::{small_whole, word_with};
use block_scanner::{Kind, Sign, Token, Words};
use micro_units::Num;
use name_tables::refused_name;

/// The code of the leftmost refused word of a line, 40 to 57, or none where the line has none.
///
/// G41 and G42 are accepted with tool radius `compensation`.
pub fn refused_word(words: &Words<'_>, compensation: bool) -> Option<u16>
    requires { IsScanned words.now }
    ensures exact { result ≡ refused_word compensation words.now.line words.now.tokens }
    ensures leftmost { IsLeftmost compensation words.now.line words.now.tokens result }
{
    refused_from_left(words, compensation)
}

#[tactic(auto, using(crate::proofs::Lines::word_steps))]
fn refused_from_left(words: &Words<'_>, compensation: bool) -> Option<u16>
    requires { IsScanned words.now }
    ensures { result ≡ refused_word compensation words.now.line words.now.tokens }
{
    for index in 0..words.tokens.len() {
        if let Some(code) = refused_at(words, compensation, index) {
            return Some(code);
        }
    }
    None
}

/// The code of the token with this number.
#[tactic(auto, using(crate::proofs::Lines::first_at))]
fn refused_at(words: &Words<'_>, compensation: bool, index: usize) -> Option<u16>
    requires scanned { IsScanned words.now }
    requires within { index < length words.now.tokens }
    ensures { result ≡ refused_first compensation words.now.line (drop index words.now.tokens) }
{
    refused_token(words, compensation, words.token(index), index + 1)
}

/// The code of a token, with the number of the one after it.
#[tactic(auto, unfolding(crate::specs::Refused::refused_kind))]
fn refused_token(words: &Words<'_>, compensation: bool, token: Token, next: usize) -> Option<u16>
    requires scanned { IsScanned words.now }
    requires stands { IsTokenOf words.now.line token }
    ensures { result ≡ refused_kind compensation words.now.line token.kind (text_of words.now.line token)
        (drop next words.now.tokens) }
{
    match token.kind {
        Kind::Letter(b'G') => refused_following(words, compensation, next),
        Kind::Name => refused_name(words.text(&token)),
        Kind::Sign(Sign::Dollar) => Some(44),
        Kind::Letter(_) | Kind::Number | Kind::Text | Kind::Sign(_) => None,
    }
}

/// The code of the letter G before the token with this number.
#[tactic(auto, using(crate::proofs::Lines::after_at))]
fn refused_following(words: &Words<'_>, compensation: bool, index: usize) -> Option<u16>
    requires { IsScanned words.now }
    ensures { result ≡ refused_following compensation words.now.line (drop index words.now.tokens) }
{
    if index < words.tokens.len() {
        refused_before(words, compensation, words.token(index))
    } else {
        None
    }
}

/// The code of the letter G before a token.
#[tactic(auto, unfolding(crate::specs::Refused::refused_before))]
fn refused_before(words: &Words<'_>, compensation: bool, token: Token) -> Option<u16>
    requires { IsTokenOf words.now.line token }
    ensures { result ≡ refused_before compensation token.kind (text_of words.now.line token) }
{
    match token.kind {
        Kind::Number => refused_value(compensation, words.text(&token)),
        Kind::Letter(_) | Kind::Name | Kind::Text | Kind::Sign(_) => None,
    }
}

/// The code of a number after G.
#[tactic(auto, using(crate::proofs::Lines::whole_none))]
fn refused_value(compensation: bool, text: &[u8]) -> Option<u16>
    ensures { result ≡ refused_value compensation (number_of text.now) }
{
    match Num::parse(text) {
        Ok(number) => refused_number(compensation, number),
        Err(_) => Some(57),
    }
}

/// The code of a number in range after G.
fn refused_number(compensation: bool, number: Num) -> Option<u16>
    ensures { result ≡ refused_whole compensation (small_whole number) }
{
    match small_whole(number) {
        Some(code) => refused_g(compensation, code),
        None => Some(57),
    }
}

/// The code of a whole number after G.
#[tactic(auto, unfolding(crate::specs::Refused::refused_g))]
fn refused_g(compensation: bool, number: u16) -> Option<u16>
    requires { number < CODE_LIMIT }
    ensures { result ≡ refused_g compensation number }
{
    if number == 70 || number == 700 {
        Some(46)
    } else if number == 110 || number == 111 || number == 112 {
        Some(47)
    } else if number == 74 || number == 75 {
        Some(49)
    } else if !compensation && (number == 41 || number == 42) {
        Some(56)
    } else if word_with(number).is_some() {
        None
    } else {
        Some(57)
    }
}
