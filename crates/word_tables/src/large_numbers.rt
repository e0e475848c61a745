//! Numbers of a line that are out of range.

ghost use Rattle.std.specs.Prelude.{◌≡◌, ◌<◌, length, slice_index_or};
ghost use Rattle.block_scanner.specs.Scanned.{IsScanned, IsTokenOf};
ghost use Rattle.micro_units.specs.NumberText.{number_of};
ghost use Rattle.word_tables.specs.LargeNumbers.{is_large, is_large_token, has_large_number};

use block_scanner::{Kind, Token, Words};
use micro_units::{Num, NumFault};

/// Whether a number of a line is above 99,999,999.999999, where its digits from the seventh decimal
/// on are rounded before. Each number of the line counts, a block number too.
pub fn has_large_number(words: &Words<'_>) -> bool
    requires { IsScanned words.now }
    ensures { result ≡ has_large_number words.now.line words.now.tokens }
{
    for index in 0..words.tokens.len() {
        if is_large_token(words, words.token(index)) {
            return true;
        }
    }
    false
}

/// Whether a token is a number out of range.
#[tactic(auto, unfolding(crate::specs::LargeNumbers::is_large_kind))]
fn is_large_token(words: &Words<'_>, token: Token) -> bool
    requires { IsTokenOf words.now.line token }
    ensures { result ≡ is_large_token words.now.line token }
{
    match token.kind {
        Kind::Number => is_large(words.text(&token)),
        Kind::Letter(_) | Kind::Name | Kind::Text | Kind::Sign(_) => false,
    }
}

/// So many bytes write no number that is out of range: their digits are at most 99,999,999.
const SHORT_TEXT: usize = 8;

/// Whether a text is a number out of range.
#[tactic(auto, using(crate::proofs::ShortNumbers::small_if_short))]
fn is_large(text: &[u8]) -> bool
    ensures { result ≡ is_large (number_of text.now) }
{
    SHORT_TEXT < text.len() && matches!(Num::parse(text), Err(NumFault::TooLarge))
}
