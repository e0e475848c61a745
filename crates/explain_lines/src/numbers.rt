//! The number of a block.
ghost use Rattle.std.specs.Prelude.{◌≡◌, ◌==◌, ◌||◌};
ghost use Rattle.std.specs.List.{before_first, position};
ghost use Rattle.explain_lines.specs.Numbers as model;
ghost use Rattle.explain_lines.specs.Numbers.{is_no_digit};

/// The place of the first byte that is no digit.
fn first_other(text: &[u8]) -> Option<usize>
    ensures { result ≡ position is_no_digit text.now }
{
    text.iter().position(|byte| !byte.is_ascii_digit())
}

/// The digits that a text begins with.
#[tactic(auto, using(crate::proofs::NumberLaws::front_found, crate::proofs::NumberLaws::front_open))]
fn leading_digits(text: &[u8]) -> &[u8]
    ensures { result.now ≡ before_first is_no_digit text.now }
{
    match first_other(text) {
        Some(place) => &text[..place],
        None => text,
    }
}

/// What follows the sign of a skipped block.
#[tactic(auto, using(crate::proofs::TrimLaws::start_trimmed))]
fn after_skip(text: &[u8]) -> &[u8]
    ensures { result.now ≡ model.after_skip text.now }
{
    match text.split_first() {
        Some((sign, rest)) if *sign == b'/' => rest.trim_ascii_start(),
        _ => text,
    }
}

/// Whether a letter is that of block numbers.
fn is_number_letter(letter: u8) -> bool
    ensures { result ≡ (letter == 78 || letter == 110) }
{
    letter == b'N' || letter == b'n'
}

/// The block number that a block begins with, with its letter; nothing where it has none.
#[tactic(auto, using(crate::proofs::NumberLaws::digits_fit, crate::proofs::NumberLaws::front_of_block))]
fn number_in(block: &[u8]) -> &[u8]
    ensures { result.now ≡ model.number_in block.now }
{
    let Some((letter, rest)) = block.split_first() else {
        return &[];
    };
    if !is_number_letter(*letter) {
        return &[];
    }
    let digits = leading_digits(rest);
    if digits.is_empty() {
        return &[];
    }
    &block[..digits.len() + 1]
}

/// The block number that a line begins with, with its letter; nothing where it has none.
#[tactic(auto, unfolding(crate::specs::Numbers::block_number_of))]
pub fn block_number(text: &[u8]) -> &[u8]
    ensures { result.now ≡ model.block_number_of text.now }
{
    number_in(after_skip(text))
}
