//! Whole numbers, read from words.
ghost use Rattle.std.specs.Prelude.{◌≡◌, ◌^◌, ◌<◌, ◌≤◌, true, length, IfSome};
ghost use Rattle.std.specs.List.{list_all};
ghost use Rattle.std.specs.Char.{is_ascii_digit};
ghost use Rattle.job_lines.specs.Numbers.{decimal, is_digits, has_leading_zero, is_whole, whole_of, number_within};

/// The number that the digits write.
fn decimal(digits: &[u8]) -> u32
    requires digits { list_all is_ascii_digit digits.now ≡ true }
    requires few { length digits.now < 10 }
    ensures { result ≡ decimal digits.now }
{
    let mut number = 0;
    for digit in digits {
        number = number * 10 + u32::from(*digit - b'0');
    }
    number
}

/// Whether each byte of the word is a digit.
fn has_digits_only(word: &[u8]) -> bool
    ensures { result ≡ list_all is_ascii_digit word.now }
{
    word.iter().all(|byte| byte.is_ascii_digit())
}

/// Whether the text is so many digits and nothing else.
#[tactic(auto, unfolding(crate::specs::Numbers::is_digits))]
pub(crate) fn is_digits(low: usize, high: usize, text: &[u8]) -> bool
    ensures { result ≡ is_digits low high text.now }
{
    if text.len() < low || text.len() > high {
        return false;
    }
    has_digits_only(text)
}

/// Whether the word begins with a zero and goes on.
fn has_leading_zero(word: &[u8]) -> bool
    ensures { result ≡ has_leading_zero word.now }
{
    word.len() > 1 && word.first() == Some(&b'0')
}

/// Whether the word writes a whole number: one to nine digits without a leading zero.
#[tactic(auto, unfolding(crate::specs::Numbers::is_whole))]
fn is_whole(word: &[u8]) -> bool
    ensures { result ≡ is_whole word.now }
{
    if word.is_empty() || word.len() > 9 {
        return false;
    }
    has_digits_only(word) && !has_leading_zero(word)
}

/// The whole number that the word writes.
#[tactic(auto, unfolding(crate::specs::Numbers::is_whole, crate::specs::Numbers::whole_of))]
fn whole_in(word: &[u8]) -> Option<u32>
    ensures { result ≡ whole_of word.now }
{
    if is_whole(word) {
        Some(decimal(word))
    } else {
        None
    }
}

/// The whole number from `low` to `high` that the word writes.
#[tactic(auto, unfolding(crate::specs::Numbers::number_within))]
pub(crate) fn number_within(low: u32, high: u32, word: &[u8]) -> Option<u32>
    ensures value { result ≡ number_within low high word.now }
    ensures within { IfSome result (λ number. (low ≤ number) × (number ≤ high)) }
{
    let number = whole_in(word)?;
    if low <= number && number <= high {
        Some(number)
    } else {
        None
    }
}

/// The whole number from `low` to `high` that the word writes, where these are small.
pub(crate) fn small_within(low: u8, high: u8, word: &[u8]) -> Option<u8>
    ensures value { result ≡ number_within low high word.now }
    ensures within { IfSome result (λ number. (low ≤ number) × (number ≤ high)) }
{
    match number_within(u32::from(low), u32::from(high), word) {
        Some(number) => Some(number as u8),
        None => None,
    }
}
