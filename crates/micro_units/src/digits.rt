//! The decimal digits of a number as text.

ghost use Rattle.std.specs.Prelude.{◌≡◌, ◌<◌, ◌-◌, ◌≤◌, ◌^◌, ◌++◌, ◌&&◌, nat_lt, min, fold, length, position, is_some, IfSome, IsTrue};
ghost use Rattle.std.specs.List.{list_all, before_first, after_first};
ghost use Rattle.std.specs.Char.{is_ascii_digit};
ghost use Rattle.micro_units.specs.NumberText.{is_point, is_number, with_digit, decimal, decimals_of, kept_digits};

/// How many decimals decide the rounding to whole millionths.
const KEPT: usize = 7;

/// The digits of a number, with the decimals from the eighth on left out.
#[derive(Clone, Copy)]
pub(crate) struct Digits {
    /// The digits as one number, or the greatest `u64` where that is too large for one.
    pub(crate) number: u64,
    /// How many of them are decimals, at most seven.
    pub(crate) decimals: u32,
    ghost few: { decimals ≤ 7 },
}

/// The digits of a number, or `None` where the text is none.
pub(crate) fn digits_in(text: &[u8]) -> Option<Digits>
    ensures form { is_some result ≡ is_number text.now }
    ensures number { IfSome result (λ d. d.number ≡ min (decimal (kept_digits text.now)) (2 ^ 64 - 1)) }
    ensures decimals { IfSome result (λ d. d.decimals ≡ min 7 (length (decimals_of text.now))) }
{
    let (whole, decimals) = split_at_point(text);
    if !is_number(whole, decimals) {
        return None;
    }
    let kept = &decimals[..decimals.len().min(KEPT)];
    let number = with_digits(with_digits(0, whole), kept);
    Some(Digits {
        number,
        decimals: kept.len() as u32,
    })
}

/// What stands before the first point of `text`, and what stands after it.
fn split_at_point(text: &[u8]) -> (&[u8], &[u8])
    ensures whole { result.0.now ≡ before_first is_point text.now }
    ensures decimals { result.1.now ≡ after_first is_point text.now }
{
    match point_in(text) {
        Some(point) => (&text[..point], &text[point + 1..]),
        None => (text, &[]),
    }
}

/// The place of the first point.
fn point_in(text: &[u8]) -> Option<usize>
    ensures { result ≡ position is_point text.now }
{
    text.iter().position(|byte| *byte == b'.')
}

/// Whether these are at least one digit, and digits alone.
fn is_number(whole: &[u8], decimals: &[u8]) -> bool
    ensures { let digits = whole.now ++ decimals.now in
        result ≡ (list_all is_ascii_digit digits && nat_lt 0 (length digits)) }
{
    let is_empty = whole.is_empty() && decimals.is_empty();
    !is_empty && are_digits(whole) && are_digits(decimals)
}

/// Whether each byte is a digit.
fn are_digits(bytes: &[u8]) -> bool
    ensures { result ≡ list_all is_ascii_digit bytes.now }
{
    bytes.iter().all(|byte| byte.is_ascii_digit())
}

/// `start` with these digits after it, or the greatest `u64` where that is too large for one.
fn with_digits(start: u64, digits: &[u8]) -> u64
    requires { IsTrue (list_all is_ascii_digit digits.now) }
    ensures { result ≡ min (fold with_digit start digits.now) (2 ^ 64 - 1) }
{
    let mut number = start;
    for digit in digits {
        number = number
            .saturating_mul(10)
            .saturating_add(u64::from(*digit - b'0'));
    }
    number
}
