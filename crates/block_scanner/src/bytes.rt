//! Classes of bytes.

ghost use Rattle.std.specs.Prelude.{◌≡◌};
ghost use Rattle.std.specs.Char.{is_ascii_digit};
ghost use Rattle.block_scanner.specs.Bytes.{is_blank, is_name_start, is_name_part, is_point, begins_with};

/// Whether a byte separates tokens and means nothing else: a blank or a tab.
pub fn is_blank(byte: u8) -> bool
    ensures { result ≡ is_blank byte }
{
    byte == b' ' || byte == b'\t'
}

/// Whether a byte is a letter or an underscore. A name begins with two of these.
pub fn is_name_start(byte: u8) -> bool
    ensures { result ≡ is_name_start byte }
{
    byte.is_ascii_alphabetic() || byte == b'_'
}

/// Whether a byte is a letter, a digit or an underscore.
pub fn is_name_part(byte: u8) -> bool
    ensures { result ≡ is_name_part byte }
{
    byte.is_ascii_alphanumeric() || byte == b'_'
}

pub(crate) fn begins_with_name_start(bytes: &[u8]) -> bool
    ensures { result ≡ begins_with is_name_start bytes.now }
{
    match bytes.split_first() {
        Some((first, _)) => is_name_start(*first),
        None => false,
    }
}

pub(crate) fn begins_with_digit(bytes: &[u8]) -> bool
    ensures { result ≡ begins_with is_ascii_digit bytes.now }
{
    match bytes.split_first() {
        Some((first, _)) => first.is_ascii_digit(),
        None => false,
    }
}

pub(crate) fn begins_with_point(bytes: &[u8]) -> bool
    ensures { result ≡ begins_with is_point bytes.now }
{
    match bytes.split_first() {
        Some((first, _)) => *first == b'.',
        None => false,
    }
}
