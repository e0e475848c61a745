//! How far a number or a name goes on.

ghost use Rattle.std.specs.Prelude.{◌≡◌, ◌≤◌, length};
ghost use Rattle.std.specs.List.{prefix_len};
ghost use Rattle.std.specs.Char.{is_ascii_digit};
ghost use Rattle.block_scanner.specs.Bytes.{is_name_part};
ghost use Rattle.block_scanner.specs.Front.{number_more};

use crate::bytes::{begins_with_point, is_name_part};

/// How many digits stand at the front.
#[tactic(auto, using(crate::proofs::Steps::prefix_steps))]
pub(crate) fn digits_at(bytes: &[u8]) -> usize
    ensures value { result ≡ prefix_len is_ascii_digit bytes.now }
    ensures within { result ≤ length bytes.now }
{
    let mut count = 0;
    while count < bytes.len() && bytes[count].is_ascii_digit() {
        count += 1;
    }
    count
}

/// How many letters, digits and underscores stand at the front.
#[tactic(auto, using(crate::proofs::Steps::prefix_steps))]
pub(crate) fn name_parts_at(bytes: &[u8]) -> usize
    ensures value { result ≡ prefix_len is_name_part bytes.now }
    ensures within { result ≤ length bytes.now }
{
    let mut count = 0;
    while count < bytes.len() && is_name_part(bytes[count]) {
        count += 1;
    }
    count
}

/// How many bytes go on a number whose first digit stands before them: digits, and a point with
/// the digits after it.
#[tactic(auto, unfolding(crate::specs::Front::number_more))]
pub(crate) fn number_more(bytes: &[u8]) -> usize
    ensures value { result ≡ number_more bytes.now }
    ensures within { result ≤ length bytes.now }
{
    let whole = digits_at(bytes);
    let following = &bytes[whole..];
    if begins_with_point(following) {
        whole + 1 + digits_at(&bytes[whole + 1..])
    } else {
        whole
    }
}
