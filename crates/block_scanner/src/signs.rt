//! The signs.

ghost use Rattle.std.specs.Prelude.{◌≡◌, length};
ghost use Rattle.block_scanner.specs.Signs.{short_sign, long_sign};
ghost use Rattle.block_scanner.specs.Front.{sign_front, one_sign, two_or_one_sign, FitsIn};

use crate::beginnings::Front;
use crate::{Kind, Sign};

/// The sign that one byte writes.
#[tactic(auto, unfolding(crate::specs::Signs::short_sign))]
fn short_sign(byte: u8) -> Option<Sign>
    ensures { result ≡ short_sign byte }
{
    match byte {
        b'+' => Some(Sign::Plus),
        b'-' => Some(Sign::Minus),
        b'*' => Some(Sign::Times),
        b'/' => Some(Sign::Slash),
        b'=' => Some(Sign::Assign),
        b'<' => Some(Sign::Less),
        b'>' => Some(Sign::Greater),
        b'(' => Some(Sign::OpenParenthesis),
        b')' => Some(Sign::CloseParenthesis),
        b'[' => Some(Sign::OpenBracket),
        b']' => Some(Sign::CloseBracket),
        b',' => Some(Sign::Comma),
        b':' => Some(Sign::Colon),
        b'$' => Some(Sign::Dollar),
        _ => None,
    }
}

/// The sign that two bytes write.
#[tactic(auto, unfolding(crate::specs::Signs::long_sign))]
fn long_sign(first: u8, second: u8) -> Option<Sign>
    ensures { result ≡ long_sign first second }
{
    if first == b'=' && second == b'=' {
        Some(Sign::Equal)
    } else if first == b'<' && second == b'>' {
        Some(Sign::NotEqual)
    } else if first == b'<' && second == b'=' {
        Some(Sign::LessEqual)
    } else if first == b'>' && second == b'=' {
        Some(Sign::GreaterEqual)
    } else {
        None
    }
}

fn one_sign(sign: Option<Sign>) -> Front
    ensures value { result ≡ one_sign sign }
    ensures fits { FitsIn result 0 }
{
    match sign {
        Some(sign) => Front::Stands(Kind::Sign(sign), 0),
        None => Front::Forbidden,
    }
}

fn two_or_one_sign(long: Option<Sign>, byte: u8) -> Front
    ensures value { result ≡ two_or_one_sign long byte }
    ensures fits { FitsIn result 1 }
{
    match long {
        Some(sign) => Front::Stands(Kind::Sign(sign), 1),
        None => one_sign(short_sign(byte)),
    }
}

/// The sign that stands at a byte and those after it: the longer one of two that fit.
#[tactic(auto, unfolding(crate::specs::Front::sign_front))]
pub(crate) fn sign_front(byte: u8, following: &[u8]) -> Front
    ensures value { result ≡ sign_front byte following.now }
    ensures fits { FitsIn result (length following.now) }
{
    match following.split_first() {
        Some((second, _)) => two_or_one_sign(long_sign(byte, *second), byte),
        None => one_sign(short_sign(byte)),
    }
}
