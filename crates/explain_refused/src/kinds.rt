//! What kinds of tokens are to a refused line.
ghost use Rattle.std.specs.Prelude.{◌≡◌, ◌<◌, ◌≤◌, ◌+◌, ◌^◌};
ghost use Rattle.explain_refused.specs.Kinds as model;

use block_scanner::{Kind, Sign};

/// Whether it is this letter, a capital.
pub(crate) fn is_letter(kind: Kind, letter: u8) -> bool
    ensures { result ≡ model.is_letter kind letter }
{
    match kind {
        Kind::Letter(other) => other == letter,
        _ => false,
    }
}

/// Whether it is any letter.
pub(crate) fn is_some_letter(kind: Kind) -> bool
    ensures { result ≡ model.is_some_letter kind }
{
    matches!(kind, Kind::Letter(_))
}

/// Whether it is a name.
pub(crate) fn is_name(kind: Kind) -> bool
    ensures { result ≡ model.is_name kind }
{
    matches!(kind, Kind::Name)
}

/// Whether it is a number.
pub(crate) fn is_number(kind: Kind) -> bool
    ensures { result ≡ model.is_number kind }
{
    matches!(kind, Kind::Number)
}

/// Whether it is `/`.
pub(crate) fn is_slash(kind: Kind) -> bool
    ensures { result ≡ model.is_slash kind }
{
    matches!(kind, Kind::Sign(Sign::Slash))
}

/// Whether it is `:`.
pub(crate) fn is_colon(kind: Kind) -> bool
    ensures { result ≡ model.is_colon kind }
{
    matches!(kind, Kind::Sign(Sign::Colon))
}

/// Whether it is `,`.
pub(crate) fn is_comma(kind: Kind) -> bool
    ensures { result ≡ model.is_comma kind }
{
    matches!(kind, Kind::Sign(Sign::Comma))
}

/// Whether it is `(`.
pub(crate) fn is_parenthesis(kind: Kind) -> bool
    ensures { result ≡ model.is_parenthesis kind }
{
    matches!(kind, Kind::Sign(Sign::OpenParenthesis))
}

/// Whether it is `(` or `[`.
pub(crate) fn does_open(kind: Kind) -> bool
    ensures { result ≡ model.does_open kind }
{
    matches!(
        kind,
        Kind::Sign(Sign::OpenParenthesis) | Kind::Sign(Sign::OpenBracket)
    )
}

/// Whether it is `)` or `]`.
pub(crate) fn does_close(kind: Kind) -> bool
    ensures { result ≡ model.does_close kind }
{
    matches!(
        kind,
        Kind::Sign(Sign::CloseParenthesis) | Kind::Sign(Sign::CloseBracket)
    )
}

/// How many parentheses and brackets are open after a token of this kind, where so many are before it.
#[tactic(auto, unfolding(crate::specs::Kinds::depth_after))]
pub(crate) fn depth_after(kind: Kind, depth: usize) -> usize
    requires { depth < 2 ^ 32 }
    ensures value { result ≡ model.depth_after kind depth }
    ensures near { result ≤ depth + 1 }
{
    if does_open(kind) {
        depth + 1
    } else if does_close(kind) {
        depth.saturating_sub(1)
    } else {
        depth
    }
}
