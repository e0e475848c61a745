//! What slips are called, and what to write.
ghost use Rattle.std.specs.Prelude.{◌≡◌};
ghost use Rattle.explain_refused.specs.SlipWords.{slip_advice};

use crate::Slip;

/// What a slip is, and what to write in its place.
pub fn slip_advice(slip: Slip) -> &'static str
    ensures { result.now ≡ slip_advice slip }
{
    match slip {
        Slip::CommaInNumber => "a comma stands between digits. Write a point, as in X50.5.",
        Slip::CommentInParentheses => {
            "a parenthesis begins no comment. Write ; before a comment."
        }
        Slip::ColonFirst => "a colon begins no block. Write N before the number of a block.",
        Slip::Then => "THEN is no word here. Leave it out.",
        Slip::AxisWithoutNumber => "the name of an axis has a number. Write it, as in X1.",
        Slip::BlankBeforePercent => {
            "white space stands before %. Delete it: a header begins its line."
        }
        Slip::ByteOrderMark => {
            "the file begins with a byte order mark. Save it as UTF-8 without one."
        }
        Slip::Utf16 => "the file is in UTF-16. Save it as UTF-8.",
        Slip::LonePercent => "% stands alone, as at the end of a tape. Delete the line.",
    }
}
