//! The slips that are made most often in refused lines.
ghost use Rattle.std.specs.Prelude.{◌≡◌, ◌<◌, ◌^◌, true, length};
ghost use Rattle.explain_refused.specs.Slips as model;

use crate::kinds::{depth_after, is_colon, is_comma, is_number, is_parenthesis, is_some_letter};
use crate::line_words::LineWord;
use crate::names::NameClass;
use crate::places::{begins_with_percent, has_strange};
use block_scanner::is_blank;

/// A slip.
#[derive(Clone, Copy, PartialEq, Eq)]
pub enum Slip {
    /// A comma stands between digits in place of a point.
    CommaInNumber,
    /// A comment stands in parentheses.
    CommentInParentheses,
    /// The line begins with `:`.
    ColonFirst,
    /// THEN stands in the line.
    Then,
    /// The name of an axis has no number.
    AxisWithoutNumber,
    /// White space stands before `%`.
    BlankBeforePercent,
    /// The file begins with a byte order mark.
    ByteOrderMark,
    /// The file is in UTF-16.
    Utf16,
    /// `%` stands alone.
    LonePercent,
}

/// A slip, and its place in the line.
#[derive(Clone, Copy)]
pub(crate) struct FoundSlip {
    /// What it is.
    pub slip: Slip,
    /// Its place, counted from 0.
    pub place: usize,
}

/// The codes of a block whose form is not readable: it cannot be read on, something stands after a form that has ended, or no word
/// begins there.
pub(crate) static FORM_CODES: [u16; 3] = [22, 24, 27];

/// Whether a block is refused with this code where its form is not readable.
fn is_form_code(code: u16) -> bool
    ensures { result ≡ model.is_form_code code }
{
    FORM_CODES.iter().any(|other| *other == code)
}

/// A slip at a place, where there is one.
fn found_at(slip: Slip, place: Option<usize>) -> Option<FoundSlip>
    ensures { result ≡ model.found_at slip place }
{
    match place {
        Some(place) => Some(FoundSlip { slip, place }),
        None => None,
    }
}

/// Whether a text begins with a byte order mark in UTF-8.
fn has_mark(text: &[u8]) -> bool
    ensures { result ≡ model.has_mark text.now }
{
    match text {
        [first, second, third, ..] => *first == 239 && *second == 187 && *third == 191,
        _ => false,
    }
}

/// Whether a text begins with a byte order mark in UTF-16, or a zero byte is one of its first two.
fn is_wide(text: &[u8]) -> bool
    ensures { result ≡ model.is_wide text.now }
{
    match text {
        [first, second, ..] => {
            *first == 0
                || *second == 0
                || (*first == 255 && *second == 254)
                || (*first == 254 && *second == 255)
        }
        [first] => *first == 0,
        [] => false,
    }
}

/// The slip of a text in another encoding.
#[tactic(auto, unfolding(crate::specs::Slips::encoding_slip))]
fn encoding_slip(code: u16, text: &[u8]) -> Option<FoundSlip>
    ensures { result ≡ model.encoding_slip code text.now }
{
    if code != 3 {
        None
    } else if has_mark(text) {
        found_at(Slip::ByteOrderMark, Some(0))
    } else if is_wide(text) {
        found_at(Slip::Utf16, Some(0))
    } else {
        None
    }
}

/// Whether `%` stands alone, but for a comment.
fn is_lone_percent(text: &[u8]) -> bool
    ensures { result ≡ model.is_lone_percent text.now }
{
    match text {
        [percent, next, ..] => *percent == b'%' && (is_blank(*next) || *next == b';'),
        [percent] => *percent == b'%',
        [] => false,
    }
}

/// Whether a text, from which the white space around it was taken, is refused with this code since its `%` does not begin its line.
#[tactic(auto, unfolding(crate::specs::Slips::is_moved_percent))]
fn is_moved_percent(code: u16, text: &[u8]) -> bool
    ensures { result ≡ model.is_moved_percent code text.now }
{
    begins_with_percent(text) && (code == 4 || (code == 3 && !has_strange(text)))
}

/// The slip of a text that begins with `%`.
#[tactic(auto, unfolding(crate::specs::Slips::percent_slip))]
fn percent_slip(code: u16, text: &[u8]) -> Option<FoundSlip>
    ensures { result ≡ model.percent_slip code text.now }
{
    if is_moved_percent(code, text) {
        found_at(Slip::BlankBeforePercent, Some(0))
    } else if code == 10 && is_lone_percent(text) {
        found_at(Slip::LonePercent, Some(0))
    } else {
        None
    }
}

/// The place of a `:` that begins a line.
fn colon_place(words: &[LineWord]) -> Option<usize>
    ensures { result ≡ model.colon_place words.now }
{
    match words {
        [word, ..] => {
            if is_colon(word.kind) {
                Some(usize::from(word.start))
            } else {
                None
            }
        }
        [] => None,
    }
}

/// Whether a name of this class is THEN.
fn is_then(class: NameClass) -> bool
    ensures { result ≡ model.is_then class }
{
    matches!(class, NameClass::Then)
}

/// The place of the first THEN.
fn then_place(words: &[LineWord]) -> Option<usize>
    ensures { result ≡ model.then_place words.now }
{
    for word in words {
        if is_then(word.class) {
            return Some(usize::from(word.start));
        }
    }
    None
}

/// Whether a number, a comma and a number follow one another with nothing between.
#[tactic(auto, unfolding(crate::specs::Slips::is_comma_number))]
fn is_comma_number(whole: &LineWord, comma: &LineWord, decimals: &LineWord) -> bool
    ensures { result ≡ model.is_comma_number whole.now comma.now decimals.now }
{
    is_number(whole.kind)
        && is_comma(comma.kind)
        && is_number(decimals.kind)
        && whole.end == comma.start
        && comma.end == decimals.start
}

/// The place of the first comma between digits that stands outside parentheses and brackets.
fn comma_place(words: &[LineWord]) -> Option<usize>
    requires { length words.now < 2 ^ 32 }
    ensures { result ≡ model.comma_place 0 words.now }
{
    let mut depth: usize = 0;
    let mut rest = words;
    while let [whole, comma, decimals, ..] = rest {
        if depth == 0 && is_comma_number(whole, comma, decimals) {
            return Some(usize::from(comma.start));
        }
        depth = depth_after(whole.kind, depth);
        rest = &rest[1..];
    }
    None
}

/// The place of the first `(` that begins a line or stands after a number.
fn comment_place(words: &[LineWord]) -> Option<usize>
    ensures { result ≡ model.comment_place true words.now }
{
    let mut may_begin = true;
    for word in words {
        if may_begin && is_parenthesis(word.kind) {
            return Some(usize::from(word.start));
        }
        may_begin = is_number(word.kind);
    }
    None
}

/// The place of a letter that begins these words with no number directly after it.
fn bare_letter(words: &[LineWord]) -> Option<usize>
    ensures { result ≡ model.bare_letter words.now }
{
    match words {
        [letter, next, ..] => {
            if is_some_letter(letter.kind) && letter.end != next.start {
                Some(usize::from(letter.start))
            } else {
                None
            }
        }
        [letter] => {
            if is_some_letter(letter.kind) {
                Some(usize::from(letter.start))
            } else {
                None
            }
        }
        [] => None,
    }
}

/// The place of the name of an axis without its number: after AXIS, or as the third word after GEO.
fn axis_place(words: &[LineWord]) -> Option<usize>
    ensures { result ≡ model.axis_place words.now }
{
    match words {
        [first, rest @ ..] => match first.class {
            NameClass::Axis => bare_letter(rest),
            NameClass::Geo => match rest {
                [_, _, names @ ..] => bare_letter(names),
                _ => None,
            },
            _ => None,
        },
        [] => None,
    }
}

/// The slip of a block whose form is not readable.
#[tactic(auto, unfolding(crate::specs::Slips::form_slip))]
fn form_slip(words: &[LineWord]) -> Option<FoundSlip>
    requires { length words.now < 2 ^ 32 }
    ensures { result ≡ model.form_slip words.now }
{
    if let Some(found) = found_at(Slip::ColonFirst, colon_place(words)) {
        return Some(found);
    }
    if let Some(found) = found_at(Slip::CommaInNumber, comma_place(words)) {
        return Some(found);
    }
    found_at(Slip::CommentInParentheses, comment_place(words))
}

/// The slip of a job line with a number or a name that is not of its form.
#[tactic(auto, unfolding(crate::specs::Slips::range_slip))]
fn range_slip(words: &[LineWord]) -> Option<FoundSlip>
    requires { length words.now < 2 ^ 32 }
    ensures { result ≡ model.range_slip words.now }
{
    if let Some(found) = found_at(Slip::CommaInNumber, comma_place(words)) {
        return Some(found);
    }
    found_at(Slip::AxisWithoutNumber, axis_place(words))
}

/// The slip of a block that has THEN, where something stands after a form that has ended.
#[tactic(auto, unfolding(crate::specs::Slips::then_slip))]
fn then_slip(code: u16, words: &[LineWord]) -> Option<FoundSlip>
    ensures { result ≡ model.then_slip code words.now }
{
    if code == 24 {
        found_at(Slip::Then, then_place(words))
    } else {
        None
    }
}

/// The slip that the words of a line show.
#[tactic(auto, unfolding(crate::specs::Slips::word_slip))]
fn word_slip(code: u16, words: &[LineWord]) -> Option<FoundSlip>
    requires { length words.now < 2 ^ 32 }
    ensures { result ≡ model.word_slip code words.now }
{
    if let Some(found) = then_slip(code, words) {
        return Some(found);
    }
    if is_form_code(code) {
        form_slip(words)
    } else if code == 5 {
        range_slip(words)
    } else {
        None
    }
}

/// The slip of a line that is refused with this code, of its text and its words.
#[tactic(auto, unfolding(crate::specs::Slips::slip_in))]
pub(crate) fn slip_in(code: u16, text: &[u8], words: &[LineWord]) -> Option<FoundSlip>
    requires { length words.now < 2 ^ 32 }
    ensures { result ≡ model.slip_in code text.now words.now }
{
    if let Some(found) = encoding_slip(code, text) {
        return Some(found);
    }
    if let Some(found) = percent_slip(code, text) {
        return Some(found);
    }
    word_slip(code, words)
}
