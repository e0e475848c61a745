//! From which file a line of a joined input comes: a header that joining wrote names its file in a comment.
ghost use Rattle.std.specs.Prelude.{◌≡◌, ◌==◌, ◌++◌, ◌-◌, Some, None, length, take, slice_index};
ghost use Rattle.std.specs.Option.{MatchOption};
ghost use Rattle.std.specs.Str.{bytes_eq};
ghost use Rattle.explain_lines.specs.Origins as model;
ghost use Rattle.explain_lines.specs.Origins.{HasMark};

use crate::headers::is_header;
use crate::lines::Lines;
use growing_text::Text;

/// What a comment begins with that names a file.
const FILE_MARK: &[u8] = b"; FILE ";

/// What stands in it before the line of the file.
const LINE_MARK: &[u8] = b" LINE ";

/// A line of a file.
#[derive(Clone, Copy)]
pub struct Origin<'a> {
    /// The name of the file.
    pub file: &'a [u8],
    /// The line of the file, counted from 1.
    pub line: u32,
}

/// Whether a mark stands at the front of a text.
fn begins_with(text: &[u8], mark: &[u8]) -> bool
    ensures { result ≡ bytes_eq (take (length mark.now) text.now) mark.now }
{
    match text.strip_prefix(mark) {
        Some(_) => true,
        None => false,
    }
}

/// The last place at which a mark stands in a text.
fn last_place(text: &[u8], mark: &[u8]) -> Option<usize>
    ensures { MatchOption result (model.parts_of mark.now text.now ≡ None) (HasMark mark.now text.now) }
{
    let mut place = text.len();
    while place > 0 {
        place -= 1;
        if begins_with(&text[place..], mark) {
            return Some(place);
        }
    }
    None
}

/// What stands before and behind a mark in a text, where it last stands; nothing where it does not stand in it.
fn after_last<'a>(text: &'a [u8], mark: &[u8]) -> Option<(&'a [u8], &'a [u8])>
    ensures { MatchOption result (model.parts_of mark.now text.now ≡ None) (λ parts. model.parts_of mark.now text.now
        ≡ Some (parts.0.now, parts.1.now)) }
{
    match last_place(text, mark) {
        Some(place) => Some((&text[..place], &text[place + mark.len()..])),
        None => None,
    }
}

/// The number that digits write, up to the greatest of a line; 0 where another byte stands among them.
fn number_of(digits: &[u8]) -> u32
    ensures { result ≡ model.number_from 0 digits.now }
{
    let mut number: u32 = 0;
    for digit in digits {
        if !digit.is_ascii_digit() {
            return 0;
        }
        number = number
            .saturating_mul(10)
            .saturating_add(u32::from(*digit - b'0'));
    }
    number
}

/// The file that a header names, and the line of the file that is the header, or 0 where the file has none.
#[tactic(auto, unfolding(crate::specs::Origins::origin_in))]
fn origin_in(header: &[u8]) -> Option<Origin<'_>>
    ensures { MatchOption result (model.origin_in header.now ≡ None) (λ origin. model.origin_in header.now
        ≡ Some (origin.file.now, origin.line)) }
{
    match after_last(header, FILE_MARK) {
        Some((_, comment)) => match after_last(comment, LINE_MARK) {
            Some((file, digits)) => Some(Origin {
                file,
                line: number_of(digits),
            }),
            None => None,
        },
        None => None,
    }
}

/// The line of the last header up to and with a line behind the last of the input; 0 where there is none.
#[tactic(auto, using(crate::proofs::OriginLaws::header_stays, crate::proofs::OriginLaws::header_found))]
fn searched_header(lines: &Lines, line: u32) -> u32
    ensures { result ≡ model.header_of lines.now line }
{
    let mut header = line;
    while header > 0 {
        if is_header(lines.text(header)) {
            return header;
        }
        header -= 1;
    }
    0
}

/// The line of the last header up to and with a line; 0 where there is none.
fn header_line(lines: &Lines, line: u32) -> u32
    ensures { result ≡ model.header_of lines.now line }
{
    match lines.header(line) {
        Some(header) => header,
        None => searched_header(lines, line),
    }
}

/// From which line of which file a line of a joined input comes; nothing where no header names one.
#[tactic(auto, unfolding(crate::specs::Origins::origin_at))]
pub fn origin_of<'a>(lines: &Lines<'a>, line: u32) -> Option<Origin<'a>>
    ensures { MatchOption result (model.origin_at lines.now line ≡ None) (λ origin. model.origin_at lines.now line
        ≡ Some (origin.file.now, origin.line)) }
{
    let header = header_line(lines, line);
    if header == 0 {
        return None;
    }
    match origin_in(lines.text(header)) {
        Some(origin) => Some(Origin {
            file: origin.file,
            line: origin.line.saturating_add(line.saturating_sub(header)),
        }),
        None => None,
    }
}

/// Says from which line of which file a line of a joined input comes.
#[tactic(auto, unfolding(crate::specs::Origins::origin_text))]
pub fn say_origin(text: &mut Text, lines: &Lines, line: u32)
    ensures { text.new ≡ text.old ++ model.origin_text lines.now line }
{
    if let Some(origin) = origin_of(lines, line) {
        text.say(", ");
        text.bytes(origin.file);
        text.say(" line ");
        text.number(u64::from(origin.line));
    }
}
