//! The words of the table of groups.

ghost use Rattle.std.specs.Prelude.{◌≡◌, ◌<◌, ◌&&◌, nat_le, position, is_some, IfSome};
ghost use Rattle.name_tables.specs.Tables.{is_group_name};
ghost use Rattle.word_tables.specs.GroupWords.{small_whole, g_word, word_by_number, word_by_name};

use g_groups::{
    ACCELERATION_GROUP, APPROACH_GROUP, AREA_GROUP, AREA_SWITCH_GROUP, BLOCK_GROUP, BRISK,
    CODE_LIMIT, CORNER_GROUP, DIAM90, DIAMETER_GROUP, DIAMOF, DIAMON, DIMENSION_GROUP, DWELL_GROUP,
    FEED_FORWARD_GROUP, FEED_GROUP, FFWOF, FFWON, GWord, KONT, MOTION_GROUP, NORM, OFFSET_GROUP,
    PATH_GROUP, PLANE_GROUP, RADIUS_GROUP, RAPID_GROUP, RTLIOF, RTLION, SOFT, STOP_GROUP,
    STOP_WIDTH_GROUP, SUPA, UNIT_GROUP, WALIMOF, WALIMON,
};
use micro_units::Num;
use name_tables::is_word;

/// The numbers after G that are words of groups: the group, and the first and the last of numbers
/// in a row.
const NUMBERS: [(u8, u16, u16); 21] = [
    (MOTION_GROUP, 0, 3),
    (MOTION_GROUP, 33, 33),
    (DWELL_GROUP, 4, 4),
    (AREA_GROUP, 25, 26),
    (PLANE_GROUP, 17, 19),
    (RADIUS_GROUP, 40, 42),
    (OFFSET_GROUP, 54, 57),
    (OFFSET_GROUP, 500, 500),
    (OFFSET_GROUP, 505, 599),
    (BLOCK_GROUP, 53, 53),
    (BLOCK_GROUP, 153, 153),
    (PATH_GROUP, 60, 60),
    (PATH_GROUP, 64, 64),
    (PATH_GROUP, 641, 645),
    (STOP_GROUP, 9, 9),
    (STOP_WIDTH_GROUP, 601, 603),
    (UNIT_GROUP, 71, 71),
    (UNIT_GROUP, 710, 710),
    (DIMENSION_GROUP, 90, 91),
    (FEED_GROUP, 94, 97),
    (CORNER_GROUP, 450, 451),
];

/// The word with this number after G, or none where the table of groups has no such word. The
/// number counts, however it is written.
#[tactic(auto, unfolding(crate::specs::GroupWords::word_by_number))]
pub fn group_word_by_number(number: Num) -> Option<GWord>
    ensures { result ≡ word_by_number number }
{
    match small_whole(number) {
        Some(code) => word_with(code),
        None => None,
    }
}

/// A number that is whole and below `CODE_LIMIT`.
#[tactic(auto, unfolding(crate::specs::GroupWords::small_whole))]
pub(crate) fn small_whole(number: Num) -> Option<u16>
    ensures value { result ≡ small_whole number }
    ensures small { IfSome result (λ code. code < CODE_LIMIT) }
{
    let millionths = number.millionths;
    if 0 <= millionths
        && millionths < i64::from(CODE_LIMIT) * 1_000_000
        && millionths % 1_000_000 == 0
    {
        Some((millionths / 1_000_000) as u16)
    } else {
        None
    }
}

/// The word with this number after G.
pub(crate) fn word_with(code: u16) -> Option<GWord>
    requires { code < CODE_LIMIT }
    ensures { result ≡ g_word code }
{
    match row_of(code) {
        Some(place) => Some(GWord {
            group: NUMBERS[place].0,
            code,
        }),
        None => None,
    }
}

/// The place of the first row with this number.
fn row_of(code: u16) -> Option<usize>
    ensures value { result ≡ position (λ row. nat_le row.1 code && nat_le code row.2) NUMBERS }
    ensures within { IfSome result (λ place. place < 21) }
{
    NUMBERS
        .iter()
        .position(|row| row.1 <= code && code <= row.2)
}

/// The word with this name, in upper or lower case, or none where the table of groups has no such
/// word. The names of its words are those that `name_tables` has as names of groups.
#[tactic(auto, using(crate::proofs::GroupNames::word_is_listed))]
pub fn group_word_by_name(text: &[u8]) -> Option<GWord>
    ensures value { result ≡ word_by_name text.now }
    ensures listed { is_some result ≡ is_group_name text.now }
{
    word_named(text)
}

/// The word of the table of groups with this name.
#[tactic(auto, unfolding(crate::specs::GroupWords::word_by_name))]
fn word_named(text: &[u8]) -> Option<GWord>
    ensures { result ≡ word_by_name text.now }
{
    if is_word(text, b"RTLION") {
        Some(GWord {
            group: RAPID_GROUP,
            code: RTLION,
        })
    } else if is_word(text, b"RTLIOF") {
        Some(GWord {
            group: RAPID_GROUP,
            code: RTLIOF,
        })
    } else if is_word(text, b"SUPA") {
        Some(GWord {
            group: BLOCK_GROUP,
            code: SUPA,
        })
    } else if is_word(text, b"NORM") {
        Some(GWord {
            group: APPROACH_GROUP,
            code: NORM,
        })
    } else if is_word(text, b"KONT") {
        Some(GWord {
            group: APPROACH_GROUP,
            code: KONT,
        })
    } else if is_word(text, b"BRISK") {
        Some(GWord {
            group: ACCELERATION_GROUP,
            code: BRISK,
        })
    } else if is_word(text, b"SOFT") {
        Some(GWord {
            group: ACCELERATION_GROUP,
            code: SOFT,
        })
    } else if is_word(text, b"FFWON") {
        Some(GWord {
            group: FEED_FORWARD_GROUP,
            code: FFWON,
        })
    } else if is_word(text, b"FFWOF") {
        Some(GWord {
            group: FEED_FORWARD_GROUP,
            code: FFWOF,
        })
    } else if is_word(text, b"WALIMON") {
        Some(GWord {
            group: AREA_SWITCH_GROUP,
            code: WALIMON,
        })
    } else if is_word(text, b"WALIMOF") {
        Some(GWord {
            group: AREA_SWITCH_GROUP,
            code: WALIMOF,
        })
    } else if is_word(text, b"DIAMON") {
        Some(GWord {
            group: DIAMETER_GROUP,
            code: DIAMON,
        })
    } else if is_word(text, b"DIAMOF") {
        Some(GWord {
            group: DIAMETER_GROUP,
            code: DIAMOF,
        })
    } else if is_word(text, b"DIAM90") {
        Some(GWord {
            group: DIAMETER_GROUP,
            code: DIAM90,
        })
    } else {
        None
    }
}
