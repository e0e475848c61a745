//! The names that are refused.

ghost use Rattle.std.specs.Prelude.{◌≡◌};
ghost use Rattle.name_tables.specs.RefusedNames.{refused_name};

use crate::spelling::{is_cycle, is_one_of, is_word};

/// The code of a name that is refused, 40 to 57, or none.
#[tactic(auto, unfolding(crate::specs::RefusedNames::refused_name))]
pub fn refused_name(text: &[u8]) -> Option<u16>
    ensures { result ≡ refused_name text.now }
{
    if is_one_of(
        text,
        &[
            b"ID",
            b"IDS",
            b"WHEN",
            b"WHENEVER",
            b"FROM",
            b"EVERY",
            b"DO",
        ],
    ) {
        Some(40)
    } else if is_one_of(text, &[b"MEAS", b"MEAW"]) {
        Some(41)
    } else if is_cycle(text) || is_word(text, b"MCALL") {
        Some(42)
    } else if is_word(text, b"DEF") {
        Some(43)
    } else if is_one_of(
        text,
        &[
            b"SIN", b"COS", b"TAN", b"ASIN", b"ACOS", b"ATAN2", b"LN", b"EXP",
        ],
    ) {
        Some(45)
    } else if is_one_of(
        text,
        &[
            b"AR", b"AP", b"RP", b"CIP", b"CT", b"TURN", b"ASPLINE", b"BSPLINE", b"CSPLINE",
            b"POLY",
        ],
    ) {
        Some(47)
    } else if is_one_of(text, &[b"ANG", b"CHF", b"CHR", b"RND", b"RNDM"]) {
        Some(48)
    } else if is_one_of(
        text,
        &[b"TRANSMIT", b"TRACYL", b"TRAORI", b"TRAANG", b"TRAFOOF"],
    ) {
        Some(50)
    } else if is_one_of(
        text,
        &[
            b"TRAILON", b"TRAILOF", b"LEADON", b"LEADOF", b"COUPDEF", b"COUPON", b"COUPOF",
        ],
    ) {
        Some(51)
    } else if is_one_of(text, &[b"NPROT", b"NPROTDEF", b"CPROTDEF", b"EXECUTE"]) {
        Some(52)
    } else if is_one_of(text, &[b"SETINT", b"CLRINT"]) {
        Some(53)
    } else if is_word(text, b"SAVE") {
        Some(54)
    } else if is_word(text, b"GETD") {
        Some(55)
    } else if is_one_of(
        text,
        &[
            b"GOTOS",
            b"CALL",
            b"PCALL",
            b"EXTCALL",
            b"EXTERN",
            b"ENDLABEL",
        ],
    ) {
        Some(57)
    } else {
        None
    }
}
