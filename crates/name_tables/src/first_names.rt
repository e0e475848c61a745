//! The names that stand in some table.

ghost use Rattle.std.specs.Prelude.{◌≡◌};
ghost use Rattle.name_tables.specs.Tables.{is_control_name, is_frame_name, is_coordination_name, is_message_name, is_first_name, is_inner_name, is_expression_name, is_group_name, is_table_word};

use crate::refused_names::refused_name;
use crate::spelling::is_one_of;

/// Whether a name stands in some table, so that it is no program's name for a call.
#[tactic(auto, unfolding(crate::specs::Tables::is_table_word))]
pub fn is_table_word(text: &[u8]) -> bool
    ensures { result ≡ is_table_word text.now }
{
    is_first_name(text)
        || is_inner_name(text)
        || is_expression_name(text)
        || is_group_name(text)
        || refused_name(text).is_some()
}

/// Whether a name is the first of a form other than the block of words.
#[tactic(auto, unfolding(crate::specs::Tables::is_first_name))]
pub fn is_first_name(text: &[u8]) -> bool
    ensures { result ≡ is_first_name text.now }
{
    is_control_name(text)
        || is_frame_name(text)
        || is_coordination_name(text)
        || is_message_name(text)
}

/// Jumps, branches, loops, the choice, the return and the head of a program.
#[tactic(auto, unfolding(crate::specs::Tables::is_control_name))]
fn is_control_name(text: &[u8]) -> bool
    ensures { result ≡ is_control_name text.now }
{
    is_one_of(
        text,
        &[
            b"GOTOF",
            b"GOTOB",
            b"GOTO",
            b"GOTOC",
            b"IF",
            b"ELSE",
            b"ENDIF",
            b"WHILE",
            b"ENDWHILE",
            b"REPEAT",
            b"UNTIL",
            b"LOOP",
            b"ENDLOOP",
            b"FOR",
            b"ENDFOR",
            b"CASE",
            b"REPEATB",
            b"RET",
            b"PROC",
        ],
    )
}

/// Frames.
#[tactic(auto, unfolding(crate::specs::Tables::is_frame_name))]
fn is_frame_name(text: &[u8]) -> bool
    ensures { result ≡ is_frame_name text.now }
{
    is_one_of(
        text,
        &[
            b"TRANS", b"ATRANS", b"SCALE", b"ASCALE", b"MIRROR", b"AMIRROR", b"ROT", b"AROT",
        ],
    )
}

/// Coordination.
#[tactic(auto, unfolding(crate::specs::Tables::is_coordination_name))]
fn is_coordination_name(text: &[u8]) -> bool
    ensures { result ≡ is_coordination_name text.now }
{
    is_one_of(
        text,
        &[
            b"WAITM", b"WAITMC", b"SETM", b"CLEARM", b"INIT", b"START", b"WAITE", b"RELEASE",
            b"GET", b"CPROT",
        ],
    )
}

/// Messages, and other forms that do nothing.
#[tactic(auto, unfolding(crate::specs::Tables::is_message_name))]
fn is_message_name(text: &[u8]) -> bool
    ensures { result ≡ is_message_name text.now }
{
    is_one_of(text, &[b"MSG", b"STOPRE", b"SETMS", b"WORKPIECE"])
}

/// Names within forms and words.
#[tactic(auto, unfolding(crate::specs::Tables::is_inner_name))]
fn is_inner_name(text: &[u8]) -> bool
    ensures { result ≡ is_inner_name text.now }
{
    is_one_of(
        text,
        &[
            b"TO", b"OF", b"DEFAULT", b"DISPLOF", b"RPL", b"AC", b"IC", b"CR", b"SPOS", b"SPOSA",
            b"LIMS", b"SF",
        ],
    )
}

/// Names of expressions.
#[tactic(auto, unfolding(crate::specs::Tables::is_expression_name))]
fn is_expression_name(text: &[u8]) -> bool
    ensures { result ≡ is_expression_name text.now }
{
    is_one_of(
        text,
        &[
            b"DIV", b"MOD", b"AND", b"OR", b"XOR", b"NOT", b"TRUE", b"FALSE", b"ABS", b"POT",
            b"SQRT", b"TRUNC", b"ROUND",
        ],
    )
}

/// Names of the words of groups.
#[tactic(auto, unfolding(crate::specs::Tables::is_group_name))]
fn is_group_name(text: &[u8]) -> bool
    ensures { result ≡ is_group_name text.now }
{
    is_one_of(
        text,
        &[
            b"RTLION", b"RTLIOF", b"SUPA", b"NORM", b"KONT", b"BRISK", b"SOFT", b"FFWON", b"FFWOF",
            b"WALIMON", b"WALIMOF", b"DIAMON", b"DIAMOF", b"DIAM90",
        ],
    )
}
