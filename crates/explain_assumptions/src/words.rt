//! What the words of a block say.
ghost use Rattle.std.specs.Prelude.{◌≡◌, ◌++◌, map, OnOk};
ghost use Rattle.std.specs.List.{list_any};
ghost use Rattle.block_motions.specs.Arcs.{is_absolute};
ghost use Rattle.nc_blocks.specs.Statement.{statement_view, word_view};
ghost use Rattle.explain_assumptions.specs.Remarks as model;

use crate::remarks::{Remark, RemarkKind};
use g_groups::DIAMETER_GROUP;
use nc_blocks::{Measure, Stmt, Word};
use std::alloc::AllocError;

/// Whether a word says what values of X are.
fn says_diameters(word: &Word) -> bool
    ensures { result ≡ model.says_diameters (word_view word.now) }
{
    match word {
        Word::G(group, _) => *group == DIAMETER_GROUP,
        Word::Assign(_, _)
        | Word::AssignAt(_, _)
        | Word::Axis(_, _, _)
        | Word::Radius(_)
        | Word::Aux(_, _, _)
        | Word::End => false,
    }
}

/// Whether a value is meant as a position by itself.
fn is_absolute(measure: Measure) -> bool
    ensures { result ≡ is_absolute measure }
{
    match measure {
        Measure::Absolute => true,
        Measure::Modal | Measure::Incremental => false,
    }
}

/// Whether a name is that of a position in X, with a value that is meant so.
fn is_x(name: &[u8], absolute: bool) -> bool
    ensures { result ≡ model.is_x name.now absolute }
{
    name == b"X".as_slice() || (name == b"I".as_slice() && absolute)
}

/// Whether a word programs X.
fn programs_x(word: &Word) -> bool
    ensures { result ≡ model.programs_x (word_view word.now) }
{
    match word {
        Word::Axis(name, measure, _) => is_x(name, is_absolute(*measure)),
        Word::Assign(_, _)
        | Word::AssignAt(_, _)
        | Word::G(_, _)
        | Word::Radius(_)
        | Word::Aux(_, _, _)
        | Word::End => false,
    }
}

/// Whether a name begins with a letter.
fn begins_with(name: &[u8], letter: u8) -> bool
    ensures { result ≡ model.begins_with letter name.now }
{
    match name {
        [] => false,
        [first, ..] => *first == letter,
    }
}

/// Whether a word moves nothing and begins with a letter.
fn is_letter_word(word: &Word, letter: u8) -> bool
    ensures { result ≡ model.is_letter_word letter (word_view word.now) }
{
    match word {
        Word::Aux(name, _, _) => begins_with(name, letter),
        Word::Assign(_, _)
        | Word::AssignAt(_, _)
        | Word::G(_, _)
        | Word::Axis(_, _, _)
        | Word::Radius(_)
        | Word::End => false,
    }
}

/// Whether one of these words says what values of X are.
fn say_diameters(words: &[Word]) -> bool
    ensures { result ≡ list_any model.says_diameters (map word_view words.now) }
{
    for word in words {
        if says_diameters(word) {
            return true;
        }
    }
    false
}

/// Whether one of these words programs X.
fn program_x(words: &[Word]) -> bool
    ensures { result ≡ list_any model.programs_x (map word_view words.now) }
{
    for word in words {
        if programs_x(word) {
            return true;
        }
    }
    false
}

/// Whether one of these words moves nothing and begins with a letter.
fn have_letter(words: &[Word], letter: u8) -> bool
    ensures { result ≡ list_any (model.is_letter_word letter) (map word_view words.now) }
{
    for word in words {
        if is_letter_word(word, letter) {
            return true;
        }
    }
    false
}

/// Adds a remark, where it is so.
pub(crate) fn add_if(
    is_so: bool,
    line: u32,
    kind: RemarkKind,
    remarks: &mut Vec<Remark>,
) -> Result<(), AllocError>
    ensures { OnOk result (remarks.new.items ≡ remarks.old.items ++ model.remark_if is_so line kind) }
{
    if is_so {
        remarks.push(Remark { line, kind })?;
    }
    Ok(())
}

/// Adds what words say.
#[tactic(auto, unfolding(crate::specs::Remarks::words_say))]
fn add_words(words: &[Word], line: u32, remarks: &mut Vec<Remark>) -> Result<(), AllocError>
    ensures { OnOk result (remarks.new.items ≡ remarks.old.items ++ model.words_say line (map word_view words.now)) }
{
    add_if(
        say_diameters(words),
        line,
        RemarkKind::SaysDiameters,
        remarks,
    )?;
    add_if(program_x(words), line, RemarkKind::ProgramsX, remarks)?;
    add_if(have_letter(words, b'T'), line, RemarkKind::HasTool, remarks)?;
    add_if(
        have_letter(words, b'D'),
        line,
        RemarkKind::HasToolOffset,
        remarks,
    )?;
    Ok(())
}

/// Adds what a block says by its words.
pub(crate) fn add_statement(
    statement: &Stmt,
    line: u32,
    remarks: &mut Vec<Remark>,
) -> Result<(), AllocError>
    ensures { OnOk result (remarks.new.items ≡ remarks.old.items
        ++ model.statement_says line (statement_view statement.now)) }
{
    match statement {
        Stmt::Words(words) => add_words(words, line, remarks),
        _ => Ok(()),
    }
}
