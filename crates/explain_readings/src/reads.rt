//! Which parameters a block reads.
ghost use Rattle.std.specs.Prelude.{◌≡◌, ◌≤◌, All, map};
ghost use Rattle.std.specs.List.{list_any};
ghost use Rattle.nc_blocks.specs.Indices.{EntryFits, FitsValues, OperandFits, OptionFits, WordFits};
ghost use Rattle.nc_blocks.specs.Statement.{frame_entry, operand_view, statement_view, tree_option, word_view};
ghost use Rattle.nc_expressions.specs.Symbols as symbols;
ghost use Rattle.nc_expressions.specs.Tree.{tree_of, IndicesFit};
ghost use Rattle.explain_readings.specs.Reads as model;

use micro_units::Num;
use nc_blocks::{Operand, Stmt, Word};
use nc_expressions::{Expr, Names, eval, index_of};

/// Whether this is the parameter of a number.
fn is_number(index: Option<u16>, number: u16) -> bool
    ensures { result ≡ model.is_number number index }
{
    match index {
        Some(index) => index == number,
        None => false,
    }
}

/// Whether the value of an index is the number of a parameter.
fn is_at(index: Result<Num, u16>, number: u16) -> bool
    ensures { result ≡ model.is_at number index }
{
    match index {
        Ok(value) => is_number(index_of(value), number),
        Err(_) => false,
    }
}

/// Whether an expression reads a parameter.
fn reads<N: Names>(expr: &Expr, names: &N, number: u16) -> bool
    requires { IndicesFit (tree_of expr.now) }
    ensures { result ≡ model.reads (N.values names.now) number (tree_of expr.now) }
{
    match expr {
        Expr::Number(_) => false,
        Expr::Parameter(index) => *index == number,
        Expr::Indexed(index) => reads(index, names, number) || is_at(eval(index, names), number),
        Expr::Unary(_, operand) => reads(operand, names, number),
        Expr::Binary(_, left, right) => {
            reads(left, names, number) || reads(right, names, number)
        }
    }
}

/// Whether an expression that may be missing reads a parameter.
fn option_reads<N: Names>(expr: &Option<Expr>, names: &N, number: u16) -> bool
    requires { OptionFits (tree_option expr.now) }
    ensures { result ≡ model.option_reads (N.values names.now) number (tree_option expr.now) }
{
    match expr {
        Some(expr) => reads(expr, names, number),
        None => false,
    }
}

/// Whether an argument reads a parameter.
fn operand_reads<N: Names>(operand: &Operand, names: &N, number: u16) -> bool
    requires { OperandFits (operand_view operand.now) }
    ensures { result ≡ model.operand_reads (N.values names.now) number (operand_view operand.now) }
{
    match operand {
        Operand::Value(expr) => reads(expr, names, number),
        Operand::Text(_) | Operand::Axis(_) => false,
    }
}

/// Whether a word reads a parameter.
fn word_reads<N: Names>(word: &Word, names: &N, number: u16) -> bool
    requires { WordFits (word_view word.now) }
    ensures { result ≡ model.word_reads (N.values names.now) number (word_view word.now) }
{
    match word {
        Word::Assign(_, value) => reads(value, names, number),
        Word::AssignAt(index, value) => {
            reads(index, names, number) || reads(value, names, number)
        }
        Word::Axis(_, _, value) => reads(value, names, number),
        Word::Radius(value) => reads(value, names, number),
        Word::Aux(_, index, value) => {
            option_reads(index, names, number) || operand_reads(value, names, number)
        }
        Word::G(_, _) | Word::End => false,
    }
}

/// Whether any of these words reads a parameter.
fn words_read<N: Names>(words: &[Word], names: &N, number: u16) -> bool
    requires { All WordFits (map word_view words.now) }
    ensures { result ≡ list_any (model.word_reads (N.values names.now) number) (map word_view words.now) }
{
    for word in words {
        if word_reads(word, names, number) {
            return true;
        }
    }
    false
}

/// Whether any of these arguments reads a parameter.
fn operands_read<N: Names>(operands: &[Operand], names: &N, number: u16) -> bool
    requires { All OperandFits (map operand_view operands.now) }
    ensures { result ≡ list_any (model.operand_reads (N.values names.now) number) (map operand_view operands.now) }
{
    for operand in operands {
        if operand_reads(operand, names, number) {
            return true;
        }
    }
    false
}

/// Whether any of these words of a frame reads a parameter.
fn entries_read<N: Names>(entries: &[(u8, Expr)], names: &N, number: u16) -> bool
    requires { All EntryFits (map frame_entry entries.now) }
    ensures { result ≡ list_any (model.entry_reads (N.values names.now) number) (map frame_entry entries.now) }
{
    for entry in entries {
        if reads(&entry.1, names, number) {
            return true;
        }
    }
    false
}

/// Whether ENDFOR reads a parameter, where this block begins the structure round it.
fn end_reads<N: Names>(opener: &Stmt, names: &N, number: u16) -> bool
    requires { FitsValues (N.values names.now) (statement_view opener.now) }
    ensures { result ≡ model.end_reads (N.values names.now) number (statement_view opener.now) }
{
    match opener {
        Stmt::For(index, _, bound) => *index == number || reads(bound, names, number),
        _ => false,
    }
}

/// Whether a block reads the parameter of this number: an expression of the block names it, or has an index with its number as
/// its value. ENDFOR reads the parameter and the bound of the FOR that begins the structure round it, which is `opener`. Of a
/// parameter that gets a value only the index in brackets is read.
#[tactic(auto, unfolding(crate::specs::Reads::block_reads))]
pub fn block_reads<N: Names>(opener: &Stmt, statement: &Stmt, names: &N, number: u16) -> bool
    requires opener { FitsValues (N.values names.now) (statement_view opener.now) }
    requires fits { FitsValues (N.values names.now) (statement_view statement.now) }
    ensures { result ≡ model.block_reads (N.values names.now) (statement_view opener.now)
        (statement_view statement.now) number }
{
    match statement {
        Stmt::Words(words) => words_read(words, names, number),
        Stmt::IfJump(condition, _) => reads(condition, names, number),
        Stmt::If(condition) => reads(condition, names, number),
        Stmt::While(condition) => reads(condition, names, number),
        Stmt::Until(condition) => reads(condition, names, number),
        Stmt::For(_, first, bound) => { reads(first, names, number) || reads(bound, names, number) }
        Stmt::EndFor => end_reads(opener, names, number),
        Stmt::Case(value, _, _) => reads(value, names, number),
        Stmt::RepeatFrom(_, times) => option_reads(times, names, number),
        Stmt::RepeatBlock(_, times) => option_reads(times, names, number),
        Stmt::Shape(_, entries) => entries_read(entries, names, number),
        Stmt::Turn(_, angle) => option_reads(angle, names, number),
        Stmt::Coord(_, operands) => operands_read(operands, names, number),
        Stmt::Empty
        | Stmt::Jump(_)
        | Stmt::Else
        | Stmt::EndIf
        | Stmt::EndWhile
        | Stmt::Repeat
        | Stmt::Loop
        | Stmt::EndLoop
        | Stmt::Call(_, _)
        | Stmt::Return
        | Stmt::Proc(_)
        | Stmt::Message => false,
    }
}
