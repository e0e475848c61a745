//! Which parameters a block reads and sets.
ghost use Rattle.std.specs.Prelude.{◌≡◌, ◌++◌, ◌∷◌, [], All, map, OnOk};
ghost use Rattle.std.specs.List.{flat_map};
ghost use Rattle.block_effects.specs.Words.{values_in};
ghost use Rattle.nc_blocks.specs.Indices.{EntryFits, FitsValues, OperandFits, OptionFits, WordFits};
ghost use Rattle.nc_blocks.specs.Statement.{frame_entry, operand_view, statement_view, tree_option, word_view};
ghost use Rattle.nc_expressions.specs.Tree.{tree_of, IndicesFit};
ghost use Rattle.explain_assumptions.specs.Reads as model;

use crate::remarks::{Remark, RemarkKind};
use block_effects::Parameters;
use micro_units::Num;
use nc_blocks::{Operand, Stmt, Word};
use nc_expressions::{Expr, eval, index_of};
use std::alloc::AllocError;

/// What a block finds.
#[derive(Clone, Copy)]
pub(crate) struct Reader<'a> {
    /// The line of the block.
    pub line: u32,
    /// The parameters before it.
    pub parameters: &'a Parameters,
}

/// Adds that a block on this line reads a parameter.
fn add_read(line: u32, number: u16, remarks: &mut Vec<Remark>) -> Result<(), AllocError>
    ensures { OnOk result (remarks.new.items ≡ remarks.old.items ++ model.read line number ∷ []) }
{
    remarks.push(Remark {
        line,
        kind: RemarkKind::Reads(number),
    })?;
    Ok(())
}

/// Adds that it gives a parameter a value.
fn add_set(line: u32, number: u16, remarks: &mut Vec<Remark>) -> Result<(), AllocError>
    ensures { OnOk result (remarks.new.items ≡ remarks.old.items ++ model.set line number ∷ []) }
{
    remarks.push(Remark {
        line,
        kind: RemarkKind::Sets(number),
    })?;
    Ok(())
}

/// Adds that it reads the parameter of an index, where it is one.
fn add_read_index(
    line: u32,
    index: Option<u16>,
    remarks: &mut Vec<Remark>,
) -> Result<(), AllocError>
    ensures { OnOk result (remarks.new.items ≡ remarks.old.items ++ model.read_index line index) }
{
    match index {
        Some(number) => add_read(line, number, remarks),
        None => Ok(()),
    }
}

/// Adds that it gives the parameter of an index a value, where it is one.
fn add_set_index(line: u32, index: Option<u16>, remarks: &mut Vec<Remark>) -> Result<(), AllocError>
    ensures { OnOk result (remarks.new.items ≡ remarks.old.items ++ model.set_index line index) }
{
    match index {
        Some(number) => add_set(line, number, remarks),
        None => Ok(()),
    }
}

/// Adds that it reads the parameter of the index with this value.
fn add_read_at(
    line: u32,
    value: Result<Num, u16>,
    remarks: &mut Vec<Remark>,
) -> Result<(), AllocError>
    ensures { OnOk result (remarks.new.items ≡ remarks.old.items ++ model.read_at line value) }
{
    match value {
        Ok(value) => add_read_index(line, index_of(value), remarks),
        Err(_) => Ok(()),
    }
}

/// Adds that it gives the parameter of the index with this value a value.
fn add_set_at(
    line: u32,
    value: Result<Num, u16>,
    remarks: &mut Vec<Remark>,
) -> Result<(), AllocError>
    ensures { OnOk result (remarks.new.items ≡ remarks.old.items ++ model.set_at line value) }
{
    match value {
        Ok(value) => add_set_index(line, index_of(value), remarks),
        Err(_) => Ok(()),
    }
}

/// Adds what an expression reads.
fn add_reads(
    expr: &Expr,
    parameters: &Parameters,
    line: u32,
    remarks: &mut Vec<Remark>,
) -> Result<(), AllocError>
    requires { IndicesFit (tree_of expr.now) }
    ensures { OnOk result (remarks.new.items ≡ remarks.old.items
        ++ model.reads (values_in parameters.now) line (tree_of expr.now)) }
{
    match expr {
        Expr::Number(_) => Ok(()),
        Expr::Parameter(number) => add_read(line, *number, remarks),
        Expr::Indexed(index) => {
            add_reads(index, parameters, line, remarks)?;
            add_read_at(line, eval(index, parameters), remarks)
        }
        Expr::Unary(_, operand) => add_reads(operand, parameters, line, remarks),
        Expr::Binary(_, left, right) => {
            add_reads(left, parameters, line, remarks)?;
            add_reads(right, parameters, line, remarks)
        }
    }
}

/// Adds what an expression reads that may be missing.
fn add_option(
    expr: &Option<Expr>,
    parameters: &Parameters,
    line: u32,
    remarks: &mut Vec<Remark>,
) -> Result<(), AllocError>
    requires { OptionFits (tree_option expr.now) }
    ensures { OnOk result (remarks.new.items ≡ remarks.old.items
        ++ model.option_reads (values_in parameters.now) line (tree_option expr.now)) }
{
    match expr {
        Some(expr) => add_reads(expr, parameters, line, remarks),
        None => Ok(()),
    }
}

/// Adds what an argument reads.
fn add_operand(
    operand: &Operand,
    parameters: &Parameters,
    line: u32,
    remarks: &mut Vec<Remark>,
) -> Result<(), AllocError>
    requires { OperandFits (operand_view operand.now) }
    ensures { OnOk result (remarks.new.items ≡ remarks.old.items
        ++ model.operand_reads (values_in parameters.now) line (operand_view operand.now)) }
{
    match operand {
        Operand::Value(expr) => add_reads(expr, parameters, line, remarks),
        Operand::Text(_) | Operand::Axis(_) => Ok(()),
    }
}

/// Adds what a word reads and sets.
fn add_word(
    word: &Word,
    parameters: &Parameters,
    line: u32,
    remarks: &mut Vec<Remark>,
) -> Result<(), AllocError>
    requires { WordFits (word_view word.now) }
    ensures { OnOk result (remarks.new.items ≡ remarks.old.items
        ++ model.word_reads (values_in parameters.now) line (word_view word.now)) }
{
    match word {
        Word::Assign(number, value) => {
            add_reads(value, parameters, line, remarks)?;
            add_set(line, *number, remarks)
        }
        Word::AssignAt(index, value) => {
            add_reads(index, parameters, line, remarks)?;
            add_reads(value, parameters, line, remarks)?;
            add_set_at(line, eval(index, parameters), remarks)
        }
        Word::Axis(_, _, value) => add_reads(value, parameters, line, remarks),
        Word::Radius(value) => add_reads(value, parameters, line, remarks),
        Word::Aux(_, index, value) => {
            add_option(index, parameters, line, remarks)?;
            add_operand(value, parameters, line, remarks)
        }
        Word::G(_, _) | Word::End => Ok(()),
    }
}

/// Adds what words read and set, one after another.
fn add_words(
    words: &[Word],
    parameters: &Parameters,
    line: u32,
    remarks: &mut Vec<Remark>,
) -> Result<(), AllocError>
    requires { All WordFits (map word_view words.now) }
    ensures { OnOk result (remarks.new.items ≡ remarks.old.items
        ++ flat_map (model.word_reads (values_in parameters.now) line) (map word_view words.now)) }
{
    for word in words {
        add_word(word, parameters, line, remarks)?;
    }
    Ok(())
}

/// Adds what arguments read.
fn add_operands(
    operands: &[Operand],
    parameters: &Parameters,
    line: u32,
    remarks: &mut Vec<Remark>,
) -> Result<(), AllocError>
    requires { All OperandFits (map operand_view operands.now) }
    ensures { OnOk result (remarks.new.items ≡ remarks.old.items
        ++ flat_map (model.operand_reads (values_in parameters.now) line) (map operand_view operands.now)) }
{
    for operand in operands {
        add_operand(operand, parameters, line, remarks)?;
    }
    Ok(())
}

/// Adds what the words of a frame read.
fn add_entries(
    entries: &[(u8, Expr)],
    parameters: &Parameters,
    line: u32,
    remarks: &mut Vec<Remark>,
) -> Result<(), AllocError>
    requires { All EntryFits (map frame_entry entries.now) }
    ensures { OnOk result (remarks.new.items ≡ remarks.old.items
        ++ flat_map (model.entry_reads (values_in parameters.now) line) (map frame_entry entries.now)) }
{
    for entry in entries {
        add_reads(&entry.1, parameters, line, remarks)?;
    }
    Ok(())
}

/// Adds what ENDFOR reads, where this block begins the structure round it.
fn add_end(
    opener: &Stmt,
    parameters: &Parameters,
    line: u32,
    remarks: &mut Vec<Remark>,
) -> Result<(), AllocError>
    requires { FitsValues (values_in parameters.now) (statement_view opener.now) }
    ensures { OnOk result (remarks.new.items ≡ remarks.old.items
        ++ model.end_reads (values_in parameters.now) line (statement_view opener.now)) }
{
    match opener {
        Stmt::For(number, _, bound) => {
            add_read(line, *number, remarks)?;
            add_reads(bound, parameters, line, remarks)
        }
        _ => Ok(()),
    }
}

/// Adds what FOR reads and sets.
fn add_for(
    number: u16,
    first: &Expr,
    bound: &Expr,
    reader: &Reader,
    remarks: &mut Vec<Remark>,
) -> Result<(), AllocError>
    requires first { IndicesFit (tree_of first.now) }
    requires bound { IndicesFit (tree_of bound.now) }
    ensures { OnOk result (remarks.new.items ≡ remarks.old.items
        ++ model.for_reads (values_in reader.now.parameters.now) reader.now.line number
        (tree_of first.now) (tree_of bound.now)) }
{
    add_reads(first, reader.parameters, reader.line, remarks)?;
    add_set(reader.line, number, remarks)?;
    add_reads(bound, reader.parameters, reader.line, remarks)
}

/// Adds which parameters a block reads and which it gives values, from left to right. `opener` is the block that begins the
/// structure round it.
#[tactic(auto, unfolding(crate::specs::Reads::block_reads))]
pub(crate) fn add_block(
    opener: &Stmt,
    statement: &Stmt,
    reader: &Reader,
    remarks: &mut Vec<Remark>,
) -> Result<(), AllocError>
    requires opener { FitsValues (values_in reader.now.parameters.now) (statement_view opener.now) }
    requires fits { FitsValues (values_in reader.now.parameters.now) (statement_view statement.now) }
    ensures { OnOk result (remarks.new.items ≡ remarks.old.items
        ++ model.block_reads (values_in reader.now.parameters.now) reader.now.line
        (statement_view opener.now) (statement_view statement.now)) }
{
    let parameters = reader.parameters;
    let line = reader.line;
    match statement {
        Stmt::Words(words) => add_words(words, parameters, line, remarks),
        Stmt::IfJump(value, _) => add_reads(value, parameters, line, remarks),
        Stmt::If(value) => add_reads(value, parameters, line, remarks),
        Stmt::While(value) => add_reads(value, parameters, line, remarks),
        Stmt::Until(value) => add_reads(value, parameters, line, remarks),
        Stmt::For(number, first, bound) => add_for(*number, first, bound, reader, remarks),
        Stmt::EndFor => add_end(opener, parameters, line, remarks),
        Stmt::Case(value, _, _) => add_reads(value, parameters, line, remarks),
        Stmt::RepeatFrom(_, times) => add_option(times, parameters, line, remarks),
        Stmt::RepeatBlock(_, times) => add_option(times, parameters, line, remarks),
        Stmt::Shape(_, entries) => add_entries(entries, parameters, line, remarks),
        Stmt::Turn(_, angle) => add_option(angle, parameters, line, remarks),
        Stmt::Coord(_, operands) => add_operands(operands, parameters, line, remarks),
        Stmt::Empty
        | Stmt::Jump(_)
        | Stmt::Else
        | Stmt::EndIf
        | Stmt::EndWhile
        | Stmt::Repeat
        | Stmt::Loop
        | Stmt::EndLoop
        | Stmt::Call(_, _)
        | Stmt::Return
        | Stmt::Proc(_)
        | Stmt::Message => Ok(()),
    }
}
