//! The first remark about each number.
ghost use Rattle.std.specs.Prelude.{◌≡◌, ℕ, [], Option, find, slice_index_or, unwrap_or, IfOk, None};
ghost use Rattle.explain_assumptions.specs.Firsts as model;

use crate::remarks::Remark;
use out_of_memory::NoMemory;
use std::alloc::{AllocError, Global};

/// How many numbers there are of parameters and of words.
pub(crate) const NUMBERS: usize = 65_536;

/// The first remark about X.
pub(crate) fn first_of_x(remarks: &[Remark]) -> Option<Remark>
    ensures { result ≡ find model.is_of_x remarks.now }
{
    for remark in remarks {
        if remark.is_of_x() {
            return Some(*remark);
        }
    }
    None
}

/// The first of two remarks, of which the earlier may be missing.
fn earlier(before: Option<Remark>, remark: Remark) -> Remark
    ensures { result ≡ unwrap_or before remark }
{
    match before {
        Some(before) => before,
        None => remark,
    }
}

/// Puts a remark in its place, where it is the first about its number.
fn put_first(table: &mut Vec<Option<Remark>>, number: Option<u16>, remark: Remark)
    ensures { table.new.items ≡ model.with_first table.old.items number remark }
{
    if let Some(number) = number {
        let place = usize::from(number);
        if place < table.len() {
            table[place] = Some(earlier(table[place], remark));
        }
    }
}

/// No remark about any number.
fn no_firsts(alloc: Global) -> Result<Vec<Option<Remark>>, AllocError>
    ensures { IfOk result (λ table. (key : Remark → Option ℕ) → model.AreFirsts key [] table.items) }
{
    let table = vec![in alloc; None; NUMBERS]?;
    Ok(table)
}

/// The first remark about each parameter.
pub(crate) fn parameter_firsts(
    alloc: Global,
    remarks: &[Remark],
) -> Result<Vec<Option<Remark>>, NoMemory>
    ensures { IfOk result (λ table. model.AreFirsts model.parameter_of remarks.now table.items) }
{
    let mut table = no_firsts(alloc)?;
    for remark in remarks {
        put_first(&mut table, remark.parameter(), *remark);
    }
    Ok(table)
}

/// The first remark about each word under which axes move.
pub(crate) fn word_firsts(
    alloc: Global,
    remarks: &[Remark],
) -> Result<Vec<Option<Remark>>, NoMemory>
    ensures { IfOk result (λ table. model.AreFirsts model.word_of remarks.now table.items) }
{
    let mut table = no_firsts(alloc)?;
    for remark in remarks {
        put_first(&mut table, remark.word(), *remark);
    }
    Ok(table)
}

/// What stands in the place of a number.
pub(crate) fn first_at(table: &[Option<Remark>], number: u16) -> Option<Remark>
    ensures { result ≡ slice_index_or table.now number None }
{
    match table.get(usize::from(number)) {
        Some(first) => *first,
        None => None,
    }
}
