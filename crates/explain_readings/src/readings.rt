//! The parameters that a block reads, with their values.
ghost use Rattle.std.specs.Prelude.{◌≡◌, ◌≤◌, ◌<◌, IfOk};
ghost use Rattle.nc_blocks.specs.Indices.{FitsValues};
ghost use Rattle.nc_blocks.specs.Statement.{statement_view};
ghost use Rattle.nc_expressions.specs.declared.limits.TheConstants.{PARAMETER_LIMIT};
ghost use Rattle.explain_readings.specs.Readings as model;

use crate::reads::block_reads;
use micro_units::Num;
use nc_blocks::Stmt;
use nc_expressions::{Names, PARAMETER_LIMIT};
use out_of_memory::NoMemory;
use std::alloc::Global;

/// A parameter that a block reads.
#[derive(Clone, Copy)]
pub struct Reading {
    /// Its number, 0 to 999.
    pub number: u16,
    /// Its value.
    pub value: Num,
}

/// A parameter, where the block reads it.
#[tactic(auto, unfolding(crate::specs::Readings::reading_of))]
fn reading_of<N: Names>(opener: &Stmt, statement: &Stmt, names: &N, number: u16) -> Option<Reading>
    requires opener { FitsValues (N.values names.now) (statement_view opener.now) }
    requires fits { FitsValues (N.values names.now) (statement_view statement.now) }
    requires number { number < PARAMETER_LIMIT }
    ensures { result ≡ model.reading_of (N.values names.now) (statement_view opener.now)
        (statement_view statement.now) number }
{
    if block_reads(opener, statement, names, number) {
        let value = names.parameter(number);
        Some(Reading { number, value })
    } else {
        None
    }
}

/// Of the parameters with lower numbers than this those that the block reads, in the order of their numbers.
fn readings_below<N: Names>(
    alloc: Global,
    opener: &Stmt,
    statement: &Stmt,
    names: &N,
    limit: u16,
) -> Result<Vec<Reading>, NoMemory>
    requires opener { FitsValues (N.values names.now) (statement_view opener.now) }
    requires fits { FitsValues (N.values names.now) (statement_view statement.now) }
    requires limit { limit ≤ PARAMETER_LIMIT }
    ensures { IfOk result (λ list. list.items ≡ model.readings_below (N.values names.now) (statement_view opener.now)
        (statement_view statement.now) limit) }
{
    let mut list = Vec::new(alloc);
    for number in 0..limit {
        if let Some(reading) = reading_of(opener, statement, names, number) {
            list.push(reading)?;
        }
    }
    Ok(list)
}

/// The parameters that a block reads with their values, in the order of their numbers, each once. `opener` is the block that
/// begins the structure round it. The only error is want of memory.
#[tactic(auto, unfolding(crate::specs::Readings::readings_of))]
pub fn readings_in<N: Names>(
    alloc: Global,
    opener: &Stmt,
    statement: &Stmt,
    names: &N,
) -> Result<Vec<Reading>, NoMemory>
    requires opener { FitsValues (N.values names.now) (statement_view opener.now) }
    requires fits { FitsValues (N.values names.now) (statement_view statement.now) }
    ensures { IfOk result (λ list. list.items ≡ model.readings_of (N.values names.now) (statement_view opener.now)
        (statement_view statement.now)) }
{
    readings_below(alloc, opener, statement, names, PARAMETER_LIMIT)
}
