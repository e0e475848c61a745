//! A statement after which nothing stands.

ghost use Rattle.std.specs.Prelude.{IfOk};
ghost use Rattle.block_scanner.specs.Scanned.{IsScanned};
ghost use Rattle.nc_blocks.specs.Indices.{StatementIndicesFit};
ghost use Rattle.nc_blocks.specs.Reading.{Gives};
ghost use Rattle.nc_blocks.specs.Statement.{statement_view};
ghost use Rattle.nc_forms.specs.LineEnds.{statement_alone};

use block_scanner::Words;
use nc_blocks::{Stmt, end_at};
use nc_expressions::SyntaxFault;

/// This statement, where nothing stands after it.
#[tactic(auto, unfolding(crate::specs::LineEnds::statement_alone))]
pub fn alone(words: &Words<'_>, at: usize, stmt: Stmt) -> Result<Stmt, SyntaxFault>
    requires scanned { IsScanned words.now }
    requires fits { StatementIndicesFit (statement_view stmt) }
    ensures exact { Gives statement_view (statement_alone words.now at (statement_view stmt)) result }
    ensures indices { IfOk result (λ s. StatementIndicesFit (statement_view s)) }
{
    match end_at(words, at) {
        Ok(_) => Ok(stmt),
        Err(code) => Err(SyntaxFault::Refused(code)),
    }
}
