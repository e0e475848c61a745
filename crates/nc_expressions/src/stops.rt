//! Where the reading of an expression stops.

ghost use Rattle.std.specs.Prelude.{◌≡◌, ◌≤◌, length, IfOk};
ghost use Rattle.block_scanner.specs.Scanned.{IsScanned};
ghost use Rattle.nc_expressions.specs.Stops.{stop_at};
ghost use Rattle.nc_expressions.specs.Symbols.{symbols_of};

use crate::faults::SyntaxFault;
use crate::levels::Level;
use crate::steps::{Mode, Step, take_symbol};
use crate::symbols::symbol_at;
use block_scanner::Words;
use std::alloc::{AllocError, Global};

/// The place of the first token at which the expression that begins at `start` ends or is refused.
#[tactic(auto, using(crate::proofs::Stopped::stops))]
pub fn expr_stop(alloc: Global, words: &Words<'_>, start: usize) -> Result<usize, AllocError>
    requires scanned { IsScanned words.now }
    requires within { start ≤ length words.now.tokens }
    ensures value { IfOk result (λ at. at ≡ stop_at (symbols_of words.now) start) }
    ensures within { IfOk result (λ at. at ≤ length words.now.tokens) }
{
    let mut pending = Vec::new(alloc);
    let mut mode = Mode::Wants;
    let mut level = Level::Plain;
    let mut at = start;
    while at < words.tokens.len() {
        match take_symbol(alloc, &mut pending, mode, level, symbol_at(words, at)) {
            Ok(Step::On(next, inside)) => {
                mode = next;
                level = inside;
            }
            Ok(Step::Ends(_)) | Err(SyntaxFault::Refused(_)) => return Ok(at),
            Err(SyntaxFault::NoMemory) => return Err(AllocError),
        }
        at += 1;
    }
    Ok(at)
}
