//! The tokens of a line.

ghost use Rattle.std.specs.Prelude.{◌≤◌, length, IfOk};
ghost use Rattle.block_scanner.specs.Scanned.{IsScanned};
ghost use Rattle.block_scanner.specs.Tokenisation.{Answers, AreFormed};
ghost use Rattle.block_scanner.specs.Tokens.{Scans};
ghost use Rattle.block_scanner.specs.declared.limits.TheConstants.{LINE_LIMIT};

use crate::beginnings::{Front, front_of};
use crate::{ScanFault, Token, Words};
use smallvec::SmallVec;
use std::alloc::Global;

/// The tokens of a line of at most `LINE_LIMIT` bytes.
///
/// `BadByte` and `OpenText` have the leftmost place from which the line can't be read on: what
/// stands within a text or a comment does not count. `NoMemory` comes where memory runs out, and
/// says nothing of the line.
pub fn scan(alloc: Global, line: &[u8]) -> Result<Words<'_>, ScanFault>
    requires { length line.now ≤ LINE_LIMIT }
    ensures exact { Scans line.now result }
    ensures said { Answers line.now result }
    ensures formed { IfOk result (λ words. AreFormed line.now words.tokens) }
    ensures scanned { IfOk result (λ words. IsScanned words) }
{
    scan_from_left(alloc, line)
}

#[tactic(auto, using(crate::proofs::Steps::scan_steps))]
fn scan_from_left(alloc: Global, line: &[u8]) -> Result<Words<'_>, ScanFault>
    requires { length line.now ≤ LINE_LIMIT }
    ensures exact { Scans line.now result }
    ensures scanned { IfOk result (λ words. IsScanned words) }
{
    let mut tokens = SmallVec::new(alloc);
    let mut rest = line;
    let mut at: usize = 0;
    while let Some((first, following)) = rest.split_first() {
        match front_of(*first, following) {
            Front::Blank => {
                at += 1;
                rest = following;
            }
            Front::Comment => return Ok(Words { line, tokens }),
            Front::Stands(kind, more) => {
                let end = at + 1 + more;
                tokens.push(Token {
                    kind,
                    start: at as u16,
                    end: end as u16,
                })?;
                at = end;
                rest = &following[more..];
            }
            Front::Forbidden => return Err(ScanFault::BadByte(at as u16)),
            Front::Unclosed => return Err(ScanFault::OpenText(at as u16)),
        }
    }
    Ok(Words { line, tokens })
}
