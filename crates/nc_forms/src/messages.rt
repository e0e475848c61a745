//! Messages.

ghost use Rattle.nc_blocks.specs.Indices.{StatementIndicesFit};
ghost use Rattle.std.specs.Prelude.{◌≡◌, ◌<◌, ◌≤◌, ◌+◌, ◌-◌, length, reverse, position, IfOk, IfSome};
ghost use Rattle.block_scanner.specs.Scanned.{IsScanned};
ghost use Rattle.nc_forms.specs.Coordination.{after_text, msg_form, enclosed_at, setms_form, last_close, is_broken, has_broken, workpiece_form};
ghost use Rattle.nc_forms.specs.Parentheses.{is_close_kind};
ghost use Rattle.nc_blocks.specs.Reading.{Gives};
ghost use Rattle.nc_blocks.specs.Statement.{statement_view, itself};

use crate::line_ends::alone;
use block_scanner::{Kind, Sign, Words};
use nc_blocks::{Piece, Stmt, close_at, expression_at, open_at, piece_at};
use nc_expressions::SyntaxFault;
use std::alloc::Global;

/// The place after the text of a message, if it has one.
fn after_text(words: &Words<'_>, at: usize) -> usize
    requires scanned { IsScanned words.now }
    requires within { at ≤ length words.now.tokens }
    ensures { result ≡ after_text words.now at }
{
    match piece_at(words, at) {
        Piece::Text => at + 1,
        _ => at,
    }
}

/// MSG, after its name.
#[tactic(auto, unfolding(crate::specs::Coordination::msg_form))]
pub fn msg_form(words: &Words<'_>, at: usize) -> Result<Stmt, SyntaxFault>
    requires { IsScanned words.now }
    ensures exact { Gives statement_view (msg_form words.now at) result }
    ensures indices { IfOk result (λ s. StatementIndicesFit (statement_view s)) }
{
    match open_at(words, at, 22) {
        Ok(first) => match close_at(words, after_text(words, first), 22) {
            Ok(end) => alone(words, end, Stmt::Message),
            Err(code) => Err(SyntaxFault::Refused(code)),
        },
        Err(code) => Err(SyntaxFault::Refused(code)),
    }
}

/// An expression in parentheses: the place after.
#[tactic(auto, using(nc_blocks::proofs::Passing::passing), unfolding(crate::specs::Coordination::enclosed_at))]
fn enclosed_at(alloc: Global, words: &Words<'_>, at: usize) -> Result<usize, SyntaxFault>
    requires { IsScanned words.now }
    ensures { Gives itself (enclosed_at words.now at) result }
{
    match open_at(words, at, 22) {
        Ok(first) => {
            let (_, end) = expression_at(alloc, words, first)?;
            match close_at(words, end, 22) {
                Ok(following) => Ok(following),
                Err(code) => Err(SyntaxFault::Refused(code)),
            }
        }
        Err(code) => Err(SyntaxFault::Refused(code)),
    }
}

/// SETMS, after its name.
#[tactic(auto, using(nc_blocks::proofs::Passing::passing), unfolding(crate::specs::Coordination::setms_form))]
pub fn setms_form(alloc: Global, words: &Words<'_>, at: usize) -> Result<Stmt, SyntaxFault>
    requires { IsScanned words.now }
    ensures exact { Gives statement_view (setms_form words.now at) result }
    ensures indices { IfOk result (λ s. StatementIndicesFit (statement_view s)) }
{
    match piece_at(words, at) {
        Piece::Open => {
            let end = enclosed_at(alloc, words, at)?;
            alone(words, end, Stmt::Message)
        }
        _ => alone(words, at, Stmt::Message),
    }
}

/// How many tokens stand after the last `)` of a line.
fn following_close(words: &Words<'_>) -> Option<usize>
    ensures value { result ≡ position (λ token. is_close_kind token.kind) (reverse words.now.tokens) }
    ensures within { IfSome result (λ back. back < length words.now.tokens) }
{
    words.tokens.iter().rev().position(|token| matches!(
        token.kind,
        Kind::Sign(Sign::CloseParenthesis)
    ))
}

/// The place after the last `)` of a line.
#[tactic(auto, unfolding(crate::specs::Coordination::last_close))]
fn last_close(words: &Words<'_>) -> Result<usize, u16>
    ensures value { result ≡ last_close words.now.tokens }
    ensures within { IfOk result (λ p. p ≤ length words.now.tokens) }
{
    match following_close(words) {
        Some(back) => Ok(words.tokens.len() - back),
        None => Err(22),
    }
}

/// Whether a piece fits no form.
fn is_broken(piece: Piece) -> bool
    ensures { result ≡ is_broken piece }
{
    matches!(piece, Piece::Broken)
}

/// Whether something that fits no form stands at a place from the first up to the second.
#[tactic(auto, unfolding(crate::specs::Coordination::has_broken))]
fn has_broken(words: &Words<'_>, start: usize, end: usize) -> bool
    requires scanned { IsScanned words.now }
    requires within { end ≤ length words.now.tokens }
    ensures { result ≡ has_broken words.now start (end - start) }
{
    let mut at = start;
    while at < end {
        if is_broken(piece_at(words, at)) {
            return true;
        }
        at += 1;
    }
    false
}

/// WORKPIECE, after its name: what stands in its parentheses means nothing.
#[tactic(auto, unfolding(crate::specs::Coordination::workpiece_form))]
pub fn workpiece_form(words: &Words<'_>, at: usize) -> Result<Stmt, SyntaxFault>
    requires { IsScanned words.now }
    ensures exact { Gives statement_view (workpiece_form words.now at) result }
    ensures indices { IfOk result (λ s. StatementIndicesFit (statement_view s)) }
{
    match open_at(words, at, 22) {
        Ok(first) => match last_close(words) {
            Ok(end) => {
                if has_broken(words, first, end) {
                    Err(SyntaxFault::Refused(22))
                } else {
                    alone(words, end, Stmt::Message)
                }
            }
            Err(code) => Err(SyntaxFault::Refused(code)),
        },
        Err(code) => Err(SyntaxFault::Refused(code)),
    }
}
