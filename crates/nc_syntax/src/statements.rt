//! The block of a line.

ghost use Rattle.std.specs.Prelude.{◌≡◌, ◌<◌, ◌≤◌, ◌+◌, length, IfOk, IfErr, Ok};
ghost use Rattle.std.specs.Bool.{OnTrue};
ghost use Rattle.block_scanner.specs.Scanned.{IsScanned};
ghost use Rattle.nc_syntax.specs.Spelled.{Spells, IsAccepted};
ghost use Rattle.nc_syntax.specs.Places.{BreaksOff};
ghost use Rattle.nc_syntax.specs.Blocks.{skip_of, has_number, number_at, label_at, head_of, block_of, statement_of};
ghost use Rattle.nc_blocks.specs.Indices.{StatementIndicesFit};
ghost use Rattle.nc_blocks.specs.Reading.{Gives};
ghost use Rattle.nc_blocks.specs.Refusals.{IsListed};
ghost use Rattle.nc_blocks.specs.Statement.{BlockView, statement_view, view_of};

use crate::bodies::body_at;
use block_scanner::Words;
use nc_blocks::{Block, NameText, Piece, block_number_at, piece_at, text_at};
use nc_expressions::SyntaxFault;
use std::alloc::Global;
use word_tables::{has_large_number, refused_word};

/// Whether `/` begins the line, and the place after it.
#[tactic(auto, unfolding(crate::specs::Blocks::skip_of))]
fn skip_of(words: &Words<'_>) -> Result<(bool, usize), u16>
    requires { IsScanned words.now }
    ensures value { result ≡ skip_of words.now }
    ensures within { IfOk result (λ p. p.1 ≤ length words.now.tokens) }
{
    match piece_at(words, 0) {
        Piece::Slash => match piece_at(words, 1) {
            Piece::Number(_) => Err(59),
            _ => Ok((true, 1)),
        },
        _ => Ok((false, 0)),
    }
}

/// Whether N and a number stand at a place.
#[tactic(auto, unfolding(crate::specs::Blocks::has_number))]
fn has_number(words: &Words<'_>, at: usize) -> bool
    requires { IsScanned words.now }
    ensures value { result ≡ has_number words.now at }
    ensures within { OnTrue result (at + 1 < length words.now.tokens) }
{
    match piece_at(words, at) {
        Piece::Letter(b'N') => matches!(piece_at(words, at + 1), Piece::Number(_)),
        _ => false,
    }
}

/// The number of the block, if it stands at a place, and the place after it.
#[tactic(auto, unfolding(crate::specs::Blocks::number_at))]
fn number_at(words: &Words<'_>, at: usize) -> Result<(Option<u32>, usize), u16>
    requires scanned { IsScanned words.now }
    requires within { at ≤ length words.now.tokens }
    ensures value { result ≡ number_at words.now at }
    ensures within { IfOk result (λ p. p.1 ≤ length words.now.tokens) }
{
    if has_number(words, at) {
        let number = block_number_at(words, at + 1)?;
        Ok((Some(number), at + 2))
    } else {
        Ok((None, at))
    }
}

/// The label of the block, if it stands at a place, and the place after it.
#[tactic(auto, unfolding(crate::specs::Blocks::label_at))]
fn label_at(words: &Words<'_>, at: usize) -> (Option<NameText>, usize)
    requires scanned { IsScanned words.now }
    requires within { at ≤ length words.now.tokens }
    ensures value { result ≡ label_at words.now at }
    ensures within { result.1 ≤ length words.now.tokens }
{
    match piece_at(words, at) {
        Piece::Name => match piece_at(words, at + 1) {
            Piece::Colon => (Some(NameText::of_word(text_at(words, at))), at + 2),
            _ => (None, at),
        },
        _ => (None, at),
    }
}

/// Whether `/` begins the line and the number of the block, and the place after them.
#[tactic(auto, unfolding(crate::specs::Blocks::head_of))]
fn head_of(words: &Words<'_>) -> Result<(bool, Option<u32>, usize), u16>
    requires { IsScanned words.now }
    ensures value { result ≡ head_of words.now }
    ensures within { IfOk result (λ p. p.2 ≤ length words.now.tokens) }
{
    let (skip, place) = skip_of(words)?;
    let (number, end) = number_at(words, place)?;
    Ok((skip, number, end))
}

/// The block that the tokens of a line spell.
#[tactic(auto, using(nc_blocks::proofs::Passing::passing), unfolding(crate::specs::Blocks::block_of))]
fn block_of(alloc: Global, words: &Words<'_>) -> Result<Block, SyntaxFault>
    requires { IsScanned words.now }
    ensures exact { Gives view_of (block_of words.now) result }
    ensures indices { IfOk result (λ b. StatementIndicesFit (statement_view b.stmt)) }
{
    match head_of(words) {
        Ok((skip, number, place)) => {
            let (label, body) = label_at(words, place);
            let stmt = body_at(alloc, words, body)?;
            Ok(Block {
                skip,
                number,
                label,
                stmt,
            })
        }
        Err(code) => Err(SyntaxFault::Refused(code)),
    }
}

/// Reads as the definition does.
#[tactic(auto, unfolding(crate::specs::Blocks::statement_of))]
fn statement_exactly(
    alloc: Global,
    words: &Words<'_>,
    compensation: bool,
) -> Result<Block, SyntaxFault>
    requires { IsScanned words.now }
    ensures exact { Gives view_of (statement_of words.now compensation) result }
    ensures indices { IfOk result (λ b. StatementIndicesFit (statement_view b.stmt)) }
{
    match refused_word(words, compensation) {
        Some(code) => Err(SyntaxFault::Refused(code)),
        None => {
            if has_large_number(words) {
                Err(SyntaxFault::Refused(21))
            } else {
                block_of(alloc, words)
            }
        }
    }
}

/// Reads one scanned line of a part program.
///
/// `compensation` says whether the job accepts tool radius compensation. `Refused` has the code of
/// the first broken rule: the leftmost refused word; else 21 where a number is out of range; else
/// what is wrong with the form, at the leftmost place at which the line goes on to no form.
/// `NoMemory` says nothing of the line.
#[tactic(auto, using(crate::proofs::BreaksOff::answers))]
pub fn statement(alloc: Global, words: &Words<'_>, compensation: bool) -> Result<Block, SyntaxFault>
    requires { IsScanned words.now }

    // What is read is spelled so, and what is spelled so is read: one block at most.
    ensures found { IfOk result (λ b. Spells words.now (view_of b)) }
    ensures only { (b : BlockView) → IsAccepted words.now compensation → Spells words.now b
        → Gives view_of (Ok b) result }

    // A refusal of its form has the code of the leftmost place at which no block goes on.
    ensures breaks_off { IfErr result (BreaksOff words.now compensation) }

    ensures exact { Gives view_of (statement_of words.now compensation) result }
    ensures listed { IfErr result IsListed }
    ensures indices { IfOk result (λ b. StatementIndicesFit (statement_view b.stmt)) }
{
    statement_exactly(alloc, words, compensation)
}
