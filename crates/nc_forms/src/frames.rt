//! Frames.

ghost use Rattle.nc_expressions.specs.Tree.{IndicesFit, tree_of};
ghost use Rattle.nc_blocks.specs.Indices.{EntryFits, OptionFits, StatementIndicesFit};
ghost use Rattle.std.specs.Prelude.{◌≡◌, ◌<◌, ◌≤◌, ◌+◌, ◌==◌, map, length, IfOk, IfSome, All};
ghost use Rattle.std.specs.List.{list_any};
ghost use Rattle.block_scanner.specs.Scanned.{IsScanned};
ghost use Rattle.nc_forms.specs.Frames.{axis_of, frame_value, has_axis, frame_word_at, shape_form, turn_end, angle_at, turn_form};
ghost use Rattle.nc_blocks.specs.Pieces.{piece_at};
ghost use Rattle.nc_blocks.specs.Lists.{list_at};
ghost use Rattle.nc_blocks.specs.Reading.{Gives, placed_tree};
ghost use Rattle.nc_blocks.specs.Statement.{statement_view, placed_option, frame_item, frame_items, frame_entry, tree_option};

use block_scanner::Words;
use nc_blocks::{
    FrameWord, Piece, Stmt, assign_at, code_at, constant_at, end_at, expression_at, has_axis_word,
    is_keyword, piece_at, text_at,
};
use nc_expressions::{Expr, SyntaxFault};
use std::alloc::Global;

/// The workpiece axis whose letter stands at a place.
fn slot_at(words: &Words<'_>, at: usize) -> Option<u8>
    requires { IsScanned words.now }
    ensures value { result ≡ axis_of (piece_at words.now at) }
    ensures within { IfSome result (λ _. at < length words.now.tokens) }
{
    match piece_at(words, at) {
        Piece::Letter(b'X') => Some(0),
        Piece::Letter(b'Y') => Some(1),
        Piece::Letter(b'Z') => Some(2),
        _ => None,
    }
}

/// The value after the letter of a frame word, and the place after it.
#[tactic(auto, using(nc_blocks::proofs::Passing::passing), unfolding(crate::specs::Frames::frame_value))]
fn frame_value(alloc: Global, words: &Words<'_>, at: usize) -> Result<(Expr, usize), SyntaxFault>
    requires scanned { IsScanned words.now }
    requires within { at ≤ length words.now.tokens }
    ensures exact { Gives placed_tree (frame_value words.now at) result }
    ensures indices { IfOk result (λ p. IndicesFit (tree_of p.0)) }
    ensures within { IfOk result (λ p. (at < p.1) × (p.1 ≤ length words.now.tokens)) }
{
    match piece_at(words, at) {
        Piece::Assign => expression_at(alloc, words, at + 1),
        _ => match constant_at(words, at, 22) {
            Ok((number, end)) => Ok((Expr::Number(number), end)),
            Err(code) => Err(SyntaxFault::Refused(code)),
        },
    }
}

/// Whether an axis has a word.
fn is_given(words: &[(u8, Expr)], axis: u8) -> bool
    ensures { result ≡ list_any (λ word. word.0 == axis) words.now }
{
    words.iter().any(|word| word.0 == axis)
}

/// Whether an axis is among those that came before.
fn has_axis(before: &[(u8, Expr)], axis: u8) -> bool
    ensures { result ≡ has_axis (map frame_entry before.now) axis }
{
    is_given(before, axis)
}

/// A frame word at a place, whether another one follows, and the place after it.
#[tactic(auto, using(nc_blocks::proofs::Passing::passing), unfolding(crate::specs::Frames::frame_word_at))]
fn frame_word_at(
    alloc: Global,
    words: &Words<'_>,
    before: &[(u8, Expr)],
    at: usize,
) -> Result<((u8, Expr), bool, usize), SyntaxFault>
    requires { IsScanned words.now }
    ensures exact { Gives frame_item (frame_word_at words.now (map frame_entry before.now) at) result }
    ensures indices { IfOk result (λ p. EntryFits (frame_entry p.0)) }
    ensures within { IfOk result (λ p. (at < p.2) × (p.2 ≤ length words.now.tokens)) }
{
    match slot_at(words, at) {
        None => Err(SyntaxFault::Refused(code_at(words, at, 24))),
        Some(axis) => {
            if has_axis(before, axis) {
                return Err(SyntaxFault::Refused(22));
            }
            let (value, end) = frame_value(alloc, words, at + 1)?;
            let more = !matches!(piece_at(words, end), Piece::End);
            Ok(((axis, value), more, end))
        }
    }
}

/// The frame words that stand from a place on, one at least, and the place after them.
#[tactic(auto, using(nc_blocks::proofs::Listing::list_steps))]
fn frame_words_at(
    alloc: Global,
    words: &Words<'_>,
    start: usize,
) -> Result<(Vec<(u8, Expr)>, usize), SyntaxFault>
    requires scanned { IsScanned words.now }
    requires within { start ≤ length words.now.tokens }
    ensures exact { Gives frame_items (list_at (frame_word_at words.now) words.now start) result }
    ensures indices { IfOk result (λ p. All EntryFits (map frame_entry p.0.items)) }
{
    let mut list = Vec::new(alloc);
    let mut at = start;
    loop {
        let (word, more, end) = frame_word_at(alloc, words, &list, at)?;
        list.push(word)?;
        if !more {
            return Ok((list, end));
        }
        at = end;
    }
}

/// A frame word, after its name.
#[tactic(auto, using(nc_blocks::proofs::Passing::passing), unfolding(crate::specs::Frames::shape_form))]
pub fn shape_form(
    alloc: Global,
    words: &Words<'_>,
    which: FrameWord,
    at: usize,
) -> Result<Stmt, SyntaxFault>
    requires scanned { IsScanned words.now }
    requires within { at ≤ length words.now.tokens }
    ensures exact { Gives statement_view (shape_form words.now which at) result }
    ensures indices { IfOk result (λ s. StatementIndicesFit (statement_view s)) }
{
    match piece_at(words, at) {
        Piece::End => Ok(Stmt::Shape(which, Vec::new(alloc))),
        _ => {
            let (list, _) = frame_words_at(alloc, words, at)?;
            Ok(Stmt::Shape(which, list))
        }
    }
}

/// The end of ROT and AROT.
#[tactic(auto, unfolding(crate::specs::Frames::turn_end))]
fn turn_end(words: &Words<'_>, at: usize) -> Result<usize, u16>
    requires { IsScanned words.now }
    ensures { result ≡ turn_end words.now at }
{
    if matches!(piece_at(words, at), Piece::Letter(b'X' | b'Y' | b'Z'))
        || has_axis_word(words, at)
    {
        Err(50)
    } else {
        end_at(words, at)
    }
}

/// RPL with its angle, if it stands there, and the place after.
#[tactic(auto, using(nc_blocks::proofs::Passing::passing), unfolding(crate::specs::Frames::angle_at))]
fn angle_at(
    alloc: Global,
    words: &Words<'_>,
    at: usize,
) -> Result<(Option<Expr>, usize), SyntaxFault>
    requires { IsScanned words.now }
    ensures exact { Gives placed_option (angle_at words.now at) result }
    ensures indices { IfOk result (λ p. OptionFits (tree_option p.0)) }
{
    if is_keyword(words, at, b"RPL") {
        match assign_at(words, at + 1, 22) {
            Ok(following) => {
                let (angle, end) = expression_at(alloc, words, following)?;
                Ok((Some(angle), end))
            }
            Err(code) => Err(SyntaxFault::Refused(code)),
        }
    } else {
        Ok((None, at))
    }
}

/// ROT or AROT, after its name.
#[tactic(auto, using(nc_blocks::proofs::Passing::passing), unfolding(crate::specs::Frames::turn_form))]
pub fn turn_form(
    alloc: Global,
    words: &Words<'_>,
    more: bool,
    at: usize,
) -> Result<Stmt, SyntaxFault>
    requires { IsScanned words.now }
    ensures exact { Gives statement_view (turn_form words.now more at) result }
    ensures indices { IfOk result (λ s. StatementIndicesFit (statement_view s)) }
{
    let (angle, end) = angle_at(alloc, words, at)?;
    match turn_end(words, end) {
        Ok(_) => Ok(Stmt::Turn(more, angle)),
        Err(code) => Err(SyntaxFault::Refused(code)),
    }
}
