//! Jumps, IF and CASE.

ghost use Rattle.nc_blocks.specs.Indices.{StatementIndicesFit};
ghost use Rattle.std.specs.Prelude.{◌≡◌, ◌<◌, ◌≤◌, ◌+◌, ℤ, List, length, codes, IfOk, IfSome};
ghost use Rattle.block_scanner.specs.Scanned.{IsScanned};
ghost use Rattle.nc_expressions.specs.Tree.{tree_of, IndicesFit};
ghost use Rattle.nc_blocks.specs.declared.blocks.JumpTo.{JumpTo};
ghost use Rattle.nc_syntax.specs.Jumps.{way_of, way_at, target_at, jump_at, last_jump, jump_form, if_form, case_names, case_value, begins_number, named_jump, pair_at, default_at, case_form};
ghost use Rattle.nc_blocks.specs.Lists.{list_at};
ghost use Rattle.nc_blocks.specs.Reading.{Gives, placed_tree};
ghost use Rattle.nc_blocks.specs.Statement.{statement_view, pair_items};

use block_scanner::Words;
use micro_units::Num;
use nc_blocks::{
    JumpTo, NameText, Piece, Stmt, Target, Way, block_number_at, close_at, constant_at, end_at,
    expression_at, is_keyword, is_word, keyword_at, open_at, piece_at, text_at,
};
use nc_expressions::{Expr, SyntaxFault};
use std::alloc::Global;

#[tactic(auto, unfolding(crate::specs::Jumps::way_of))]
pub(crate) fn way_of(text: &[u8]) -> Option<Way>
    ensures { result ≡ way_of text.now }
{
    if is_word(text, b"GOTOF") {
        Some(Way::Forward)
    } else if is_word(text, b"GOTOB") {
        Some(Way::Backward)
    } else if is_word(text, b"GOTO") {
        Some(Way::Either)
    } else if is_word(text, b"GOTOC") {
        Some(Way::Optional)
    } else {
        None
    }
}

/// How a jump that begins at a place searches.
#[tactic(auto, unfolding(crate::specs::Jumps::way_at))]
fn way_at(words: &Words<'_>, at: usize) -> Option<Way>
    requires { IsScanned words.now }
    ensures value { result ≡ way_at words.now at }
    ensures within { IfSome result (λ _. at < length words.now.tokens) }
{
    match piece_at(words, at) {
        Piece::Name => way_of(text_at(words, at)),
        _ => None,
    }
}

/// The target at a place, and the place after it.
#[tactic(auto, unfolding(crate::specs::Jumps::target_at))]
fn target_at(words: &Words<'_>, at: usize) -> Result<(Target, usize), u16>
    requires { IsScanned words.now }
    ensures value { result ≡ target_at words.now at }
    ensures within { IfOk result (λ p. (at < p.1) × (p.1 ≤ length words.now.tokens)) }
{
    match piece_at(words, at) {
        Piece::Name => Ok((Target::Label(NameText::of_word(text_at(words, at))), at + 1)),
        Piece::Letter(b'N') => {
            let number = block_number_at(words, at + 1)?;
            Ok((Target::Number(number), at + 2))
        }
        _ => Err(22),
    }
}

/// The jump with its target at a place, and the place after it.
#[tactic(auto, unfolding(crate::specs::Jumps::jump_at))]
fn jump_at(words: &Words<'_>, way: Way, at: usize) -> Result<(JumpTo, usize), u16>
    requires { IsScanned words.now }
    ensures value { result ≡ jump_at words.now way at }
    ensures within { IfOk result (λ p. (at < p.1) × (p.1 ≤ length words.now.tokens)) }
{
    let (target, end) = target_at(words, at)?;
    Ok((JumpTo { way, target }, end))
}

/// The jump with its target at a place, where nothing stands after it.
#[tactic(auto, unfolding(crate::specs::Jumps::last_jump))]
fn last_jump_at(words: &Words<'_>, way: Way, at: usize) -> Result<JumpTo, u16>
    requires { IsScanned words.now }
    ensures value { result ≡ last_jump words.now way at }
{
    let (jump, end) = jump_at(words, way, at)?;
    end_at(words, end)?;
    Ok(jump)
}

/// IF, after its name: with a jump or without one.
#[tactic(auto, using(nc_blocks::proofs::Passing::passing), unfolding(crate::specs::Jumps::if_form))]
pub(crate) fn if_form(alloc: Global, words: &Words<'_>, at: usize) -> Result<Stmt, SyntaxFault>
    requires scanned { IsScanned words.now }
    requires within { at ≤ length words.now.tokens }
    ensures exact { Gives statement_view (if_form words.now at) result }
    ensures indices { IfOk result (λ s. StatementIndicesFit (statement_view s)) }
{
    let (condition, end) = expression_at(alloc, words, at)?;
    match way_at(words, end) {
        Some(way) => match last_jump_at(words, way, end + 1) {
            Ok(jump) => Ok(Stmt::IfJump(condition, jump)),
            Err(code) => Err(SyntaxFault::Refused(code)),
        },
        None => match end_at(words, end) {
            Ok(_) => Ok(Stmt::If(condition)),
            Err(code) => Err(SyntaxFault::Refused(code)),
        },
    }
}

/// The value of CASE: an expression in parentheses and OF, and the place after.
#[tactic(auto, using(nc_blocks::proofs::Passing::passing), unfolding(crate::specs::Jumps::case_value))]
fn case_value(alloc: Global, words: &Words<'_>, at: usize) -> Result<(Expr, usize), SyntaxFault>
    requires { IsScanned words.now }
    ensures exact { Gives placed_tree (case_value words.now at) result }
    ensures indices { IfOk result (λ p. IndicesFit (tree_of p.0)) }
    ensures within { IfOk result (λ p. p.1 ≤ length words.now.tokens) }
{
    match open_at(words, at, 22) {
        Ok(first) => {
            let (value, end) = expression_at(alloc, words, first)?;
            match case_names_at(words, end) {
                Ok(following) => Ok((value, following)),
                Err(code) => Err(SyntaxFault::Refused(code)),
            }
        }
        Err(code) => Err(SyntaxFault::Refused(code)),
    }
}

/// `)` and OF: the place after.
#[tactic(auto, unfolding(crate::specs::Jumps::case_names))]
fn case_names_at(words: &Words<'_>, at: usize) -> Result<usize, u16>
    requires { IsScanned words.now }
    ensures value { result ≡ case_names words.now at }
    ensures within { IfOk result (λ p. p ≤ length words.now.tokens) }
{
    let closed = close_at(words, at, 22)?;
    keyword_at(words, closed, b"OF")
}

/// Whether a number or its sign stands at a place.
fn begins_number(piece: Piece) -> bool
    ensures { result ≡ begins_number piece }
{
    matches!(piece, Piece::Number(_) | Piece::Plus | Piece::Minus)
}

/// The jump that begins at a place with its name, and the place after it.
#[tactic(auto, unfolding(crate::specs::Jumps::named_jump))]
fn named_jump(words: &Words<'_>, at: usize) -> Result<(JumpTo, usize), u16>
    requires { IsScanned words.now }
    ensures value { result ≡ named_jump words.now at }
    ensures within { IfOk result (λ p. (at < p.1) × (p.1 ≤ length words.now.tokens)) }
{
    match way_at(words, at) {
        Some(way) => jump_at(words, way, at + 1),
        None => Err(22),
    }
}

/// A number and a jump, whether another pair follows, and the place after.
#[tactic(auto, unfolding(crate::specs::Jumps::pair_at))]
fn pair_at(words: &Words<'_>, at: usize) -> Result<((Num, JumpTo), bool, usize), u16>
    requires scanned { IsScanned words.now }
    requires within { at ≤ length words.now.tokens }
    ensures value { result ≡ pair_at words.now at }
    ensures within { IfOk result (λ p. (at < p.2) × (p.2 ≤ length words.now.tokens)) }
{
    let (number, place) = constant_at(words, at, 22)?;
    let (jump, end) = named_jump(words, place)?;
    let more = begins_number(piece_at(words, end));
    Ok(((number, jump), more, end))
}

/// The same, with its refusal as that of the line.
fn pair_item_at(words: &Words<'_>, at: usize) -> Result<((Num, JumpTo), bool, usize), SyntaxFault>
    requires scanned { IsScanned words.now }
    requires within { at ≤ length words.now.tokens }
    ensures exact { Gives (λ p. p) (pair_at words.now at) result }
    ensures within { IfOk result (λ p. (at < p.2) × (p.2 ≤ length words.now.tokens)) }
{
    match pair_at(words, at) {
        Ok(read) => Ok(read),
        Err(code) => Err(SyntaxFault::Refused(code)),
    }
}

/// The pairs of a CASE, one at least, and the place after them.
#[tactic(auto, using(nc_blocks::proofs::Listing::list_steps))]
fn pairs_at(
    alloc: Global,
    words: &Words<'_>,
    start: usize,
) -> Result<(Vec<(Num, JumpTo)>, usize), SyntaxFault>
    requires scanned { IsScanned words.now }
    requires within { start ≤ length words.now.tokens }
    ensures { Gives pair_items (list_at (λ _. pair_at words.now) words.now start) result }
{
    let mut list = Vec::new(alloc);
    let mut at = start;
    loop {
        let (pair, more, end) = pair_item_at(words, at)?;
        list.push(pair)?;
        if !more {
            return Ok((list, end));
        }
        at = end;
    }
}

/// DEFAULT and its jump, if they stand there, after which nothing stands.
#[tactic(auto, unfolding(crate::specs::Jumps::default_at))]
fn default_at(words: &Words<'_>, at: usize) -> Result<Option<JumpTo>, u16>
    requires { IsScanned words.now }
    ensures { result ≡ default_at words.now at }
{
    if is_keyword(words, at, b"DEFAULT") {
        let (jump, end) = named_jump(words, at + 1)?;
        end_at(words, end)?;
        Ok(Some(jump))
    } else {
        end_at(words, at)?;
        Ok(None)
    }
}

/// CASE, after its name.
#[tactic(auto, using(nc_blocks::proofs::Passing::passing), unfolding(crate::specs::Jumps::case_form))]
pub(crate) fn case_form(alloc: Global, words: &Words<'_>, at: usize) -> Result<Stmt, SyntaxFault>
    requires { IsScanned words.now }
    ensures exact { Gives statement_view (case_form words.now at) result }
    ensures indices { IfOk result (λ s. StatementIndicesFit (statement_view s)) }
{
    let (value, first) = case_value(alloc, words, at)?;
    let (pairs, end) = pairs_at(alloc, words, first)?;
    match default_at(words, end) {
        Ok(other) => Ok(Stmt::Case(value, pairs, other)),
        Err(code) => Err(SyntaxFault::Refused(code)),
    }
}

/// A jump, after its name.
#[tactic(auto, unfolding(crate::specs::Jumps::jump_form))]
pub(crate) fn jump_form(words: &Words<'_>, way: Way, at: usize) -> Result<Stmt, SyntaxFault>
    requires { IsScanned words.now }
    ensures exact { Gives statement_view (jump_form words.now way at) result }
    ensures indices { IfOk result (λ s. StatementIndicesFit (statement_view s)) }
{
    match last_jump_at(words, way, at) {
        Ok(jump) => Ok(Stmt::Jump(jump)),
        Err(code) => Err(SyntaxFault::Refused(code)),
    }
}
