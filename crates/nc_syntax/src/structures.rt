//! Loops, repetitions, calls and what stands alone.

ghost use Rattle.nc_blocks.specs.Indices.{OptionFits, StatementIndicesFit};
ghost use Rattle.std.specs.Prelude.{◌≡◌, ◌<◌, ◌≤◌, ◌∷◌, length, IfOk, codes};
ghost use Rattle.block_scanner.specs.Scanned.{IsScanned};
ghost use Rattle.nc_expressions.specs.Tree.{tree_of, IndicesFit};
ghost use Rattle.nc_blocks.specs.Reading.{Gives, placed_tree};
ghost use Rattle.nc_blocks.specs.Statement.{statement_view, tree_option};
ghost use Rattle.nc_forms.specs.LineEnds.{statement_alone};
ghost use Rattle.nc_syntax.specs.Structures.{last_expression, counter_at, first_value, for_form, times_at, repeat_form, repeat_block_form, has_close, parentheses_at, pass_count, passes_at, call_passes, call_form, number_name, number_call_form, proc_form};

use block_scanner::{Kind, Sign, Words};
use micro_units::Num;
use nc_blocks::{
    NameText, Piece, Stmt, assign_at, code_at, end_at, expression_at, index_at, is_keyword,
    keyword_at, label_at, piece_at, text_at,
};
use nc_expressions::{Expr, SyntaxFault, is_digits};
use nc_forms::alone;
use std::alloc::Global;

/// An expression after which nothing stands.
#[tactic(auto, using(nc_blocks::proofs::Passing::passing), unfolding(crate::specs::Structures::last_expression))]
pub(crate) fn last_expression(
    alloc: Global,
    words: &Words<'_>,
    at: usize,
) -> Result<Expr, SyntaxFault>
    requires scanned { IsScanned words.now }
    requires within { at ≤ length words.now.tokens }
    ensures exact { Gives tree_of (last_expression words.now at) result }
    ensures indices { IfOk result (λ e. IndicesFit (tree_of e)) }
{
    let (tree, end) = expression_at(alloc, words, at)?;
    match end_at(words, end) {
        Ok(_) => Ok(tree),
        Err(code) => Err(SyntaxFault::Refused(code)),
    }
}

/// The parameter of a FOR, and the place after its `=`.
#[tactic(auto, unfolding(crate::specs::Structures::counter_at))]
fn counter_at(words: &Words<'_>, at: usize) -> Result<(u16, usize), u16>
    requires { IsScanned words.now }
    ensures value { result ≡ counter_at words.now at }
    ensures within { IfOk result (λ p. (p.0 ≤ 999) × (p.1 ≤ length words.now.tokens)) }
{
    match piece_at(words, at) {
        Piece::Letter(b'R') => {
            let index = index_at(words, at + 1, 22)?;
            let following = assign_at(words, at + 2, 22)?;
            Ok((index, following))
        }
        _ => Err(22),
    }
}

/// The first value of a FOR and the place after TO.
#[tactic(auto, using(nc_blocks::proofs::Passing::passing), unfolding(crate::specs::Structures::first_value))]
fn first_value(alloc: Global, words: &Words<'_>, at: usize) -> Result<(Expr, usize), SyntaxFault>
    requires scanned { IsScanned words.now }
    requires within { at ≤ length words.now.tokens }
    ensures exact { Gives placed_tree (first_value words.now at) result }
    ensures indices { IfOk result (λ p. IndicesFit (tree_of p.0)) }
    ensures within { IfOk result (λ p. p.1 ≤ length words.now.tokens) }
{
    let (tree, end) = expression_at(alloc, words, at)?;
    match keyword_at(words, end, b"TO") {
        Ok(following) => Ok((tree, following)),
        Err(code) => Err(SyntaxFault::Refused(code)),
    }
}

/// FOR, after its name.
#[tactic(auto, using(nc_blocks::proofs::Passing::passing), unfolding(crate::specs::Structures::for_form))]
pub(crate) fn for_form(alloc: Global, words: &Words<'_>, at: usize) -> Result<Stmt, SyntaxFault>
    requires { IsScanned words.now }
    ensures exact { Gives statement_view (for_form words.now at) result }
    ensures indices { IfOk result (λ s. StatementIndicesFit (statement_view s)) }
{
    match counter_at(words, at) {
        Ok((index, following)) => {
            let (first, second) = first_value(alloc, words, following)?;
            let last = last_expression(alloc, words, second)?;
            Ok(Stmt::For(index, first, last))
        }
        Err(code) => Err(SyntaxFault::Refused(code)),
    }
}

/// How often is repeated, after which nothing stands.
#[tactic(auto, using(nc_blocks::proofs::Passing::passing), unfolding(crate::specs::Structures::times_at))]
fn times_at(alloc: Global, words: &Words<'_>, at: usize) -> Result<Option<Expr>, SyntaxFault>
    requires { IsScanned words.now }
    ensures exact { Gives tree_option (times_at words.now at) result }
    ensures indices { IfOk result (λ e. OptionFits (tree_option e)) }
{
    match piece_at(words, at) {
        Piece::Letter(b'P') => match assign_at(words, at + 1, 22) {
            Ok(following) => Ok(Some(last_expression(alloc, words, following)?)),
            Err(code) => Err(SyntaxFault::Refused(code)),
        },
        _ => match end_at(words, at) {
            Ok(_) => Ok(None),
            Err(code) => Err(SyntaxFault::Refused(code)),
        },
    }
}

/// REPEAT, after its name: with a label, or of a loop.
#[tactic(auto, using(nc_blocks::proofs::Passing::passing), unfolding(crate::specs::Structures::repeat_form))]
pub(crate) fn repeat_form(alloc: Global, words: &Words<'_>, at: usize) -> Result<Stmt, SyntaxFault>
    requires { IsScanned words.now }
    ensures exact { Gives statement_view (repeat_form words.now at) result }
    ensures indices { IfOk result (λ s. StatementIndicesFit (statement_view s)) }
{
    match piece_at(words, at) {
        Piece::Name => {
            let label = NameText::of_word(text_at(words, at));
            let times = times_at(alloc, words, at + 1)?;
            Ok(Stmt::RepeatFrom(label, times))
        }
        _ => alone(words, at, Stmt::Repeat),
    }
}

/// REPEATB, after its name.
#[tactic(auto, using(nc_blocks::proofs::Passing::passing), unfolding(crate::specs::Structures::repeat_block_form))]
pub(crate) fn repeat_block_form(
    alloc: Global,
    words: &Words<'_>,
    at: usize,
) -> Result<Stmt, SyntaxFault>
    requires { IsScanned words.now }
    ensures exact { Gives statement_view (repeat_block_form words.now at) result }
    ensures indices { IfOk result (λ s. StatementIndicesFit (statement_view s)) }
{
    match label_at(words, at) {
        Ok(label) => {
            let times = times_at(alloc, words, at + 1)?;
            Ok(Stmt::RepeatBlock(label, times))
        }
        Err(code) => Err(SyntaxFault::Refused(code)),
    }
}

/// Whether some `)` stands in the line.
#[tactic(auto, unfolding(crate::specs::Structures::has_close))]
fn has_close(words: &Words<'_>) -> bool
    ensures { result ≡ has_close words.now }
{
    words.tokens.iter().any(|token| matches!(token.kind, Kind::Sign(Sign::CloseParenthesis)))
}

/// The place after the empty parentheses of a call, if they stand there.
#[tactic(auto, unfolding(crate::specs::Structures::parentheses_at))]
fn parentheses_at(words: &Words<'_>, at: usize) -> Result<usize, u16>
    requires scanned { IsScanned words.now }
    requires within { at ≤ length words.now.tokens }
    ensures value { result ≡ parentheses_at words.now at }
    ensures within { IfOk result (λ p. p ≤ length words.now.tokens) }
{
    match piece_at(words, at) {
        Piece::Open => match piece_at(words, at + 1) {
            Piece::Close => Ok(at + 2),
            _ => {
                if has_close(words) {
                    Err(code_at(words, at + 1, 58))
                } else {
                    Err(22)
                }
            }
        },
        _ => Ok(at),
    }
}

/// How often a program is called.
#[tactic(auto, unfolding(crate::specs::Structures::pass_count))]
fn pass_count(number: Num) -> Result<u16, u16>
    ensures { result ≡ pass_count number }
{
    let millionths = number.millionths;
    if millionths % 1_000_000 == 0 && 1_000_000 <= millionths && millionths <= 9_999_000_000 {
        Ok((millionths / 1_000_000) as u16)
    } else {
        Err(22)
    }
}

/// How often a program is called, after which nothing stands.
#[tactic(auto, unfolding(crate::specs::Structures::passes_at))]
fn passes_at(words: &Words<'_>, at: usize) -> Result<u16, u16>
    requires { IsScanned words.now }
    ensures { result ≡ passes_at words.now at }
{
    match piece_at(words, at) {
        Piece::Letter(b'P') => match piece_at(words, at + 1) {
            Piece::Number(number) => {
                let passes = pass_count(number)?;
                end_at(words, at + 2)?;
                Ok(passes)
            }
            _ => Err(22),
        },
        _ => {
            end_at(words, at)?;
            Ok(1)
        }
    }
}

/// How often a program is called, after its name.
#[tactic(auto, unfolding(crate::specs::Structures::call_passes))]
fn call_passes(words: &Words<'_>, at: usize) -> Result<u16, u16>
    requires scanned { IsScanned words.now }
    requires within { at ≤ length words.now.tokens }
    ensures { result ≡ call_passes words.now at }
{
    let following = parentheses_at(words, at)?;
    passes_at(words, following)
}

/// A call, after its name.
#[tactic(auto, unfolding(crate::specs::Structures::call_form))]
pub(crate) fn call_form(words: &Words<'_>, name: NameText, at: usize) -> Result<Stmt, SyntaxFault>
    requires scanned { IsScanned words.now }
    requires within { at ≤ length words.now.tokens }
    ensures exact { Gives statement_view (call_form words.now name at) result }
    ensures indices { IfOk result (λ s. StatementIndicesFit (statement_view s)) }
{
    match call_passes(words, at) {
        Ok(passes) => Ok(Stmt::Call(name, passes)),
        Err(code) => Err(SyntaxFault::Refused(code)),
    }
}

/// The name of a program that is L and digits.
#[tactic(auto, unfolding(crate::specs::Structures::number_name))]
fn number_name(digits: &[u8]) -> Result<NameText, u16>
    ensures { result ≡ number_name digits.now }
{
    if is_digits(digits) && digits.len() <= 31 {
        Ok(NameText::numbered(digits))
    } else {
        Err(22)
    }
}

/// A call of L and digits, after the L.
#[tactic(auto, unfolding(crate::specs::Structures::number_call_form))]
pub(crate) fn number_call_form(words: &Words<'_>, at: usize) -> Result<Stmt, SyntaxFault>
    requires scanned { IsScanned words.now }
    requires within { at < length words.now.tokens }
    ensures exact { Gives statement_view (number_call_form words.now at) result }
    ensures indices { IfOk result (λ s. StatementIndicesFit (statement_view s)) }
{
    match number_name(text_at(words, at)) {
        Ok(name) => call_form(words, name, at + 1),
        Err(code) => Err(SyntaxFault::Refused(code)),
    }
}

/// PROC, after its name.
#[tactic(auto, unfolding(crate::specs::Structures::proc_form))]
pub(crate) fn proc_form(words: &Words<'_>, at: usize) -> Result<Stmt, SyntaxFault>
    requires { IsScanned words.now }
    ensures exact { Gives statement_view (proc_form words.now at) result }
    ensures indices { IfOk result (λ s. StatementIndicesFit (statement_view s)) }
{
    match label_at(words, at) {
        Ok(name) => {
            let following = if is_keyword(words, at + 1, b"DISPLOF") {
                at + 2
            } else {
                at + 1
            };
            alone(words, following, Stmt::Proc(name))
        }
        Err(code) => Err(SyntaxFault::Refused(code)),
    }
}
