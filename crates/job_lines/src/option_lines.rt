//! Job lines of one option of the whole job, each read by itself.
ghost use Rattle.std.specs.Prelude.{◌≡◌, map};
ghost use Rattle.job_lines.specs.OptionLines.{margin_of, margin_line, depth_of, depth_line, budget_of, budget_line, compensation_of, compensation_line, skip_of, skip_line, option_declaration_of};

use crate::code::Code;
use crate::declaration::Declaration;
use crate::length::length_in;
use crate::limits::{BUDGET_LIMIT, DEPTH_LIMIT, MARGIN_LIMIT};
use crate::numbers::{number_within, small_within};

/// The margin that the word writes.
#[tactic(auto, unfolding(crate::specs::OptionLines::margin_of))]
fn margin_in(word: &[u8]) -> Result<Declaration, Code>
    ensures { result ≡ margin_of word.now }
{
    let margin = length_in(word)?;
    if margin.micrometres < 0 || margin.micrometres > MARGIN_LIMIT {
        return Err(Code::OutOfRange);
    }
    Ok(Declaration::Margin(margin))
}

/// What follows MARGIN.
#[tactic(auto, unfolding(crate::specs::OptionLines::margin_line))]
fn margin_line_in(args: &[&[u8]]) -> Result<Declaration, Code>
    ensures { result ≡ margin_line (map (λ word. word.now) args.now) }
{
    match args {
        [margin] => margin_in(margin),
        _ => Err(Code::UnknownJobLine),
    }
}

/// The depth that the word writes.
#[tactic(auto, unfolding(crate::specs::OptionLines::depth_of))]
fn depth_in(word: &[u8]) -> Result<Declaration, Code>
    ensures { result ≡ depth_of word.now }
{
    match small_within(0, DEPTH_LIMIT, word) {
        Some(depth) => Ok(Declaration::Depth(depth)),
        None => Err(Code::OutOfRange),
    }
}

/// What follows DEPTH.
#[tactic(auto, unfolding(crate::specs::OptionLines::depth_line))]
fn depth_line_in(args: &[&[u8]]) -> Result<Declaration, Code>
    ensures { result ≡ depth_line (map (λ word. word.now) args.now) }
{
    match args {
        [depth] => depth_in(depth),
        _ => Err(Code::UnknownJobLine),
    }
}

/// The budget that the word writes.
#[tactic(auto, unfolding(crate::specs::OptionLines::budget_of))]
fn budget_in(word: &[u8]) -> Result<Declaration, Code>
    ensures { result ≡ budget_of word.now }
{
    match number_within(1, BUDGET_LIMIT, word) {
        Some(budget) => Ok(Declaration::Budget(budget)),
        None => Err(Code::OutOfRange),
    }
}

/// What follows BUDGET.
#[tactic(auto, unfolding(crate::specs::OptionLines::budget_line))]
fn budget_line_in(args: &[&[u8]]) -> Result<Declaration, Code>
    ensures { result ≡ budget_line (map (λ word. word.now) args.now) }
{
    match args {
        [budget] => budget_in(budget),
        _ => Err(Code::UnknownJobLine),
    }
}

/// What the word says of compensation.
#[tactic(auto, unfolding(crate::specs::OptionLines::compensation_of))]
fn compensation_in(word: &[u8]) -> Result<Declaration, Code>
    ensures { result ≡ compensation_of word.now }
{
    if word == b"CONTOUR".as_slice() {
        Ok(Declaration::Compensation)
    } else {
        Err(Code::UnknownJobLine)
    }
}

/// What follows COMPENSATION.
#[tactic(auto, unfolding(crate::specs::OptionLines::compensation_line))]
fn compensation_line_in(args: &[&[u8]]) -> Result<Declaration, Code>
    ensures { result ≡ compensation_line (map (λ word. word.now) args.now) }
{
    match args {
        [word] => compensation_in(word),
        _ => Err(Code::UnknownJobLine),
    }
}

/// What the word says of blocks that begin with `/`.
#[tactic(auto, unfolding(crate::specs::OptionLines::skip_of))]
fn skip_in(word: &[u8]) -> Result<Declaration, Code>
    ensures { result ≡ skip_of word.now }
{
    if word == b"ON".as_slice() {
        Ok(Declaration::Skip)
    } else {
        Err(Code::UnknownJobLine)
    }
}

/// What follows SKIP.
#[tactic(auto, unfolding(crate::specs::OptionLines::skip_line))]
fn skip_line_in(args: &[&[u8]]) -> Result<Declaration, Code>
    ensures { result ≡ skip_line (map (λ word. word.now) args.now) }
{
    match args {
        [word] => skip_in(word),
        _ => Err(Code::UnknownJobLine),
    }
}

/// What a line of an option says, from its first word and the others.
#[tactic(auto, unfolding(crate::specs::OptionLines::option_declaration_of))]
pub(crate) fn option_declaration_in(kind: &[u8], args: &[&[u8]]) -> Result<Declaration, Code>
    ensures { result ≡ option_declaration_of kind.now (map (λ word. word.now) args.now) }
{
    if kind == b"MARGIN".as_slice() {
        margin_line_in(args)
    } else if kind == b"DEPTH".as_slice() {
        depth_line_in(args)
    } else if kind == b"BUDGET".as_slice() {
        budget_line_in(args)
    } else if kind == b"COMPENSATION".as_slice() {
        compensation_line_in(args)
    } else if kind == b"SKIP".as_slice() {
        skip_line_in(args)
    } else {
        Err(Code::UnknownJobLine)
    }
}
