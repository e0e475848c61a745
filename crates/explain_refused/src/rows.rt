//! What is told of a refused line.
ghost use Rattle.std.specs.Prelude.{◌≡◌, ◌<◌, ◌^◌, IfOk, length, map};
ghost use Rattle.std.specs.Option.{option_or, option_map};
ghost use Rattle.explain_refused.specs.Effects.{effect_by};
ghost use Rattle.explain_refused.specs.Rows as model;

use crate::effects::{Effect, quiet_place_in};
use crate::line_words::{LineWord, words_of};
use crate::places::{byte_place, first_known};
use crate::slips::{FoundSlip, Slip, slip_in};
use crate::word_places::word_place;
use explain_lines::Lines;
use fault_codes::Refusal;
use out_of_memory::NoMemory;
use std::alloc::Global;

/// A line that is refused.
#[derive(Clone, Copy)]
pub struct RefusedLine {
    /// The code of the refusal.
    pub code: u16,
    /// The line of the input, counted from 1.
    pub line: u32,
    /// What it would do.
    pub effect: Effect,
    /// Its slip, where it has one of those that are known.
    pub slip: Option<Slip>,
    /// The place of the refusal in the text of the line, counted from 0, where it is known.
    pub place: Option<usize>,
}

/// What a line would do whose body moves nothing, or does not.
fn effect_by(place: Option<usize>) -> Effect
    ensures { result ≡ effect_by place }
{
    match place {
        Some(_) => Effect::MovesNothing,
        None => Effect::MayMove,
    }
}

/// The slip that was found.
fn slip_of(found: Option<FoundSlip>) -> Option<Slip>
    ensures { result ≡ option_map (λ found. found.slip) found }
{
    match found {
        Some(found) => Some(found.slip),
        None => None,
    }
}

/// The place of a slip that was found.
fn place_of(found: Option<FoundSlip>) -> Option<usize>
    ensures { result ≡ option_map (λ found. found.place) found }
{
    match found {
        Some(found) => Some(found.place),
        None => None,
    }
}

/// The place of a refusal in the text of its line with these words, where that is known: of a byte, of a slip, or of a word.
/// `NoMemory` where too little memory is found.
#[tactic(auto, unfolding(crate::specs::Rows::place_in))]
fn place_in(
    alloc: Global,
    code: u16,
    text: &[u8],
    words: &[LineWord],
) -> Result<Option<usize>, NoMemory>
    requires { length words.now < 2 ^ 32 }
    ensures { IfOk result (λ place. place ≡ model.place_in code text.now words.now) }
{
    let byte = byte_place(alloc, code, text)?;
    let slip = place_of(slip_in(code, text, words));
    let word = word_place(alloc, code, text, words)?;
    Ok(first_known(byte, first_known(slip, word)))
}

/// What is told of a line that is refused. `NoMemory` where too little memory is found.
#[tactic(auto, unfolding(crate::specs::Rows::refused_line))]
pub fn refused_line(
    alloc: Global,
    lines: &Lines,
    refusal: &Refusal,
) -> Result<RefusedLine, NoMemory>
    ensures { IfOk result (λ row. row ≡ model.refused_line lines.now refusal.now) }
{
    let text = lines.text(refusal.line);
    let words = words_of(alloc, text)?;
    let place = place_in(alloc, refusal.code, text, words.as_slice())?;
    Ok(RefusedLine {
        code: refusal.code,
        line: refusal.line,
        effect: effect_by(quiet_place_in(refusal.code, words.as_slice())),
        slip: slip_of(slip_in(refusal.code, text, words.as_slice())),
        place,
    })
}

/// What is told of lines that are refused, one after the other. `NoMemory` where too little memory is found.
pub fn refused_lines(
    alloc: Global,
    lines: &Lines,
    refusals: &[Refusal],
) -> Result<Vec<RefusedLine>, NoMemory>
    ensures { IfOk result (λ rows. rows.items ≡ map (model.refused_line lines.now) refusals.now) }
{
    let mut rows = Vec::new(alloc);
    for refusal in refusals {
        rows.push(refused_line(alloc, lines, refusal)?)?;
    }
    Ok(rows)
}
