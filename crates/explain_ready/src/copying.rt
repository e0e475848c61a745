//! An input whose lines are left out that are refused and move nothing.
ghost use Rattle.std.specs.Prelude.{◌≡◌, ◌<◌, ◌≤◌, ◌+◌, ◌++◌, ◌^◌, IfOk, length};
ghost use Rattle.job_lines.specs.declared.limits.TheConstants.{INPUT_LIMIT};
ghost use Rattle.explain_ready.specs.Copies as model;
ghost use Rattle.explain_ready.specs.Copies.{IsReady};
ghost use Rattle.explain_ready.specs.Marking.{marked, mark_place};

use crate::marking::{mark_place, put_line};
use growing_text::Text;
use out_of_memory::NoMemory;
use std::alloc::Global;
use tape_job::{first_length, line_codes};

/// A copy of an input.
#[derive(Drop)]
pub struct Ready {
    /// Its text.
    pub text: Vec<u8>,
    /// How many lines are left out.
    pub left_out: usize,
    /// How many lines stay that are refused by themselves.
    pub refused: usize,
}

/// How many lines are left out and how many refused lines stay, so far.
#[derive(Clone, Copy)]
struct Counts {
    left_out: usize,
    refused: usize,
}

/// The counts with one line more, which has the mark at a place or has it not, and is refused with a code or is not.
fn counts_with(counts: Counts, place: Option<usize>, code: Option<u16>) -> Counts
    requires { counts.left_out + counts.refused < 2 ^ 32 }
    ensures { result ≡ model.counts_with counts place code }
{
    match place {
        Some(_) => Counts {
            left_out: counts.left_out + 1,
            refused: counts.refused,
        },
        None => match code {
            Some(_) => Counts {
                left_out: counts.left_out,
                refused: counts.refused + 1,
            },
            None => counts,
        },
    }
}

/// The copy with this text.
fn finished(text: Text, counts: Counts) -> Result<Ready, NoMemory>
    ensures { IfOk result (λ ready. model.IsFinished text counts ready) }
{
    Ok(Ready {
        text: text.finish()?,
        left_out: counts.left_out,
        refused: counts.refused,
    })
}

/// A copy of an input in which the lines that are refused by themselves and move nothing are left out: what stands before the body
/// of such a line stays, then comes `;LEFT OUT `, and the body is a comment. Of all other lines each byte stays. `NoMemory` where
/// too little memory is found.
#[tactic(auto, using(crate::proofs::CopyLaws::few_step))]
pub fn ready_text(alloc: Global, input: &[u8]) -> Result<Ready, NoMemory>
    requires { length input.now ≤ INPUT_LIMIT }
    ensures { IfOk result (λ ready. IsReady input.now ready.text.items ready.left_out ready.refused) }
{
    let codes = line_codes(alloc, input)?;
    let mut text = Text::new(alloc);
    let mut counts = Counts {
        left_out: 0,
        refused: 0,
    };
    let mut rest = input;
    for code in codes.as_slice() {
        if rest.is_empty() {
            return finished(text, counts);
        }
        let length = first_length(rest);
        let place = mark_place(alloc, *code, &rest[..length])?;
        put_line(&mut text, &rest[..length], place);
        counts = counts_with(counts, place, *code);
        rest = &rest[length..];
    }
    finished(text, counts)
}
