//! The refusals of all lines that are refused by themselves.
ghost use Rattle.std.specs.Prelude.{◌≡◌, ◌<◌, ◌≤◌, ◌+◌, ◌++◌, ◌^◌, IfOk, length};
ghost use Rattle.job_lines.specs.declared.limits.TheConstants.{INPUT_LIMIT};
ghost use Rattle.tape_job.specs.LineRefusals.{line_codes_of, line_refusals_of, refusals_from};
ghost use Rattle.tape_job.specs.Reading.{reading_view};
ghost use Rattle.tape_job.specs.Told.{says_compensation};

use crate::lines::{begins_with_percent, first_length, has_token};
use crate::reading::{LineFault, Reading, reading_in};
use fault_codes::Refusal;
use job_lines::Declaration;
use out_of_memory::NoMemory;
use std::alloc::Global;

/// What the lines so far say of how the next one is read.
#[derive(Clone, Copy)]
pub(crate) struct ReadingState {
    /// Whether one of them has a token.
    pub seen: bool,
    /// Whether one of them begins with `%`.
    pub in_programs: bool,
    /// Whether one of them accepts tool radius compensation.
    pub compensation: bool,
}

/// Whether a line that says this accepts tool radius compensation.
fn says_compensation(reading: &Reading) -> bool
    ensures { result ≡ says_compensation (Ok (reading_view reading.now)) }
{
    matches!(reading, Reading::DeclarationLine(Declaration::Compensation))
}

impl ReadingState {
    ghost use Rattle.std.specs.Prelude.{◌≡◌, [], IfOk};
    ghost use Rattle.tape_job.specs.LineRefusals.{code_of};
    ghost use Rattle.tape_job.specs.RefusalSteps.{reading_in, state_of, state_with, state_after};

    /// That of no line.
    #[tactic(auto, unfolding(crate::specs::Told::facts_of, crate::specs::Told::accept_compensation))]
    fn new() -> ReadingState
        ensures { result ≡ state_of [] }
    {
        ReadingState {
            seen: false,
            in_programs: false,
            compensation: false,
        }
    }

    /// Goes on after a line that accepts tool radius compensation or does not.
    fn pass(&mut self, raw: &[u8], compensation: bool)
        ensures { self.new ≡ state_with self.old raw.now compensation }
    {
        self.seen = self.seen || has_token(raw);
        self.in_programs = self.in_programs || begins_with_percent(raw);
        self.compensation = compensation || self.compensation;
    }

    /// Takes the next line, and answers its code where it is refused by itself.
    fn line(&mut self, alloc: Global, raw: &[u8]) -> Result<Option<u16>, NoMemory>
        ensures code { IfOk result (λ code. code ≡ code_of (reading_in self.old raw.now)) }
        ensures state { IfOk result (λ _. self.new ≡ state_after self.old raw.now) }
    {
        match reading_in(alloc, self.seen, self.in_programs, self.compensation, raw) {
            Ok(reading) => {
                self.pass(raw, says_compensation(&reading));
                Ok(None)
            }
            Err(LineFault::Broken(code)) => {
                self.pass(raw, false);
                Ok(Some(code))
            }
            Err(LineFault::NoMemory) => Err(NoMemory),
        }
    }
}

/// For each line of an input the code by which it is refused by itself, that is by its form, its words or its numbers: 1 to 5, 10,
/// 20 to 24, 26, 27 and 40 to 59; or nothing. Each line is read in the light of those before it, refused or not. `NoMemory`
/// where too little memory is found.
#[tactic(auto, using(crate::proofs::LineRefusalLemmas::at_start))]
pub fn line_codes(alloc: Global, bytes: &[u8]) -> Result<Vec<Option<u16>>, NoMemory>
    ensures exact { IfOk result (λ codes. codes.items ≡ line_codes_of bytes.now) }
    ensures few { IfOk result (λ codes. length codes.items ≤ length bytes.now) }
{
    let mut codes = Vec::new(alloc);
    let mut state = ReadingState::new();
    let mut rest = bytes;
    while !rest.is_empty() {
        let length = first_length(rest);
        let code = state.line(alloc, &rest[..length])?;
        codes.push(code)?;
        rest = &rest[length..];
    }
    Ok(codes)
}

/// The refusals of lines with these codes, or without any, the first of which is line 1.
fn numbered(alloc: Global, codes: &[Option<u16>]) -> Result<Vec<Refusal>, NoMemory>
    requires { length codes.now < 2 ^ 32 }
    ensures { IfOk result (λ refusals. refusals.items ≡ refusals_from 1 codes.now) }
{
    let mut refusals = Vec::new(alloc);
    let mut line: u32 = 0;
    for code in codes {
        line += 1;
        if let Some(code) = *code {
            refusals.push(Refusal { code, line })?;
        }
    }
    Ok(refusals)
}

/// The refusals of the lines of an input that are refused by themselves, in the order of the input, each with its code as
/// `line_codes` gives it. Rules that depend on what other lines declare, open or name have no part in them. `NoMemory` where too
/// little memory is found.
pub fn line_refusals(alloc: Global, bytes: &[u8]) -> Result<Vec<Refusal>, NoMemory>
    requires { length bytes.now ≤ INPUT_LIMIT + 1 }
    ensures { IfOk result (λ refusals. refusals.items ≡ line_refusals_of bytes.now) }
{
    let codes = line_codes(alloc, bytes)?;
    numbered(alloc, codes.as_slice())
}
