//! What a line says by itself.
ghost use Rattle.std.specs.Prelude.{◌≡◌, ◌≤◌, ◌==◌, map, length, IfOk, IfErr};
ghost use Rattle.std.specs.List.{list_any};
ghost use Rattle.job_lines.specs.Code.{refusal_code};
ghost use Rattle.job_lines.specs.Extent.{extent_of};
ghost use Rattle.block_scanner.specs.Scanned.{IsScanned};
ghost use Rattle.nc_expressions.specs.NameTexts.{upper};
ghost use Rattle.nc_syntax.specs.Blocks.{statement_of};
ghost use Rattle.tape_job.specs.declared.draft.TheConstants.{VERSION};
ghost use Rattle.tape_job.specs.Reading.{is_job_line, is_bad_byte, declaration_line, header_line, form_of, entry_reading, block_line, block_reading, with_shown, reading_of, GivesForm, Gives, reading_view, ReadingFits, FaultIsListed};

use crate::draft::VERSION;
use crate::lines::{before_comment, begins_with_percent, is_visible, text_in, upper_in, words_of};
use axis_sets::ChannelId;
use block_scanner::{ScanFault, Words, scan};
use job_lines::{Code, Declaration, Extent, declaration_in, header_in};
use nc_blocks::{Block, NameText};
use nc_expressions::SyntaxFault;
use nc_syntax::statement;
use std::alloc::{AllocError, Global};

/// What a line says by itself.
#[derive(Drop)]
pub(crate) enum Reading {
    /// Nothing.
    Blank,
    /// It is the job line.
    First,
    /// A job line.
    DeclarationLine(Declaration),
    /// The header of a program, with its name.
    Header(NameText),
    /// A block of a program.
    BlockLine(Block),
}

/// Why a line gives nothing.
#[derive(Clone, Copy, PartialEq, Eq)]
pub(crate) enum LineFault {
    /// It is refused with this code.
    Broken(u16),
    /// Memory ran out.
    NoMemory,
}

impl From<Code> for LineFault {
    ghost use Rattle.std.specs.Prelude.{◌≡◌};
    ghost use Rattle.job_lines.specs.Code.{refusal_code};
    ghost use Rattle.tape_job.specs.Reading.{FaultIsListed};
    ghost use Rattle.tape_job.specs.declared.reading.LineFault.TheVariants.{Broken};

    ghost from_gives = { λ code fault. (fault ≡ Broken (refusal_code code)) × FaultIsListed fault };

    fn from(code: Code) -> LineFault {
        LineFault::Broken(code.shown())
    }
}

impl From<AllocError> for LineFault {
    ghost use Rattle.std.specs.Prelude.{◌≡◌};
    ghost use Rattle.tape_job.specs.declared.reading.LineFault.TheVariants.{NoMemory};

    ghost from_gives = { λ _ fault. fault ≡ NoMemory };

    fn from(_error: AllocError) -> LineFault {
        LineFault::NoMemory
    }
}

/// Whether the words are those of the job line.
#[tactic(auto, unfolding(crate::specs::Reading::is_job_line))]
fn is_job_line(words: &[&[u8]]) -> bool
    ensures { result ≡ is_job_line (map (λ word. word.now) words.now) }
{
    match words {
        [job, version] => *job == b"JOB".as_slice() && *version == b"1".as_slice(),
        _ => false,
    }
}

/// Whether the byte may not stand outside the comment of a line that is no block.
#[tactic(auto, unfolding(crate::specs::Reading::is_bad_byte))]
fn is_bad_byte(byte: u8) -> bool
    ensures { result ≡ is_bad_byte byte }
{
    (byte < 32 && byte != b'\t') || byte > 126
}

/// Whether such a byte stands in the text.
fn has_bad_byte(text: &[u8]) -> bool
    ensures { result ≡ list_any is_bad_byte text.now }
{
    text.iter().any(|byte| is_bad_byte(*byte))
}

/// The greatest channel that a job of the version that is read may have.
fn greatest_channel() -> ChannelId
    ensures { result ≡ (extent_of VERSION).channels }
{
    let extent = Extent::of(VERSION);
    ChannelId {
        number: extent.channels as u8,
    }
}

/// What the words of a job line say.
#[tactic(auto, unfolding(crate::specs::Reading::declaration_line))]
fn declaration_line_in(words: &[&[u8]]) -> Result<Reading, Code>
    ensures exact { GivesForm result (declaration_line (map (λ word. word.now) words.now)) }
    ensures fits { IfOk result (λ reading. ReadingFits (reading_view reading)) }
{
    match words {
        [kind, args @ ..] => {
            let greatest = greatest_channel();
            Ok(Reading::DeclarationLine(declaration_in(greatest, kind, args)?))
        }
        [] => Err(Code::UnknownJobLine),
    }
}

/// What the words of a header say.
#[tactic(auto, unfolding(crate::specs::Reading::header_line))]
fn header_line_in(words: &[&[u8]]) -> Result<Reading, Code>
    ensures exact { GivesForm result (header_line (map (λ word. word.now) words.now)) }
    ensures fits { IfOk result (λ reading. ReadingFits (reading_view reading)) }
{
    Ok(Reading::Header(header_in(words)?))
}

/// What the words of a line say that is no block, in upper case.
#[tactic(auto, unfolding(crate::specs::Reading::form_of))]
fn form_in(seen: bool, percent: bool, words: &[&[u8]]) -> Result<Reading, Code>
    ensures exact { GivesForm result (form_of seen percent (map (λ word. word.now) words.now)) }
    ensures fits { IfOk result (λ reading. ReadingFits (reading_view reading)) }
{
    if !seen {
        return if is_job_line(words) {
            Ok(Reading::First)
        } else {
            Err(Code::NoJobLine)
        };
    }
    if percent {
        header_line_in(words)
    } else {
        declaration_line_in(words)
    }
}

/// What a line says that is no block, from what stands before its comment.
#[tactic(auto, unfolding(crate::specs::Reading::entry_reading))]
fn entry_reading_in(
    alloc: Global,
    seen: bool,
    percent: bool,
    content: &[u8],
) -> Result<Reading, LineFault>
    ensures exact { Gives result (with_shown (entry_reading seen percent content.now)) }
    ensures fits { IfOk result (λ reading. ReadingFits (reading_view reading)) }
    ensures listed { IfErr result FaultIsListed }
{
    if has_bad_byte(content) {
        return Err(LineFault::from(Code::BadByte));
    }
    if !is_visible(content) {
        return Ok(Reading::Blank);
    }
    let upper = upper_in(alloc, content)?;
    let words = words_of(alloc, upper.as_slice())?;
    let reading = form_in(seen, percent, words.as_slice())?;
    Ok(reading)
}

/// Whether a line has no tokens.
fn has_no_tokens(words: &Words<'_>) -> bool
    ensures { result ≡ (length words.now.tokens == 0) }
{
    words.tokens.is_empty()
}

/// What a line of a program says, from its tokens.
#[tactic(auto, using(crate::proofs::ReadingLemmas::block_refusal_has_text), unfolding(crate::specs::Reading::block_line))]
fn block_line_in(alloc: Global, words: &Words<'_>, compensation: bool) -> Result<Reading, LineFault>
    requires { IsScanned words.now }
    ensures exact { Gives result (block_line (statement_of words.now compensation)) }
    ensures fits { IfOk result (λ reading. ReadingFits (reading_view reading)) }
    ensures listed { IfErr result FaultIsListed }
{
    match statement(alloc, words, compensation) {
        Ok(block) => Ok(Reading::BlockLine(block)),
        Err(SyntaxFault::Refused(code)) => Err(LineFault::Broken(code)),
        Err(SyntaxFault::NoMemory) => Err(LineFault::NoMemory),
    }
}

/// What a line of a program says.
#[tactic(auto, using(crate::proofs::ReadingLemmas::block_from_scan, crate::proofs::ReadingLemmas::block_without_tokens, crate::proofs::ReadingLemmas::block_with_bad_byte, crate::proofs::ReadingLemmas::block_with_open_text))]
fn block_reading_in(alloc: Global, compensation: bool, text: &[u8]) -> Result<Reading, LineFault>
    requires { length text.now ≤ 512 }
    ensures exact { Gives result (block_reading compensation text.now) }
    ensures fits { IfOk result (λ reading. ReadingFits (reading_view reading)) }
    ensures listed { IfErr result FaultIsListed }
{
    match scan(alloc, text) {
        Ok(words) if has_no_tokens(&words) => Ok(Reading::Blank),
        Ok(words) => block_line_in(alloc, &words, compensation),
        Err(ScanFault::BadByte(_)) => Err(LineFault::from(Code::BadByte)),
        Err(ScanFault::OpenText(_)) => Err(LineFault::from(Code::OpenText)),
        Err(ScanFault::NoMemory) => Err(LineFault::NoMemory),
    }
}

/// What a line says, where a line before it has a token or not, the programs have begun or not, and the job accepts tool radius compensation or not.
#[tactic(auto, unfolding(crate::specs::Reading::reading_of))]
pub(crate) fn reading_in(
    alloc: Global,
    seen: bool,
    in_programs: bool,
    compensation: bool,
    raw: &[u8],
) -> Result<Reading, LineFault>
    ensures exact { Gives result (reading_of seen in_programs compensation raw.now) }
    ensures fits { IfOk result (λ reading. ReadingFits (reading_view reading)) }
    ensures listed { IfErr result FaultIsListed }
{
    if raw.len() > 512 {
        return Err(LineFault::from(Code::LineTooLong));
    }
    let percent = begins_with_percent(raw);
    if in_programs && !percent {
        block_reading_in(alloc, compensation, text_in(raw))
    } else {
        entry_reading_in(alloc, seen, percent, before_comment(text_in(raw)))
    }
}
