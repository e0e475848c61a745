//! Which blocks of the programs can raise a mark, and whose blocks they are.
ghost use Rattle.std.specs.Prelude.{◌≡◌, ◌==◌, ◌&&◌, map, slice_get};
ghost use Rattle.std.specs.List.{list_any};
ghost use Rattle.std.specs.Option.{option_and_then};
ghost use Rattle.job_types.specs.Job.{block_entry};
ghost use Rattle.nc_blocks.specs.Statement.{operand_view, statement_view, view_of};
ghost use Rattle.nc_expressions.specs.Tree.{tree_of};
ghost use Rattle.explain_stops.specs.MarkBlocks as model;

use axis_sets::ChannelId;
use job_types::{ChannelLine, Job, Program};
use nc_blocks::{Block, CoordWord, Operand, Stmt};
use nc_expressions::Expr;

/// Whether an expression is the number of a mark, or has a value that is found only when its block comes.
fn value_can_be(value: &Expr, mark: u8) -> bool
    ensures { result ≡ model.value_can_be mark (tree_of value.now) }
{
    match value {
        Expr::Number(number) => number.millionths == i64::from(mark) * 1_000_000,
        Expr::Parameter(_) => true,
        Expr::Indexed(_) => true,
        Expr::Unary(_, _) => true,
        Expr::Binary(_, _, _) => true,
    }
}

/// Whether an argument can be the number of a mark.
fn can_be(operand: &Operand, mark: u8) -> bool
    ensures { result ≡ model.can_be mark (operand_view operand.now) }
{
    match operand {
        Operand::Value(value) => value_can_be(value, mark),
        Operand::Text(_) => false,
        Operand::Axis(_) => false,
    }
}

/// Whether any of these arguments can be the number of a mark.
fn any_can_be(operands: &[Operand], mark: u8) -> bool
    ensures { result ≡ list_any (model.can_be mark) (map operand_view operands.now) }
{
    for operand in operands {
        if can_be(operand, mark) {
            return true;
        }
    }
    false
}

/// Whether the first of these arguments can be the number of a mark.
fn first_can_be(operands: &[Operand], mark: u8) -> bool
    ensures { result ≡ model.first_can_be mark (map operand_view operands.now) }
{
    match operands.split_first() {
        Some((first, _)) => can_be(first, mark),
        None => false,
    }
}

/// Whether a word with these arguments can raise a mark.
fn word_can_raise(word: CoordWord, operands: &[Operand], mark: u8) -> bool
    ensures { result ≡ model.word_can_raise mark word (map operand_view operands.now) }
{
    match word {
        CoordWord::WaitM => first_can_be(operands, mark),
        CoordWord::WaitMC => first_can_be(operands, mark),
        CoordWord::SetM => any_can_be(operands, mark),
        CoordWord::ClearM
        | CoordWord::Init
        | CoordWord::Start
        | CoordWord::WaitE
        | CoordWord::Release
        | CoordWord::Get
        | CoordWord::CProt => false,
    }
}

/// Whether what a block says can raise a mark.
fn statement_can_raise(stmt: &Stmt, mark: u8) -> bool
    ensures { result ≡ model.statement_can_raise mark (statement_view stmt.now) }
{
    match stmt {
        Stmt::Coord(word, operands) => word_can_raise(*word, operands.as_slice(), mark),
        _ => false,
    }
}

/// Whether a block can raise a mark of its channel. Where `skip` is true, those that begin with `/` are left out.
fn can_raise(block: &Block, skip: bool, mark: u8) -> bool
    ensures { result ≡ model.can_raise skip mark (view_of block.now) }
{
    !(skip && block.skip) && statement_can_raise(&block.stmt, mark)
}

/// The line of the first of these blocks that can raise a mark.
fn first_line(blocks: &[(u32, Block)], skip: bool, mark: u8) -> Option<u32>
    ensures { result ≡ model.first_line skip mark (map block_entry blocks.now) }
{
    for block in blocks {
        if can_raise(&block.1, skip, mark) {
            return Some(block.0);
        }
    }
    None
}

/// Whether a CHANNEL line selects the program of a name.
fn selects(line: &ChannelLine, name: &[u8]) -> bool
    ensures { result ≡ model.selects name.now line.now }
{
    match &line.program {
        Some(selected) => selected.as_bytes() == name,
        None => false,
    }
}

/// Whether any of these lines selects the program of a name.
fn is_selected(lines: &[ChannelLine], name: &[u8]) -> bool
    ensures { result ≡ list_any (model.selects name.now) lines.now }
{
    lines.iter().any(|line| selects(line, name))
}

/// Whether one of these lines that has this channel selects the program of a name.
fn is_selected_by(lines: &[ChannelLine], channel: ChannelId, name: &[u8]) -> bool
    ensures { result ≡ list_any (λ line. line.channel == channel && model.selects name.now line) lines.now }
{
    lines
        .iter()
        .any(|line| line.channel == channel && selects(line, name))
}

/// Whether the program of a name is a channel's: its CHANNEL line selects it, or no CHANNEL line does.
#[tactic(auto, unfolding(crate::specs::MarkBlocks::is_of_channel))]
fn is_of_channel(job: &Job, channel: ChannelId, name: &[u8]) -> bool
    ensures { result ≡ model.is_of_channel job.now channel name.now }
{
    let lines = job.channels.as_slice();
    is_selected_by(lines, channel, name) || !is_selected(lines, name)
}

/// The line of the first block of a program that can raise a mark, where the program is the channel's.
#[tactic(auto, unfolding(crate::specs::MarkBlocks::line_in_program))]
fn line_in(job: &Job, channel: ChannelId, mark: u8, name: &[u8], program: &Program) -> Option<u32>
    ensures { result ≡ model.line_in_program job.now channel mark (name.now, program.now) }
{
    if is_of_channel(job, channel, name) {
        first_line(program.flow.blocks(), job.skip, mark)
    } else {
        None
    }
}

/// The same of the program of a place.
fn line_at(job: &Job, channel: ChannelId, mark: u8, place: usize) -> Option<u32>
    ensures { result ≡ option_and_then (model.line_in_program job.now channel mark) (slice_get job.now.programs place) }
{
    match job.programs.get_index(place) {
        Some((name, program)) => line_in(job, channel, mark, name.as_bytes(), program),
        None => None,
    }
}

/// The line of the first block of a channel that can raise a mark, in the order of the input; none where no block of the
/// channel can.
#[tactic(auto, unfolding(crate::specs::MarkBlocks::first_block), using(crate::proofs::FirstLaws::given_here, crate::proofs::FirstLaws::given_later, crate::proofs::FirstLaws::given_nowhere))]
pub(crate) fn first_block(job: &Job, channel: ChannelId, mark: u8) -> Option<u32>
    ensures { result ≡ model.first_block job.now channel mark }
{
    for place in 0..job.programs.len() {
        if let Some(line) = line_at(job, channel, mark, place) {
            return Some(line);
        }
    }
    None
}
