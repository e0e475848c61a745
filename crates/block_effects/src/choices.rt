//! The words T and D, which choose a tool and an edge.

ghost use Rattle.std.specs.Prelude.{◌≡◌, List, [], Some, unwrap_or};
ghost use Rattle.block_effects.specs.Words as model;
ghost use Rattle.tool_offsets.specs.Choices.{Choice, in_use_after, in_use_or_alarm};

use crate::course::Setup;
use fault_codes::alarms::NO_SUCH_TOOL;
use micro_units::Num;
use tool_offsets::{ToolInUse, Tools};

/// Whether a name begins with this letter.
fn begins_with(letter: u8, name: &[u8]) -> bool
    ensures { result ≡ model.begins_with letter name.now }
{
    match name {
        [first, ..] => *first == letter,
        [] => false,
    }
}

/// The whole number that a value is, where it is one and not below 0.
#[tactic(auto, unfolding(crate::specs::Words::number_in))]
fn number_in(value: Option<Num>) -> Option<u64>
    ensures { result ≡ model.number_in value }
{
    match value {
        Some(value) if 0 <= value.millionths && value.millionths % 1_000_000 == 0 => {
            Some((value.millionths / 1_000_000) as u64)
        }
        _ => None,
    }
}

/// What is in use after a word T with this value, or alarm 34.
fn with_tool(before: ToolInUse, tools: &Tools, value: Option<Num>) -> Result<ToolInUse, u16>
    ensures { (choices : List Choice) → before ≡ in_use_after tools.now choices
        → result ≡ in_use_or_alarm tools.now (model.tool_chosen tools.now choices value) }
{
    match number_in(value) {
        Some(tool) => before.with_tool(tools, tool),
        None => Err(NO_SUCH_TOOL),
    }
}

/// What is in use after a word D with this value, or alarm 34.
fn with_edge(before: ToolInUse, tools: &Tools, value: Option<Num>) -> Result<ToolInUse, u16>
    ensures { (choices : List Choice) → before ≡ in_use_after tools.now choices
        → result ≡ in_use_or_alarm tools.now (model.edge_chosen tools.now choices value) }
{
    match number_in(value) {
        Some(edge) => before.with_edge(tools, edge),
        None => Err(NO_SUCH_TOOL),
    }
}

/// What is in use after an auxiliary word of this name and value in a channel with these tools. The letter decides, also
/// where digits stand before the value.
#[tactic(auto, unfolding(crate::specs::Words::chosen))]
fn tool_after_word(
    before: ToolInUse,
    tools: &Tools,
    name: &[u8],
    value: Option<Num>,
) -> Result<ToolInUse, u16>
    ensures { (choices : List Choice) → before ≡ in_use_after tools.now choices
        → result ≡ in_use_or_alarm tools.now (model.chosen (Some tools.now) choices name.now value) }
{
    if begins_with(b'T', name) {
        with_tool(before, tools, value)
    } else if begins_with(b'D', name) {
        with_edge(before, tools, value)
    } else {
        Ok(before)
    }
}

/// What is in use after an auxiliary word of this name and value: T chooses a tool, D an edge of the tool in use, and every
/// other word nothing. In a channel without tools nothing is chosen. Alarm 34 where the value is none that may be chosen.
#[tactic(auto, unfolding(crate::specs::Words::chosen))]
pub(crate) fn tool_after<S: Setup>(
    setup: &S,
    before: ToolInUse,
    name: &[u8],
    value: Option<Num>,
) -> Result<ToolInUse, u16>
    ensures { (choices : List Choice) → before ≡ in_use_after (unwrap_or (S.tools setup.now) []) choices
        → result ≡ in_use_or_alarm (unwrap_or (S.tools setup.now) [])
        (model.chosen (S.tools setup.now) choices name.now value) }
{
    match setup.tools() {
        Some(tools) => tool_after_word(before, tools, name, value),
        None => Ok(before),
    }
}
