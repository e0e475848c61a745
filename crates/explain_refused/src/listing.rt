//! All refused lines of an input, said.
ghost use Rattle.std.specs.Prelude.{◌≡◌, ◌==◌, ◌++◌, IfOk, not, count_by};
ghost use Rattle.std.specs.List.{flat_map, list_any};
ghost use Rattle.explain_refused.specs.Listing as model;

use crate::effects::Effect;
use crate::refusal_text::{explain_refusal, say_line};
use crate::rows::RefusedLine;
use crate::slip_words::slip_advice;
use crate::slips::Slip;
use explain_advice::refusal_name;
use explain_lines::{Lines, origin_of, say_origin};
use fault_codes::Refusal;
use growing_text::Text;
use out_of_memory::NoMemory;
use std::alloc::Global;

/// Whether a line moves nothing.
fn is_quiet(effect: Effect) -> bool
    ensures { result ≡ model.is_quiet effect }
{
    matches!(effect, Effect::MovesNothing)
}

/// Says a refused line in the list.
#[tactic(auto, unfolding(crate::specs::Listing::entry_text))]
fn say_entry(text: &mut Text, lines: &Lines, row: &RefusedLine)
    ensures { text.new ≡ text.old ++ model.entry_text lines.now row.now }
{
    text.say("  line ");
    text.number(u64::from(row.line));
    say_origin(text, lines, row.line);
    text.say(": ");
    say_line(text, lines, row);
}

/// Says a refused line where it moves nothing or where it may move, as is asked.
fn say_entry_of(text: &mut Text, lines: &Lines, row: &RefusedLine, quiet: bool)
    ensures { text.new ≡ text.old ++ model.entry_of quiet lines.now row.now }
{
    if is_quiet(row.effect) == quiet {
        say_entry(text, lines, row);
    }
}

/// How many lines move nothing, or may move.
fn count_of(rows: &[RefusedLine], quiet: bool) -> usize
    ensures { result ≡ count_by (λ row. model.is_in quiet row) rows.now }
{
    rows.iter()
        .filter(|row| is_quiet(row.effect) == quiet)
        .count()
}

/// Says the refused lines that move nothing, or those that may move.
fn say_entries(text: &mut Text, lines: &Lines, rows: &[RefusedLine], quiet: bool)
    ensures { text.new ≡ text.old ++ flat_map (model.entry_of quiet lines.now) rows.now }
{
    for row in rows {
        say_entry_of(text, lines, row, quiet);
    }
}

/// Says what is to be done with the refused lines that move nothing, or with those that may move.
fn say_heading(text: &mut Text, quiet: bool)
    ensures { text.new ≡ text.old ++ model.heading quiet }
{
    if quiet {
        text.say("Lines that move nothing, which explain --ready leaves out: ");
    } else {
        text.say("Lines to be written otherwise: ");
    }
}

/// Says the refused lines that move nothing, or those that may move, with how many they are, where there are any.
#[tactic(auto, unfolding(crate::specs::Listing::group_text))]
fn say_group(text: &mut Text, lines: &Lines, rows: &[RefusedLine], quiet: bool)
    ensures { text.new ≡ text.old ++ model.group_text quiet lines.now rows.now }
{
    let count = count_of(rows, quiet);
    if count == 0 {
        return;
    }
    say_heading(text, quiet);
    text.number(count as u64);
    text.say("\n");
    say_entries(text, lines, rows, quiet);
}

/// Says how many lines are refused by themselves.
#[tactic(auto, unfolding(crate::specs::Listing::count_text))]
fn say_count(text: &mut Text, count: usize)
    ensures { text.new ≡ text.old ++ model.count_text count }
{
    text.say("\nAll lines that are refused by themselves: ");
    text.number(count as u64);
    text.say("\n");
}

/// The refused lines of an input in plain text: how many they are, those that are to be written otherwise, and those that move
/// nothing. `NoMemory` where too little memory is found.
#[tactic(auto, unfolding(crate::specs::Listing::listing_text))]
fn listing_text(alloc: Global, lines: &Lines, rows: &[RefusedLine]) -> Result<Vec<u8>, NoMemory>
    ensures { IfOk result (λ text. text.items ≡ model.listing_text lines.now rows.now) }
{
    let mut text = Text::new(alloc);
    say_count(&mut text, rows.len());
    say_group(&mut text, lines, rows, false);
    say_group(&mut text, lines, rows, true);
    text.say(
        "Refusals that hang on other lines, as of a name that no line declares, come after these are mended.\n",
    );
    text.finish()
}

/// Whether another line than that of a refusal is refused.
fn has_other(refusal: &Refusal, rows: &[RefusedLine]) -> bool
    ensures { result ≡ list_any (λ row. not (row.line == refusal.now.line)) rows.now }
{
    rows.iter().any(|row| row.line != refusal.line)
}

/// A refused input in plain text: its first refusal, and where other lines are refused by themselves, the list of all these.
/// `NoMemory` where too little memory is found.
#[tactic(auto, unfolding(crate::specs::Listing::refusals_text))]
pub fn explain_refusals(
    alloc: Global,
    lines: &Lines,
    refusal: &Refusal,
    rows: &[RefusedLine],
) -> Result<Vec<u8>, NoMemory>
    ensures { IfOk result (λ text. text.items ≡ model.refusals_text lines.now refusal.now rows.now) }
{
    let mut text = explain_refusal(alloc, lines, refusal)?;
    if has_other(refusal, rows) {
        let list = listing_text(alloc, lines, rows)?;
        text.extend_from_slice(list.as_slice())?;
    }
    Ok(text)
}

/// Says a file and its line.
fn say_file_line(text: &mut Text, name: &[u8], line: u32)
    ensures { text.new ≡ text.old ++ model.file_line name.now line }
{
    text.bytes(name);
    text.say(":");
    text.number(u64::from(line));
}

/// Says in which file and line a refused line stands: in that of a joined file, else in that of this name.
#[tactic(auto, unfolding(crate::specs::Listing::file_place))]
fn say_file_place(text: &mut Text, name: &[u8], lines: &Lines, line: u32)
    ensures { text.new ≡ text.old ++ model.file_place name.now lines.now line }
{
    match origin_of(lines, line) {
        Some(origin) => say_file_line(text, origin.file, origin.line),
        None => say_file_line(text, name, line),
    }
}

/// Says a slip after the name of a refusal, where there is one.
fn say_slip_after(text: &mut Text, slip: Option<Slip>)
    ensures { text.new ≡ text.old ++ model.slip_after slip }
{
    if let Some(slip) = slip {
        text.say(": ");
        text.say(slip_advice(slip));
    }
}

/// Says with which code a line is refused, what that is called, and the slip.
#[tactic(auto, unfolding(crate::specs::Listing::refusal_words))]
fn say_words(text: &mut Text, row: &RefusedLine)
    ensures { text.new ≡ text.old ++ model.refusal_words row.now }
{
    text.number(u64::from(row.code));
    text.say(" ");
    text.say(refusal_name(row.code));
    say_slip_after(text, row.slip);
}

/// Says a refused line in one line, as editors read it.
#[tactic(auto, unfolding(crate::specs::Listing::editor_line))]
fn say_editor_line(text: &mut Text, name: &[u8], lines: &Lines, row: &RefusedLine)
    ensures { text.new ≡ text.old ++ model.editor_line name.now lines.now row.now }
{
    say_file_place(text, name, lines, row.line);
    text.say(": ");
    say_words(text, row);
    text.say("\n");
}

/// Refused lines as editors read them, each `FILE:LINE: text`: of a joined file its own name and line, else this name and the line
/// of the input. `NoMemory` where too little memory is found.
pub fn lines_text(
    alloc: Global,
    name: &[u8],
    lines: &Lines,
    rows: &[RefusedLine],
) -> Result<Vec<u8>, NoMemory>
    ensures { IfOk result (λ text. text.items ≡ flat_map (model.editor_line name.now lines.now) rows.now) }
{
    let mut text = Text::new(alloc);
    for row in rows {
        say_editor_line(&mut text, name, lines, row);
    }
    text.finish()
}
