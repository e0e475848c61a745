//! How the lines of blocks are said where pairs of them are listed. A line may stand in thousands of pairs, and its program and its
//! file are to be looked for, so each is found once.
ghost use Rattle.std.specs.Prelude.{◌≡◌, ◌++◌, IfOk, OnOk};
ghost use Rattle.explain.specs.Clashes as model;
ghost use Rattle.explain.specs.LineTexts.{AreSaid};

use explain_meetings::Group;
use explain_places::{Meeting, Told, say_line};
use growing_text::Text;
use indexmap::IndexMap;
use out_of_memory::NoMemory;
use std::alloc::Global;

/// Lines of blocks, each with how it is said.
#[derive(Drop)]
pub(crate) struct LineTexts {
    texts: IndexMap<u32, Vec<u8>>,
}

/// Says the line of a block; nothing of a zone that no block moves.
#[tactic(auto, unfolding(crate::specs::Clashes::at_text))]
fn say_at(text: &mut Text, told: &Told, line: u32)
    ensures { text.new ≡ text.old ++ model.at_text told.now.lines.now told.now.job.now line }
{
    if line != 0 {
        text.say(" ");
        say_line(text, told, line);
    }
}

/// How the line of a block is said.
fn line_said(alloc: Global, told: &Told, line: u32) -> Result<Vec<u8>, NoMemory>
    ensures { IfOk result (λ said. said.items ≡ model.at_text told.now.lines.now told.now.job.now line) }
{
    let mut text = Text::new(alloc);
    say_at(&mut text, told, line);
    text.finish()
}

/// Adds how a line is said, where it is not known yet.
fn add_line(alloc: Global, known: &mut LineTexts, told: &Told, line: u32) -> Result<(), NoMemory>
    requires { AreSaid told.now.lines.now told.now.job.now known.old }
    ensures { OnOk result (AreSaid told.now.lines.now told.now.job.now known.new) }
{
    if known.texts.get(&line).is_none() {
        known.texts.insert(line, line_said(alloc, told, line)?)?;
    }
    Ok(())
}

/// Adds how both lines of a pair are said.
fn add_pair(
    alloc: Global,
    known: &mut LineTexts,
    told: &Told,
    pair: Option<&Meeting>,
) -> Result<(), NoMemory>
    requires { AreSaid told.now.lines.now told.now.job.now known.old }
    ensures { OnOk result (AreSaid told.now.lines.now told.now.job.now known.new) }
{
    if let Some(pair) = pair {
        add_line(alloc, known, told, pair.left.name.line)?;
        add_line(alloc, known, told, pair.right.name.line)?;
    }
    Ok(())
}

/// How the lines of these pairs are said.
pub(crate) fn texts_of(
    alloc: Global,
    told: &Told,
    met: &[Meeting],
    groups: &[Group],
) -> Result<LineTexts, NoMemory>
    ensures { IfOk result (λ known. AreSaid told.now.lines.now told.now.job.now known) }
{
    let mut known = LineTexts {
        texts: IndexMap::new(alloc),
    };
    for group in groups {
        add_pair(alloc, &mut known, told, met.get(group.first))?;
    }
    Ok(known)
}

/// Says the line of a block, as it is known to be said.
pub(crate) fn say_known(text: &mut Text, told: &Told, known: &LineTexts, line: u32)
    requires { AreSaid told.now.lines.now told.now.job.now known.now }
    ensures { text.new ≡ text.old ++ model.at_text told.now.lines.now told.now.job.now line }
{
    match known.texts.get(&line) {
        Some(said) => text.bytes(said.as_slice()),
        None => say_at(text, told, line),
    }
}
