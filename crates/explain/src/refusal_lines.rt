//! The refused lines of an input, as editors read them.
ghost use Rattle.std.specs.Prelude.{◌≤◌, length};
ghost use Rattle.job_lines.specs.declared.limits.TheConstants.{INPUT_LIMIT};

use explain_lines::{Lines, origin_of};
use explain_refused::{RefusedLine, lines_text, refused_lines};
use fault_codes::Refusal;
use growing_text::Text;
use indexmap::IndexMap;
use out_of_memory::NoMemory;
use std::alloc::Global;
use tape_job::{JobFault, line_refusals, read_job};

/// The folders of files that lie in one, by the names that joining gives them; of two files with one name the first folder.
fn folders_of<'a>(
    alloc: Global,
    paths: &[&'a str],
) -> Result<IndexMap<&'a [u8], &'a str>, NoMemory> {
    let mut folders = IndexMap::new(alloc);
    for path in paths {
        if let Some((folder, name)) = path.rsplit_once('/') {
            if !folders.contains_key(name.as_bytes()) {
                folders.insert(name.as_bytes(), folder)?;
            }
        }
    }
    Ok(folders)
}

/// Writes the folder of the file that a line of an input comes from, where it lies in one.
fn put_folder(text: &mut Text, folders: &IndexMap<&[u8], &str>, lines: &Lines, line: u32) {
    if let Some(origin) = origin_of(lines, line) {
        if let Some(folder) = folders.get(origin.file) {
            text.say(folder);
            text.say("/");
        }
    }
}

/// The refusals of lines by themselves, and before them that of the input where it is none of these.
fn all_refusals(alloc: Global, input: &[u8]) -> Result<Vec<Refusal>, NoMemory>
    requires { length input.now ≤ INPUT_LIMIT }
{
    let mut refusals = line_refusals(alloc, input)?;
    match read_job(alloc, input) {
        Ok(_) => Ok(refusals),
        Err(JobFault::NoMemory) => Err(NoMemory),
        Err(JobFault::Refused(refusal)) => {
            if !refusals.contains(&refusal) {
                refusals.insert(0, refusal)?;
            }
            Ok(refusals)
        }
    }
}

/// The first of these paths; nothing where there are none.
fn first_path<'a>(paths: &[&'a str]) -> &'a str {
    match paths.first() {
        Some(path) => *path,
        None => "",
    }
}

/// Writes the path of the file of each line before it.
fn put_lines(
    alloc: Global,
    paths: &[&str],
    lines: &Lines,
    rows: &[RefusedLine],
) -> Result<Vec<u8>, NoMemory> {
    let folders = folders_of(alloc, paths)?;
    let mut text = Text::new(alloc);
    let list = first_path(paths);
    for row in rows {
        put_folder(&mut text, &folders, lines, row.line);
        let line = lines_text(alloc, list.as_bytes(), lines, &[*row])?;
        text.bytes(line.as_slice());
    }
    text.finish()
}

/// The refused lines of an input that files of these paths make, each as `FILE:LINE: text`, with the path of its file. The lines
/// that are refused by themselves come in the order of the input, and before them the refusal of the input, where it is another.
pub(crate) fn refusal_lines(
    alloc: Global,
    paths: &[&str],
    input: &[u8],
) -> Result<Vec<u8>, NoMemory>
    requires { length input.now ≤ INPUT_LIMIT }
{
    let lines = Lines::of(alloc, input)?;
    let refusals = all_refusals(alloc, input)?;
    let rows = refused_lines(alloc, &lines, refusals.as_slice())?;
    put_lines(alloc, paths, &lines, rows.as_slice())
}
