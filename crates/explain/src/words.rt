//! The words of a call, and what they ask for.
use clap::{Arg, ArgAction, ArgGroup, ArgMatches, Command, Error};
use std::alloc::{AllocError, Global};

/// In which form a job is explained.
#[derive(Clone, Copy, PartialEq, Eq)]
pub(crate) enum Form {
    /// The explanation in plain text.
    Text,
    /// The run as a drawing in SVG.
    Drawing,
    /// The facts as JSON.
    Data,
}

/// What a call is asked for.
#[derive(Clone, Copy, PartialEq, Eq)]
pub(crate) enum Task {
    /// To explain a job in this form.
    Explain(Form),
    /// To join a job list and the files of a control to one job.
    Join,
    /// To copy a job with the refused lines that move nothing as comments.
    Ready,
    /// To list the refused lines of a job for an editor.
    Lines,
}

/// What a call is asked for, and the files that it names: a job, or a job list and the files of a control after it.
#[derive(Drop)]
pub(crate) struct Request<'a> {
    pub(crate) task: Task,
    pub(crate) names: Vec<&'a str>,
}

/// A word that asks for something.
fn flag<'a>(alloc: Global, name: &'a str, help: &'a str) -> Arg<'a> {
    Arg::new(alloc, name)
        .long(name)
        .help(help)
        .action(ArgAction::SetTrue)
}

/// The names of files.
fn files<'a>(alloc: Global) -> Arg<'a> {
    Arg::new(alloc, "files")
        .value_name("FILE")
        .help("A job, or a job list and the files of a control; - is standard input")
        .required(true)
        .action(ArgAction::Append)
        .num_args(1..)
}

/// The words that the program takes; of the flags one at most.
fn command<'a>(alloc: Global) -> Result<Command<'a>, AllocError> {
    let forms = ArgGroup::new(alloc, "forms")
        .arg("svg")?
        .arg("json")?
        .arg("join")?
        .arg("ready")?
        .arg("lines")?;
    Command::new(alloc, "explain")
        .about("Says why a job has its verdict")
        .arg(flag(alloc, "svg", "Draws the run of the job as SVG"))?
        .arg(flag(alloc, "json", "Gives the same facts as JSON"))?
        .arg(flag(
            alloc,
            "join",
            "Joins a job list and files of a control to one job",
        ))?
        .arg(flag(
            alloc,
            "ready",
            "Copies the job with refused lines that move nothing as comments",
        ))?
        .arg(flag(alloc, "lines", "Lists each refused line as FILE:LINE: text"))?
        .arg(files(alloc))?
        .group(forms)
}

/// What matches ask for.
fn task_of(matches: &ArgMatches) -> Task {
    if matches.get_flag("join") {
        Task::Join
    } else if matches.get_flag("ready") {
        Task::Ready
    } else if matches.get_flag("lines") {
        Task::Lines
    } else if matches.get_flag("svg") {
        Task::Explain(Form::Drawing)
    } else if matches.get_flag("json") {
        Task::Explain(Form::Data)
    } else {
        Task::Explain(Form::Text)
    }
}

/// The files that matches name.
fn names_of<'a>(alloc: Global, matches: &ArgMatches<'a>) -> Result<Vec<&'a str>, AllocError> {
    let mut names = Vec::new(alloc);
    if let Some(files) = matches.get_strs("files") {
        names.extend_from_slice(files)?;
    }
    Ok(names)
}

/// What the words ask for.
pub(crate) fn request_of<'a>(alloc: Global, words: &'a [&'a str]) -> Result<Request<'a>, Error> {
    let command = command(alloc)?;
    let matches = command.try_get_matches_from(words)?;
    let names = names_of(alloc, &matches)?;
    Ok(Request {
        task: task_of(&matches),
        names,
    })
}
