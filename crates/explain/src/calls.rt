//! Calls: words, what they ask for, and where answers go.
use crate::answers::{Answer, answer_input};
use crate::progress::Progress;
use crate::refusal_lines::refusal_lines;
use crate::words::{Form, Request, Task, request_of};
use clap::Error;
use clap::error::ErrorKind;
use exit_statuses::Status;
use explain_calls::Ends;
use explain_ready::ready_text;
use std::alloc::{AllocError, Global};
use std::env::Args;
use std::io::{self, ErrorKind as Kind, Write};
use std::rt::Files;
use std::time::Clock;

/// The status of a call that has no verdict, and no fault.
const DONE: u8 = 0;

/// The number that Linux gives a write to an output that is closed, EBADF.
const BAD_DESCRIPTOR: i32 = 9;

/// Whether a write failed since nobody takes the output: its reader has gone, or it is closed.
fn is_untaken(error: &io::Error) -> bool {
    error.kind() == Kind::BrokenPipe || error.raw_os_error() == Some(BAD_DESCRIPTOR)
}

/// Writes a text to standard output, and gives this status. Where nobody takes it, the call ends without a word; any other
/// fault is said.
fn write_text<R: Print>(ends: &Ends<R>, text: &[u8], status: u8) -> u8 {
    match io::writer(ends.rt).write_all(text) {
        Ok(()) => status,
        Err(error) => {
            if !is_untaken(&error) {
                let _ = eprintln!(ends.error; "explain: {error}");
            }
            Status::WriteFault.number()
        }
    }
}

/// Writes an answer in this form. Of a refused input there is nothing to draw: why is said on standard error.
fn write_answer<R: Print>(ends: &Ends<R>, answer: &Answer, form: Form) -> u8 {
    if form == Form::Drawing && answer.status == Status::Refused {
        ends.say(answer.text.as_slice());
        answer.status.number()
    } else {
        write_text(ends, answer.text.as_slice(), answer.status.number())
    }
}

/// Explains the job that files of these names are, in this form.
fn explain_files<R: Files + Input + Print + Eprint + Clock>(
    ends: &Ends<R>,
    names: &[&str],
    form: Form,
) -> u8 {
    let input = match ends.short_input(names) {
        Ok(input) => input,
        Err(status) => return status.number(),
    };
    let mut watch = Progress::start(ends.rt, ends.shows_progress);
    match answer_input(ends.alloc, input.as_slice(), form, &mut watch) {
        Ok(answer) => write_answer(ends, &answer, form),
        Err(_) => ends.say_no_memory().number(),
    }
}

/// Joins a job list and files of a control, and writes the job.
fn join_files<R: Files + Input + Print>(ends: &Ends<R>, names: &[&str]) -> u8 {
    match ends.joined(names) {
        Ok(input) => write_text(ends, input.as_slice(), DONE),
        Err(status) => status.number(),
    }
}

/// Writes a copy of the job that files of these names are, in which refused lines that move nothing are comments.
fn copy_ready<R: Files + Input + Print>(ends: &Ends<R>, names: &[&str]) -> u8 {
    let input = match ends.short_input(names) {
        Ok(input) => input,
        Err(status) => return status.number(),
    };
    match ready_text(ends.alloc, input.as_slice()) {
        Ok(ready) => {
            ends.say_ready(ready.left_out, ready.refused);
            write_text(ends, ready.text.as_slice(), DONE)
        }
        Err(_) => ends.say_no_memory().number(),
    }
}

/// Writes the refused lines of the job that files of these names are, as editors read them.
fn list_lines<R: Files + Input + Print>(ends: &Ends<R>, names: &[&str]) -> u8 {
    let input = match ends.short_input(names) {
        Ok(input) => input,
        Err(status) => return status.number(),
    };
    match refusal_lines(ends.alloc, names, input.as_slice()) {
        Ok(text) => {
            let status = if text.is_empty() {
                DONE
            } else {
                Status::Refused.number()
            };
            write_text(ends, text.as_slice(), status)
        }
        Err(_) => ends.say_no_memory().number(),
    }
}

/// Answers a request.
fn answer_request<R: Files + Input + Print + Eprint + Clock>(
    ends: &Ends<R>,
    request: &Request,
) -> u8 {
    let names = request.names.as_slice();
    match request.task {
        Task::Explain(form) => explain_files(ends, names, form),
        Task::Join => join_files(ends, names),
        Task::Ready => copy_ready(ends, names),
        Task::Lines => list_lines(ends, names),
    }
}

/// Answers words that are no request: help goes to standard output.
fn answer_error<R: Print + Eprint>(ends: &Ends<R>, error: &Error) -> u8 {
    if error.kind() == ErrorKind::OutOfMemory {
        ends.say_no_memory().number()
    } else if error.use_stderr() {
        ends.say_usage().number()
    } else {
        match error.print(ends.rt) {
            Ok(()) => DONE,
            Err(_) => Status::WriteFault.number(),
        }
    }
}

/// Answers words.
fn answer_words<R: Files + Input + Print + Eprint + Clock>(ends: &Ends<R>, words: &[&str]) -> u8 {
    match request_of(ends.alloc, words) {
        Ok(request) => answer_request(ends, &request),
        Err(error) => answer_error(ends, &error),
    }
}

/// The words as texts.
fn texts_of<'a>(alloc: Global, words: &'a [String]) -> Result<Vec<&'a str>, AllocError> {
    words.iter().map(|word| word.as_str()).collect(alloc)
}

/// Answers the arguments of the command line.
pub(crate) fn answer_arguments<R: Files + Input + Print + Eprint + Clock>(
    ends: &Ends<R>,
    arguments: io::Result<Args>,
) -> u8 {
    let words: Result<Vec<String>, AllocError> = match arguments {
        Ok(arguments) => arguments.collect(ends.alloc),
        Err(error) => {
            let _ = eprintln!(ends.error; "explain: {error}");
            return Status::Usage.number();
        }
    };
    let Ok(words) = words else {
        return ends.say_no_memory().number();
    };
    match texts_of(ends.alloc, &words) {
        Ok(texts) => answer_words(ends, texts.as_slice()),
        Err(_) => ends.say_no_memory().number(),
    }
}
