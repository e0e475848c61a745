//! The call by the arguments of the command line.
ghost use Rattle.std.specs.Prelude.{◌≡◌, ◌-◌, ◌^◌, ◌<◌, map, IfOk, string_bytes};
ghost use Rattle.turnmill.specs.Arguments.{GivesWords, HasNoText, call_in};
ghost use Rattle.turnmill.specs.Calls.{AnswersCall, sink_change, source_change};

use crate::running::run_words;
use edge_io::{Gate, Sink, Source};
use exit_statuses::Status;
use std::alloc::{AllocError, Global};
use std::env::Args;
use std::io;
use std::io::ErrorKind;
use std::sync::Wait;
use std::thread::Threads;

/// The words of a call: its arguments without the program's own name, which is the first.
fn words_of(alloc: Global, arguments: io::Result<Args>) -> Result<Vec<String>, Status>
    ensures { GivesWords arguments result }
{
    match arguments {
        Ok(arguments) => match arguments.skip(1).collect(alloc) {
            Ok(words) => Ok(words),
            Err(_) => Err(Status::NoMemory),
        },
        Err(fault) if fault.kind() == ErrorKind::OutOfMemory => Err(Status::NoMemory),
        Err(_) => Err(Status::Usage),
    }
}

/// The words as texts.
fn texts_of<'a>(alloc: Global, words: &'a [String]) -> Result<Vec<&'a str>, AllocError>
    ensures { IfOk result (λ texts. map (λ text. text.now) texts.items ≡ map string_bytes words.now) }
{
    words.iter().map(|word| word.as_str()).collect(alloc)
}

/// Answers the arguments of the command line as `run_words` answers the words in them. The
/// first argument is the program's own name, and no word. Where an argument is no text, the words are not accepted.
pub fn run_arguments<R: Threads + Wait + Sync, S: Source, K: Sink, G: Gate + Sync>(
    rt: &R,
    alloc: Global,
    arguments: io::Result<Args>,
    source: &mut S,
    sink: &mut K,
    gate: &G,
) -> Status
    requires few_reads { S.faults source.old < 2 ^ 64 - 1 }
    requires few_writes { K.faults sink.old < 2 ^ 64 - 1 }
    requires readable { S.can_read source.old }

    ensures answer { AnswersCall (call_in arguments) result
        (source_change S.left S.faults source.old source.new) (sink_change K.written K.faults sink.old sink.new) }

    // An argument that is no text is a faulty command line.
    ensures no_text { HasNoText arguments → result ≡ Status.Usage }
{
    let words = match words_of(alloc, arguments) {
        Ok(words) => words,
        Err(status) => return status,
    };
    let Ok(texts) = texts_of(alloc, &words) else {
        return Status::NoMemory;
    };
    run_words(rt, alloc, &texts, source, sink, gate)
}
