//! Says why a job has its verdict, and draws its run.
#![tactic(auto)]

mod answers;
mod calls;
mod clash_text;
mod data;
mod data_waits;
mod drawings;
mod explaining;
mod judged;
mod judging;
mod line_texts;
mod other_texts;
mod progress;
mod refusal_lines;
mod words;

use calls::answer_arguments;
use explain_calls::Ends;
use std::env;
use std::io::IsTerminal;
use std::process::ExitCode;

/// Explains the job that the words of the command line name. The answer goes to standard output, and what is wrong with words or
/// files to standard error.
fn main(rt: HostRuntime) -> ExitCode {
    let error = rt.stderr();
    let ends = Ends {
        rt: &rt,
        error: &error,
        alloc: rt.alloc(),
        shows_progress: error.is_terminal(),
    };
    ExitCode::from(answer_arguments(&ends, env::args(&rt)))
}
