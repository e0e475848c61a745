//! Checks the part programs of a multi-channel turn-mill machine for clashes.
#![tactic(auto)]

mod arguments;
mod check;
#[cfg(test)]
mod fault_tests;
mod judging;
mod laws;
mod running;
#[cfg(test)]
mod running_tests;
mod sample;
mod words;

use arguments::run_arguments;
use edge_io::{OpenGate, StdSink, StdSource};
use std::env;
use std::process::ExitCode;

/// Judges the job on standard input as the words of the command line say, writes the answer to
/// standard output, and ends with the number of its status. Nothing goes to standard error.
///
/// The language allows no contract here. What the program does is that of `run_arguments`.
fn main(rt: HostRuntime) -> ExitCode {
    let mut source = StdSource::new(rt.stdin());
    let mut sink = StdSink::new(rt.stdout());
    let status = run_arguments(
        &rt,
        rt.alloc(),
        env::args(&rt),
        &mut source,
        &mut sink,
        &OpenGate,
    );
    ExitCode::from(status)
}
