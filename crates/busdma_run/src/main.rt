//! The program hands its words and its standard streams to the command.
#![tactic(auto)]

use busdma_cmd::{is_run_call, plain_program, program, program_words};
use io_edge::{StdSink, StdSource};
use std::io;
use std::process::ExitCode;

fn main(rt: HostRuntime) -> ExitCode {
    let words = program_words(&rt).ok();
    let mut source = StdSource::new(rt.reader());
    let mut sink = StdSink::new(io::writer(&rt));
    let mut errors = StdSink::new(rt.stderr());
    let alloc = rt.alloc();
    // Only a run on threads may wait, so every other command is made by a call that cannot wait.
    let status = if is_run_call(&words) {
        program(&rt, alloc, words, &mut source, &mut sink, &mut errors)
    } else {
        plain_program(alloc, words, &mut source, &mut sink, &mut errors)
    };
    ExitCode::from(status)
}
