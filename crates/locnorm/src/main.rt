//! Runs the program over the standard streams.
#![tactic(auto)]

use norm_core::run_alone;
use norm_outside::{StdSink, StdSource};
use std::process::ExitCode;

fn main(rt: HostRuntime) -> ExitCode {
    let alloc = rt.alloc();
    let words: Vec<String> = match std::env::args(&rt) {
        Ok(words) => match words.skip(1).collect(alloc) {
            Ok(words) => words,
            Err(_) => return ExitCode::from(30),
        },
        // Words that are no text are a faulty command line, as no words are.
        Err(_) => Vec::new(alloc),
    };
    let mut source = StdSource::new(rt.stdin());
    let mut sink = StdSink::new(rt.stdout());
    ExitCode::from(run_alone(alloc, words.as_slice(), &mut source, &mut sink))
}
