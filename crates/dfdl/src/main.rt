//! The program `dfdl`: it makes the real objects and calls `run`, whose contract says what it does.
//! Its words are those behind its name, the data is standard input, the answer is standard output
//! and the notes are standard error.
#![tactic(auto)]

use dfdl_edge::{DirFiles, RegexPatterns, Sink, StdSink, StdSource, words_of};
use dfdl_report::{Status, line};
use dfdl_run::{FirstReady, run};
use std::alloc::AllocError;
use std::process::ExitCode;

// The status of a run on the program's words.
fn start(rt: &HostRuntime) -> Result<u8, AllocError> {
    let alloc = rt.alloc();
    let words = words_of(alloc, rt)?;
    let mut files = DirFiles::new(rt);
    let mut source = StdSource::new(rt.stdin());
    let mut out = StdSink::new(rt.stdout());
    let mut notes = StdSink::new(rt.stderr());
    let mut chooser = FirstReady { picks: 0 };
    let mut patterns = RegexPatterns::new();
    Ok(run(
        alloc,
        &words,
        &mut files,
        &mut source,
        &mut out,
        &mut notes,
        &mut chooser,
        &mut patterns,
    ))
}

// The words of the program take memory: without it the run ends as one that has none.
fn main(rt: HostRuntime) -> ExitCode {
    match start(&rt) {
        Ok(status) => ExitCode::from(status),
        Err(_) => {
            let _ = StdSink::new(rt.stderr()).write(line::of_memory().as_bytes());
            ExitCode::from(Status::OutOfMemory.number())
        }
    }
}
