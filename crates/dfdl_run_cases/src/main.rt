//! The program `dfdl_run_cases` tests whole runs in memory. It reads cases from standard input, one a
//! line, and runs each: as the case tells, with failures of reads, writes and builds of patterns, or
//! else by parsing its data whole and in pieces of 1, 2, 3 and 7 bytes. It tells each run that ends
//! otherwise than expected, and then how many cases differ.
#![tactic(auto)]

mod case;
mod running;

use case::{Case, CaseFault, Trial};
use dfdl_edge::{SourceFault, StdSource, read_to_limit};
use running::run_case;
use std::alloc::AllocError;
use std::io;
use std::process::ExitCode;
use thiserror::Error;

// The most bytes that the cases may have together.
const MOST_INPUT: u64 = 1 << 20;

// The sizes of the pieces, in bytes; 0 is whole.
const SIZES: [usize; 5] = [0, 1, 2, 3, 7];

// Why the cases were not tried to their end.
#[derive(Debug, Drop, Error)]
enum Fault {
    #[error("standard input: {0}")]
    Input(#[from] SourceFault),
    #[error("behind {0} cases: {1}")]
    Case(usize, CaseFault),
    #[error("standard output: {0}")]
    Output(#[from] io::Error),
    #[error("out of memory")]
    OutOfMemory,
}

impl From<AllocError> for Fault {
    fn from(_: AllocError) -> Fault {
        Fault::OutOfMemory
    }
}

// The cases on standard input.
fn read_all(rt: &HostRuntime) -> Result<Vec<Case>, Fault> {
    let alloc = rt.alloc();
    let bytes = read_to_limit(alloc, &mut StdSource::new(rt.stdin()), MOST_INPUT)?;
    let mut cases = Vec::new(alloc);
    for line in bytes.split(|byte| *byte == b'\n') {
        if line.is_empty() {
            continue;
        }
        let read = cases.len();
        let case = Case::read(alloc, line).map_err(|fault| Fault::Case(read, fault))?;
        cases.push(case).map_err(|_| Fault::OutOfMemory)?;
    }
    Ok(cases)
}

// Tries the cases on standard input; whether none differs from what it expects.
fn try_all(rt: &HostRuntime) -> Result<bool, Fault> {
    let cases = read_all(rt)?;
    let mut differ = Vec::new(rt.alloc());
    for (number, case) in cases.iter().enumerate() {
        if !agrees(rt, number, case)? {
            differ.push(number).map_err(|_| Fault::OutOfMemory)?;
        }
    }
    println!(rt; "{} cases: {} differ", cases.len(), differ.len())?;
    Ok(differ.is_empty())
}

// Whether the case ends as expected, as it is told to be run or however its data are cut.
fn agrees(rt: &HostRuntime, number: usize, case: &Case) -> Result<bool, Fault> {
    if let Some(trial) = &case.told {
        return ends_so(rt, number, case, trial);
    }
    let mut all = true;
    for size in SIZES {
        let trial = Trial::in_pieces(rt.alloc(), size)?;
        all = ends_so(rt, number, case, &trial)? && all;
    }
    Ok(all)
}

// Whether this run of a case ends as expected. How it ends otherwise is told.
fn ends_so(rt: &HostRuntime, number: usize, case: &Case, trial: &Trial) -> Result<bool, Fault> {
    let ended = run_case(rt.alloc(), case, trial)?;
    let same = ended == case.expected;
    if !same {
        println!(rt;
            "case {number}, from 0, reads of {:?}: {ended:?}",
            trial.cuts
        )?;
    }
    Ok(same)
}

fn main(rt: HostRuntime) -> ExitCode {
    match try_all(&rt) {
        Ok(true) => ExitCode::SUCCESS,
        Ok(false) => ExitCode::FAILURE,
        Err(fault) => {
            let _ = eprintln!(rt; "{fault}");
            ExitCode::FAILURE
        }
    }
}
