// Runs over a schema and data in memory.
use crate::case::{Case, Ended, Trial};
use dfdl_edge::{MemoryFile, MemoryFiles, MemoryPatterns, MemorySink, MemorySource};
use dfdl_run::{FirstReady, run};
use std::alloc::{AllocError, Global};

// How a run ends over a case's schema and data, which is done so.
pub(crate) fn run_case(alloc: Global, case: &Case, trial: &Trial) -> Result<Ended, AllocError> {
    let mut held = Vec::new(alloc);
    held.push(MemoryFile {
        name: String::from_str(alloc, "s.xsd")?,
        bytes: case.schema.as_bytes().to_vec(alloc)?,
    })?;
    let mut files = MemoryFiles::new(held, Vec::new(alloc));
    let mut source = MemorySource::new(
        case.data.as_slice().to_vec(alloc)?,
        trial.cuts.as_slice().to_vec(alloc)?,
        trial.failing_reads.as_slice().to_vec(alloc)?,
    );
    let mut out = MemorySink::new(alloc, trial.failing_writes.as_slice().to_vec(alloc)?);
    let mut notes = MemorySink::new(alloc, Vec::new(alloc));
    let mut patterns = MemoryPatterns::new(trial.failing_builds.as_slice().to_vec(alloc)?);
    let status = run(
        alloc,
        &trial.words,
        &mut files,
        &mut source,
        &mut out,
        &mut notes,
        &mut FirstReady { picks: 0 },
        &mut patterns,
    );
    Ok(Ended {
        status: u64::from(status),
        out: text_of(alloc, &out)?,
        notes: text_of(alloc, &notes)?,
    })
}

// What a sink has taken, with a sign in the place of what isn't UTF-8.
fn text_of(alloc: Global, sink: &MemorySink) -> Result<String, AllocError> {
    String::from_utf8_lossy(alloc, sink.taken())
}
