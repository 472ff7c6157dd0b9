// The adapters of the system: they tell nothing of content.
ghost use Rattle.std.specs.Prelude.{◌≡◌, ℕ, ◌+◌, ◌-◌, ◌^◌, ◌<◌, ◌≤◌, max, false, Some, None, Ok};
ghost use Rattle.std.specs.Prelude.{Err, length, IfOk, IfSome, OnErr, IsErr, IsErrOf, vec_len};
ghost use Rattle.dfdl_edge.specs.Files.{FileCounts};

use crate::loading::{Files, LoadFault};
use crate::reading::{Failed, Source};
use crate::whole::{SourceFault, read_to_limit};
use crate::writing::Sink;
use std::alloc::Global;
use std::fs::OpenFile;
use std::io::{Error, ErrorKind, Read, Write};
use std::marker::Model;
use std::{fs, rt};

/// A reader of the system as a source.
#[derive(Drop)]
pub struct StdSource<R: Read + Drop> {
    reader: R,
    failed: u64,
}

impl<R: Read + Drop> Model for StdSource<R> {
    ghost Value = { ℕ };

    ghost view = { λ s. s.failed };
}

impl<R: Read + Drop> StdSource<R> {
    /// A source of what the reader gives.
    pub fn new(reader: R) -> Self
        ensures { result ≡ 0 }
    {
        StdSource { reader, failed: 0 }
    }
}

impl<R: Read + Drop> Source for StdSource<R> {
    ghost seen = { λ s. record { left = None; faults = s } };

    fn read(&mut self, into: &mut [u8]) -> Result<usize, Failed> {
        let answer = read_once(&mut self.reader, into);
        if answer.is_err() {
            self.failed = self.failed.saturating_add(1);
        }
        answer
    }
}

// One read; one that a signal interrupts is tried again.
fn read_once<R: Read>(reader: &mut R, into: &mut [u8]) -> Result<usize, Failed>
    ensures { IfOk result (λ count. count ≤ length into.old) }
{
    for _ in 0..u64::MAX {
        if let Some(answer) = settled(reader.read(into)) {
            return answer;
        }
    }
    Err(Failed)
}

/// A writer of the system as a sink.
#[derive(Drop)]
pub struct StdSink<W: Write + Drop> {
    writer: W,
    failed: u64,
}

impl<W: Write + Drop> Model for StdSink<W> {
    ghost Value = { ℕ };

    ghost view = { λ s. s.failed };
}

impl<W: Write + Drop> StdSink<W> {
    /// A sink into the writer.
    pub fn new(writer: W) -> Self
        ensures { result ≡ 0 }
    {
        StdSink { writer, failed: 0 }
    }
}

impl<W: Write + Drop> Sink for StdSink<W> {
    ghost seen = { λ s. record { taken = None; faults = s } };

    fn write(&mut self, piece: &[u8]) -> Result<(), Failed> {
        let answer = write_whole(&mut self.writer, piece);
        if answer.is_err() {
            self.failed = self.failed.saturating_add(1);
        }
        answer
    }
}

// Writes all of the piece. A write that a signal interrupts is tried again; one that takes nothing
// has failed.
fn write_whole<W: Write>(writer: &mut W, piece: &[u8]) -> Result<(), Failed> {
    let mut rest = piece;
    for _ in 0..u64::MAX {
        if rest.is_empty() {
            return Ok(());
        }
        match settled(writer.write(rest)) {
            Some(Ok(count)) if count > 0 => rest = &rest[count..],
            Some(_) => break,
            None => {}
        }
    }
    Err(Failed)
}

/// Files of the system, by names that count from the current folder.
#[derive(Drop)]
pub struct DirFiles<'r, R: rt::Files> {
    runtime: &'r R,
    loads: u64,
    failed: u64,
}

impl<'r, R: rt::Files> Model for DirFiles<'r, R> {
    ghost Value = { FileCounts };

    ghost view = { λ f. record { loads = f.loads; failed = f.failed } };
}

impl<'r, R: rt::Files> DirFiles<'r, R> {
    /// The files that the runtime reaches.
    pub fn new(runtime: &'r R) -> Self
        ensures { result ≡ record { loads = 0; failed = 0 } }
    {
        DirFiles {
            runtime,
            loads: 0,
            failed: 0,
        }
    }
}

impl<'r, R: rt::Files> Files for DirFiles<'r, R> {
    ghost seen = { λ f. record {
      content = λ _. None;
      is_missing = λ _. false;
      last_failed = None;
      loads = f.loads;
      faults = f.failed;
    } };

    fn load(&mut self, alloc: Global, name: &str, most: usize) -> Result<Vec<u8>, LoadFault> {
        self.loads = self.loads.saturating_add(1);
        let answer = load_file(alloc, self.runtime, name, most);
        if let Err(LoadFault::Failed) = answer {
            self.failed = self.failed.saturating_add(1);
        }
        answer
    }
}

// The bytes of a file.
fn load_file<R: rt::Files>(
    alloc: Global,
    runtime: &R,
    name: &str,
    most: usize,
) -> Result<Vec<u8>, LoadFault>
    ensures fits { IfOk result (λ v. vec_len v ≤ most) }
    ensures larger { (size : ℕ) → IsErrOf result (LoadFault.TooLarge size) → most < size }
{
    let file = fs::open(runtime, name).map_err(|_| LoadFault::Failed)?;
    let size = file.metadata().map_err(|_| LoadFault::Failed)?.len();
    let mut source = StdSource::new(file);
    handed_on(read_to_limit(alloc, &mut source, most as u64), size, most)
}

// What the reading of a file comes to. A file past the limit has the size that the system tells of
// it, or else one that is just past.
fn handed_on(
    read: Result<Vec<u8>, SourceFault>,
    size: u64,
    most: usize,
) -> Result<Vec<u8>, LoadFault>
    requires { IsErrOf read SourceFault.TooLarge → most < 2 ^ 63 }
    ensures ok { IfOk read (λ bytes. result ≡ Ok bytes) }
    ensures failed { IsErrOf read SourceFault.Failed → result ≡ Err LoadFault.Failed }
    ensures too_large { IsErrOf read SourceFault.TooLarge →
        result ≡ Err (LoadFault.TooLarge (max size (most + 1))) }
    ensures out_of_memory { IsErrOf read SourceFault.OutOfMemory
        → result ≡ Err LoadFault.OutOfMemory }
{
    match read {
        Ok(bytes) => Ok(bytes),
        Err(SourceFault::Failed) => Err(LoadFault::Failed),
        Err(SourceFault::TooLarge) => Err(LoadFault::TooLarge {
            size: size.max(most as u64 + 1),
        }),
        Err(SourceFault::OutOfMemory) => Err(LoadFault::OutOfMemory),
    }
}

// What one call of the system came to; `None` where a signal has interrupted it, so that it is
// tried again.
fn settled(answer: Result<usize, Error>) -> Option<Result<usize, Failed>>
    ensures ok { IfOk answer (λ count. result ≡ Some (Ok count)) }
    ensures failed { OnErr answer (IfSome result (λ settled. IsErr settled)) }
{
    match answer {
        Ok(count) => Some(Ok(count)),
        Err(fault) if is_interrupted(&fault) => None,
        Err(_) => Some(Err(Failed)),
    }
}

fn is_interrupted(fault: &Error) -> bool {
    fault.kind() == ErrorKind::Interrupted
}
