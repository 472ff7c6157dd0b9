//! The outside: traits for the bytes that come in, the bytes that go out, files by name and the
//! building of patterns, with implementations in memory and adapters of the system. Each trait
//! counts its faults, and a call answers a fault only where its count rose (`Rose` of
//! specs/Faults); bytes are exact where an implementation tells them. It serves 'DFDL Processing
//! Introduction', where a processor meets its data, its schema documents and its diagnostics, and
//! 'DFDL Regular Expressions'.
#![tactic(auto)]

mod building;
mod calls;
mod loading;
mod memory_bytes;
mod memory_files;
mod patterns_of_regex;
mod reading;
mod system;
mod whole;
mod words;
mod writing;

pub use building::{PatternRefusal, Patterns};
pub use loading::{Files, LoadFault};
pub use memory_bytes::{MemorySink, MemorySource};
pub use memory_files::{MemoryFile, MemoryFiles};
pub use patterns_of_regex::{MemoryPatterns, RegexPatterns};
pub use reading::{Failed, Source};
pub use system::{DirFiles, StdSink, StdSource};
pub use whole::{SourceFault, read_to_limit};
pub use words::words_of;
pub use writing::Sink;

#[cfg(test)]
mod tests;
