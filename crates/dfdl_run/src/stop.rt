ghost use Rattle.std.specs.Prelude.{◌≡◌, IfOk, string_bytes};
ghost use Rattle.dfdl_run.specs.Answer.{stop_note, stop_status};

use dfdl_report::{DocCause, LimitCause, SchemaCause, Status, line};
use dfdl_value::TextValue;
use std::alloc::{AllocError, Global};

/// What stops a run before its data comes to anything.
#[derive(Debug, Drop)]
pub enum Stop {
    /// The words are no command: the first word, counted from 1, at which no command can go on.
    Usage {
        word: u64,
    },
    /// The file of this name was not loaded.
    FilesFailed {
        name: TextValue,
    },
    /// This document is refused at this byte.
    NoDocument {
        cause: DocCause,
        document: TextValue,
        at: u64,
    },
    /// The schema is refused at this byte of this document.
    Refused {
        cause: SchemaCause,
        document: TextValue,
        at: u64,
    },
    SourceFailed,
    /// The limit of this number was reached.
    Limit {
        cause: LimitCause,
        quantity: u64,
    },
    OutOfMemory,
}

impl Stop {
    pub fn status(&self) -> Status
        ensures { result ≡ stop_status self.now }
    {
        match self {
            Stop::Usage { .. } => Status::Usage,
            Stop::FilesFailed { .. } => Status::FilesFailed,
            Stop::NoDocument { .. } | Stop::Refused { .. } => Status::SchemaRefused,
            Stop::SourceFailed => Status::SourceFailed,
            Stop::Limit { .. } => Status::Limit,
            Stop::OutOfMemory => Status::OutOfMemory,
        }
    }

    // The line on the notes. That of want of memory takes memory as any other.
    pub(crate) fn note(&self, alloc: Global) -> Result<String, AllocError>
        ensures { IfOk result (λ note. string_bytes note ≡ stop_note self.now) }
    {
        match self {
            Stop::Usage { word } => line::of_usage(alloc, *word),
            Stop::FilesFailed { name } => line::of_files(alloc, name.as_str()),
            Stop::NoDocument {
                cause,
                document,
                at,
            } => line::of_document(alloc, *cause, document.as_str(), *at),
            Stop::Refused {
                cause,
                document,
                at,
            } => line::of_schema(alloc, *cause, document.as_str(), *at),
            Stop::SourceFailed => String::from_str(alloc, line::of_source()),
            Stop::Limit { cause, quantity } => line::of_limit(alloc, *cause, *quantity),
            Stop::OutOfMemory => String::from_str(alloc, line::of_memory()),
        }
    }
}
