ghost use Rattle.std.specs.Prelude.{◌≡◌, IfOk, string_bytes};
ghost use Rattle.dfdl_run.specs.Said.{fault_in};
ghost use Rattle.dfdl_run.specs.Answer.{answer_note, answer_status, failed_note, is_written, said_note};

use dfdl_pieces::PieceList;
use dfdl_report::{InfosetCause, ParseCause, Status, UnparseCause, VariableCause, line};
use dfdl_value::TextValue;
use std::alloc::{AllocError, Global};

/// What the data of a run comes to.
#[derive(Debug, Drop)]
pub enum Answer {
    /// The line of the infoset; less than a byte is left.
    Done {
        line: TextValue,
    },
    /// The line of the infoset; data is left from this bit on.
    LeftOver {
        line: TextValue,
        bit: u64,
    },
    /// A processing error that began at this bit, in the element of this path.
    Failed {
        cause: ParseCause,
        bit: u64,
        path: TextValue,
        /// What the schema says of it, where it is a test that fails.
        message: Option<TextValue>,
    },
    /// A variable that can't be set at this bit, in the element of this path.
    Variable {
        cause: VariableCause,
        bit: u64,
        path: TextValue,
    },
    /// The data of an infoset, in the pieces that are written.
    Unparsed {
        pieces: PieceList,
    },
    /// An unparse error in the element of this path, behind these pieces.
    NotUnparsed {
        pieces: PieceList,
        cause: UnparseCause,
        path: TextValue,
    },
    /// The infoset is refused in the element of this path.
    NoInfoset {
        cause: InfosetCause,
        path: TextValue,
    },
}

impl Answer {
    pub fn status(&self) -> Status
        ensures { result ≡ answer_status self.now }
    {
        match self {
            Answer::Done { .. } => Status::Done,
            Answer::Unparsed { .. } => Status::Done,
            Answer::Failed { .. } => Status::ProcessingError,
            Answer::Variable { .. } => Status::SchemaRefused,
            Answer::NotUnparsed { .. } => Status::UnparseError,
            Answer::LeftOver { .. } => Status::LeftOver,
            Answer::NoInfoset { .. } => Status::InfosetRefused,
        }
    }

    // The line on the notes; none is an empty text.
    pub(crate) fn note(&self, alloc: Global) -> Result<String, AllocError>
        ensures { IfOk result (λ note. string_bytes note ≡ answer_note self.now) }
    {
        match self {
            Answer::Done { .. } | Answer::Unparsed { .. } => Ok(String::new(alloc)),
            Answer::LeftOver { bit, .. } => line::of_left_over(alloc, *bit),
            Answer::Failed {
                cause,
                bit,
                path,
                message,
            } => failed_note(alloc, *cause, *bit, path, message),
            Answer::Variable { cause, bit, path } => {
                line::of_variable(alloc, *cause, *bit, path.as_str())
            }
            Answer::NotUnparsed { cause, path, .. } => {
                line::of_unparse(alloc, *cause, path.as_str())
            }
            Answer::NoInfoset { cause, path } => line::of_infoset(alloc, *cause, path.as_str()),
        }
    }
}

// The line of a processing error.
fn failed_note(
    alloc: Global,
    cause: ParseCause,
    bit: u64,
    path: &TextValue,
    message: &Option<TextValue>,
) -> Result<String, AllocError>
    ensures { IfOk result (λ note. string_bytes note ≡ failed_note cause bit path.now message.now) }
{
    match fault_in(cause) {
        None => said_note(alloc, cause, bit, path, message),
        Some(fault) => line::of_fault(alloc, cause, bit, path.as_str(), fault),
    }
}

// The number of the reason for which an expression has no value, if one has none.
fn fault_in(cause: ParseCause) -> Option<u8>
    ensures { result ≡ fault_in cause }
{
    match cause {
        ParseCause::ExpressionFault { fault } => Some(fault),
        _ => None,
    }
}

// The line of a processing error, with what the schema says of it.
fn said_note(
    alloc: Global,
    cause: ParseCause,
    bit: u64,
    path: &TextValue,
    message: &Option<TextValue>,
) -> Result<String, AllocError>
    ensures { IfOk result (λ note. string_bytes note ≡ said_note cause bit path.now message.now) }
{
    match message {
        None => line::of_parse(alloc, cause, bit, path.as_str()),
        Some(message) => line::of_test(alloc, cause, bit, path.as_str(), message.as_str()),
    }
}
