//! What the program says: the causes of its answers with their numbers and texts, the limits, the paths of elements, the
//! exit statuses, and the lines of standard error.
//!
//! A new cause is a variant of its enum, its number and its text, each in this crate alone, and a row of docs/ERRORS.md.
//! The contracts cite `specs/Causes.antt`, `specs/Paths.antt` and `specs/Lines.antt`. It serves 'DFDL Processing
//! Introduction', on errors.
#![tactic(auto)]

pub mod cause;
pub mod line;
pub mod place;
pub mod status;

pub use cause::{
    DocCause, InfosetCause, LimitCause, ParseCause, SchemaCause, UnparseCause, VariableCause,
};
pub use place::Place;
pub use status::Status;

#[cfg(test)]
mod tests;
