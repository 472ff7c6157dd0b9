// The writing of a document while its events come.
//
// A `Document` lays its events into pieces of bits and into equations of unknowns, of which each piece's bits are one. An
// `Unparser` takes one event after another, computes all that can be known of them, in the order that a `Chooser` picks, and
// hands the known front to a sink: the whole bytes of the pieces before the first one whose bits aren't known. What a
// document is written as, and which fault is told, doesn't depend on that order. It serves 'DFDL Processing Introduction'.
#![tactic(auto)]

pub mod document;
mod front;
mod running;
pub mod script;
mod stepping;
pub mod stop;
pub mod unparser;
mod writing;

pub use document::Document;
pub use script::{Line, Script};
pub use stop::{End, Refusal, Stop};
pub use unparser::Unparser;

#[cfg(test)]
mod choosers;
#[cfg(test)]
mod tests;
