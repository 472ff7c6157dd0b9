//! The equations of unparsing as they are evaluated over what is known, and the bits of the pieces ('DFDL Processing Introduction').
//!
//! `answer` evaluates the equation of an unknown, `equation_in` of dfdl_cells, and puts the value that it gives. `write_piece` tells the bits of a
//! piece that are known (`specs/Written.antt`), with its fill as a byte, a place and a count, and `join` makes bytes of them. Both go by a `Plan`, and
//! ask for a book that `IsSound`.
#![tactic(auto)]

pub mod causes;
mod contents;
mod counts;
pub mod evaluating;
pub mod form;
pub mod joining;
pub mod laws;
mod lengths;
mod piece_bits;
mod pieces;
pub mod plan;
mod prefixes;
mod separating;
mod writing;
mod writings;

pub use evaluating::answer;
pub use form::Form;
pub use joining::{Joined, join};
pub use piece_bits::PieceBits;
pub use plan::Plan;
pub use writing::write_piece;

#[cfg(test)]
mod tests;
