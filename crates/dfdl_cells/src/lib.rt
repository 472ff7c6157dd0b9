//! The unknowns of unparsing and their equations ('DFDL Processing Introduction').
//!
//! An infoset is laid as pieces in data order, and what they depend on are unknowns: values, occurrences, lengths, starts and the
//! bits of the pieces themselves. Each unknown has one equation, a tree that asks for other unknowns (`specs/Equations.antt`, over `specs/Lengths.antt`,
//! `specs/Places.antt` and `specs/Separators.antt`); what they come to is their least solution (dfdl_suspend). Evaluated are places, whose contracts cite
//! `Answers` (`specs/Answers.antt`).
#![tactic(auto)]

pub mod asking;
pub mod book;
pub mod cell;
pub mod complex;
pub mod laws;
pub mod passing;
pub mod piece;
pub mod placing;
pub mod step;
#[cfg(test)]
mod tests;

pub use asking::{Stop, Told};
pub use book::{Book, NumberList};
pub use cell::{Cell, CellList};
pub use complex::{Complex, StepList};
pub use dfdl_suspend::CellId;
pub use dfdl_terms::Writing;
pub use piece::{Bound, Earlier, Piece, SlotEnd, Stands};
pub use placing::{bit_of, place_of};
pub use step::{Mark, Place, Step};
