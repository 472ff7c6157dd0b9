//! Variables of DFDL: their definitions and values, and their instances while data is parsed, 'DFDL Expression Language'.
//!
//! `VarValues` is a list of pairs of a variable's number and a value, and its contracts see it as
//! that list.
#![tactic(auto)]

mod instances;
mod journal;
mod keeping;
pub mod laws;
pub mod values;
mod vars;

pub use instances::{VarFault, VarMark};
pub use values::{VarDef, VarValues};
pub use vars::{Full, Vars};

#[cfg(test)]
mod tests;
