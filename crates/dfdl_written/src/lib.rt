//! The statements of a schema as its documents write them, the calculations of values and the questions of lengths and of numbers of
//! occurrences among them: where each stands, its text, the prefixes in scope there, and the variables that it may name ('DFDL Schema
//! Component Model', on asserts, discriminators and variables; 'Calculated Values'; 'Lengths'; 'Arrays and Optional Elements';
//! 'Namespaces in XML 1.0').
//!
//! Contracts cite `specs/Prefixes.antt`, `specs/Variables.antt` and `specs/Noting.antt`.
#![tactic(auto)]

mod calculating;
mod expressions;
mod noted;
mod noting;
mod prefixes;
mod reading;
mod variables;
mod writing;

pub use noted::{Noted, Stated};
pub use noting::note;
pub use prefixes::{Prefixes, prefixes_at, prefixes_of};
pub use variables::{definitions, variables_by_name};
pub use writing::{namespaces_of, written_with};
