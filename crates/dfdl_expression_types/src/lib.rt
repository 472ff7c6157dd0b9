//! The types of an expression, and where its paths lead, as 'DFDL Expression Language' has it.
//!
//! `check_types` gives the types that an expression's value may have, or what is wrong in it: types that don't fit, a path that leads
//! to no declared element, or a variable that isn't declared. `specs/Notes.antt` says what each part of an expression is, by its
//! operands, `specs/Paths.antt` where steps lead, and `specs/Callees.antt` what functions take and give.
#![tactic(auto)]

mod callee;
mod checking;
mod fault;
mod naming;
mod note;
mod noting;
mod operating;
mod places;
mod statics;
#[cfg(test)]
mod tests;
mod types;
mod words;

pub use callee::Callee;
pub use checking::check_types;
pub use fault::TypeFault;
pub use naming::callee_of;
pub use statics::{Element, Place, Statics, Variable, name_number, variable_named};
pub use types::{Types, ValueType};
pub use words::{local_of, word};
