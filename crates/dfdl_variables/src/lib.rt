//! The variables that the documents of a schema define: each with its name, its type, the value that it begins with, and what is
//! wrong with its definition; and which of them a name refers to.
//!
//! A definition that has no name, or whose name is none or an earlier one's, is refused by the rules of loading (dfdl_components), and so is
//! a type that isn't written as a name; none of it is looked at here. Contracts cite `specs/Variables.antt`, `specs/Types.antt`,
//! `specs/Defaults.antt` and `specs/Numbers.antt`. The chapter is 'Syntax of DFDL Annotation Elements'.
#![tactic(auto)]

mod defaults;
mod defining;
mod malformed;
mod numbering;
mod reading;
mod types;
mod variable;

pub use defining::variables_of;
pub use malformed::Malformed;
pub use numbering::variable_named;
pub use variable::Declared;
