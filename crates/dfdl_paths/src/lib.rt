//! What the paths of expressions lead to among the elements of a document: the items of a path, how many there are, the value
//! of the only one, and the number of the innermost occurrence.
//!
//! The contracts cite `items` of specs/Leads.antt, over the elements of specs/Elements.antt, and specs/Values.antt. It serves the
//! chapter 'DFDL Expression Language'.
#![tactic(auto)]

mod course;
pub mod found;
mod index;
pub mod occurs;
pub mod place;
mod reach;
mod span;
mod tree;
pub mod value;
mod walk;

pub use dfdl_expressions::{Path, Step};
pub use dfdl_region::{Content, Node};
pub use dfdl_terms::{Items, NameNumbers, Terms};
pub use found::{Found, count_items, items, only_item};
pub use occurs::occurs_index;
pub use place::{Place, Start};
pub use value::value_of_item;

#[cfg(test)]
mod tests;
