//! The rows of schema components, once for each use: 'DFDL Schema Component Model' and 'DFDL Data Syntax Grammar'.
//!
//! Components are numbers, and each has parts that stand behind it in schema order. `rows_of` gives the rows of one of
//! them as the root: the rows of its parts first, and its own last, and with them the first refusal of a component that is
//! reached. Contracts cite `specs/Answers.antt`, which says when there are none: elements are nested too deep, or there are
//! too many rows. What components share is computed once.
#![tactic(auto)]

mod apart;
mod boxes;
mod component;
mod components;
mod depths;
mod fault;
mod framing;
mod idle;
mod last;
mod looking;
mod positions;
mod refusal;
mod refusals;
mod rows;
mod scopes;
mod sizes;
mod slot_sizes;
mod slots;
mod times;
mod walk;

pub use component::{
    BranchKey, BranchKeys, Component, ContentBox, Counted, Dispatch, LeafLength, Separated,
};
pub use components::{Components, are_of_one, have_delimiters, have_primitives, have_statements};
pub use fault::RowsFault;
pub use framing::has_framing;
pub use refusal::{Refusal, RefusedRow};
pub use rows::{LaidRows, rows_of, terms_from};
