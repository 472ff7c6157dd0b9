//! The literals that end or divide data: the longest text of open lists of them.
//!
//! `specs/Lists.antt` says which lists are open and which bytes are texts of them, and the contracts cite it. It serves the
//! chapters 'DFDL Syntax Basics' and 'Framing' of the DFDL 1.0 specification, GFD.240.
#![tactic(auto)]

mod beginning;
mod candidate;
mod filling;
mod finding;
pub mod firsts;
mod following;
pub mod found;
mod hit;
pub mod laws;
mod left;
pub mod longest;
mod mark;
pub mod markup;
pub mod naming;
pub mod open_lists;
pub mod refusal;
mod step;
mod telling;
mod verdict;

pub use dfdl_forms::{Encoding, Literals, Piece};
pub use firsts::FirstBytes;
pub use found::{Found, Glance};
pub use longest::Candidates;
pub use markup::Markup;
pub use naming::first_bytes;
pub use open_lists::OpenLists;
pub use refusal::Refusal;

#[cfg(test)]
mod tests;
