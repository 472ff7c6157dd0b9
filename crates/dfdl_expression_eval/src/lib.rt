//! The evaluation of DFDL expressions in an environment that answers for items, variables and
//! lengths, and in which some of these may not be known yet.
//!
//! The contract of `eval` cites `meaning` of specs/Meanings.antt: an expression asks one question
//! after another, and comes to a value, a fault, or a wait for what isn't known. It serves the
//! chapter 'DFDL Expression Language'.
#![tactic(auto)]

mod acting;
pub mod env;
pub mod evaluating;
mod functions;
pub mod laws;
pub mod listing;
mod places;
pub mod scratch;
mod stack;
mod turning;

pub use env::{Env, Evaluated, OutOfMemory};
pub use evaluating::eval;
pub use listing::Listing;
pub use scratch::Scratch;

#[cfg(test)]
mod tests;
