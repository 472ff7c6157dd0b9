//! The text of an expression, the grammar of 'DFDL Expression Language'.
//!
//! `check` tells whether a text is an expression by the grammar in `specs/Syntax.antt`, whose tokens are spelled as
//! `specs/Tokens.antt` says and are 1,000 at most, and refuses a text at the first byte at which no expression can go on.
#![tactic(auto)]

mod checking;
mod class;
pub mod fault;
mod kind;
pub mod laws;
mod mark;
mod piece;
mod reader;
mod standing;
#[cfg(test)]
mod tests;

pub use checking::check;
pub use fault::ExpressionFault;
pub use kind::Kind;
