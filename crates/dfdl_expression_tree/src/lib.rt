//! The tokens and the syntax tree of an expression, as 'DFDL Expression Language' has it.
//!
//! `tokens` gives the tokens of a text, whose grammar is in dfdl_expression_text, and `parse` the tree of them.
//! `specs/TokenLists.antt` says what a token has, and `specs/Trees.antt` which operands an operator has. Names, numbers and texts
//! stand in a tree as the bytes by which they are written: what they mean is no matter of syntax.
#![tactic(auto)]

mod building;
mod bytes;
pub mod laws;
mod lexing;
mod moves;
mod node;
mod numbering;
mod pending;
mod piece;
mod quoting;
mod reading;
#[cfg(test)]
mod tests;
mod token;
mod words;

pub use dfdl_expression_text::{ExpressionFault, Kind};
pub use node::{Binary, Leaf, Node, Tree, Unary};
pub use quoting::unquoted;
pub use reading::{parse, tokens};
pub use token::{Form, Operator, Span, Token};
