//! The compiled form of an expression, as 'DFDL Expression Language' has it.
//!
//! `resolve` gives the types of an expression and its nodes in the form that is evaluated, or what is wrong in it.
//! `specs/Compiling.antt` says which nodes a tree has: operands stand before what they are operands of, and a path with its steps and
//! indexes, and a call with its arguments, are one node. What is wrong in an expression, dfdl_expression_types says.
#![tactic(auto)]

mod calls;
mod compiling;
mod literals;
mod memory;
mod operand;
mod operators;
mod resolving;
mod route;
#[cfg(test)]
mod tests;

pub use resolving::{Resolved, resolve};
