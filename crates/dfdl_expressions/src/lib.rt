//! DFDL expressions, compiled: nodes in a list, each with its operands before it, and the paths that
//! they ask for.
//!
//! The contracts cite `IsExpression` of specs/Nodes.antt, which says which lists of nodes are
//! expressions. What an expression means, dfdl_expression_eval says. It serves the chapter 'DFDL
//! Expression Language'.
#![tactic(auto)]

pub mod expression;
pub mod node;
pub mod operands;
pub mod operator;
pub mod path;

pub use dfdl_operators::Relation;
pub use expression::{Expression, build};
pub use node::Node;
pub use operands::Operands;
pub use operator::{BinaryOperator, Extent, Question, UnaryOperator, Unit};
pub use path::{Path, Step, StepList};

#[cfg(test)]
mod tests;
