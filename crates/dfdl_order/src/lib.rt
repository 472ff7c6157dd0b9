// An order of components in which each stands behind its parts.
//
// Components of a schema refer to others: a group to the elements and groups in it, a type to its base, a format to
// the formats that it takes in. A component that reaches itself has no meaning. Where none does, all that is defined
// by recursion on parts is computed in one loop along an order, once for each component.
#![tactic(auto)]

mod fault;
pub mod laws;
mod order;
mod recursive;
mod search;
#[cfg(test)]
mod tests;
mod uses;

pub use fault::OrderFault;
pub use order::{Order, order_of};
pub use uses::Uses;
