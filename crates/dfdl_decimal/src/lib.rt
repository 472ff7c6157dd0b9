//! Exact arithmetic on decimal numbers of at most 38 digits, of which at most 255 are fraction
//! digits.
//!
//! `specs/Decimal.antt` says what a decimal number is and which form `Fixed` has for it,
//! `specs/Arithmetic.antt` what sums, products, quotients and the order are: the methods of `Fixed`
//! answer by them. Decimals of 'The DFDL Information Set' and the numbers of expressions are
//! carried so.
#![tactic(auto)]

mod arithmetic;
mod division;
pub mod fixed;
pub mod laws;
mod product;
mod quotient;

pub use fixed::{Digits, DivFault, Fixed, Overflow, shortest, without_zeros};

#[cfg(test)]
mod tests;
