//! The operators and functions of DFDL expressions on values: sums, products, quotients, the order of
//! values, texts, constructors.
//!
//! A number in an expression is a whole number or a decimal, and means an exact number over a power
//! of ten. specs/Numbers.antt says which number a value is and which value carries a number,
//! specs/Operators.antt what each operator answers, specs/Comparisons.antt how values compare,
//! specs/Constructors.antt what the constructors of types give, specs/TextFunctions.antt and
//! specs/Places.antt what the functions on texts do: the contracts cite these. It serves the chapter
//! 'DFDL Expression Language'.
#![tactic(auto)]

pub mod constructors;
mod division;
pub mod fault;
mod held;
mod number;
pub mod operators;
pub mod order;
mod product;
mod quotient;
mod remainder;
mod rounding;
pub mod substrings;
mod sum;
pub mod texts;
mod zeros;

pub use constructors::construct;
pub use fault::{FunctionFault, OperatorFault};
pub use operators::{
    absolute, add, ceiling, divide, floor, integer_divide, modulo, multiply, negate, subtract,
};
pub use order::{Relation, compare};
pub use substrings::{substring, substring_from};
pub use texts::{concat, contains, ends_with, starts_with, string_length, text_in};

#[cfg(test)]
mod tests;
