// Binary integers, binary decimals and binary booleans: what value the number of a field is read as, and what
// number a value is written as. The contracts cite `integer_reading` and `integer_writing` (`specs/Integers.antt`),
// `truth_reading` and `truth_writing` (`specs/Truths.antt`). Serves 'Simple Types'.
#![tactic(auto)]

pub mod decimal;
mod fault;
mod integer;
pub mod laws;
mod signed;
mod truth;

pub use dfdl_forms::{BitTruthForm, IntForm, NoFit, NoTruth};
pub use fault::NotInType;
pub use integer::{read, write};
pub use truth::{read_truth, write_truth};

#[cfg(test)]
mod tests;
