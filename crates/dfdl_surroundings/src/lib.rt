//! What stands around an expression that is evaluated while data is parsed: what paths lead to among the elements so far, how long
//! elements are, the number of the innermost occurrence, and the variables.
//!
//! The contracts cite `answer_in` and `read_in` of specs/Answers.antt, over the lists of specs/Around.antt. It serves the chapter 'DFDL
//! Expression Language'.
#![tactic(auto)]

mod document;
pub mod evaluating;
pub mod laws;
mod lengths;
mod surroundings;
pub mod taking;
mod variables;

pub use document::Document;
pub use evaluating::evaluate;
pub use taking::{take, take_count, take_text, take_truth};

#[cfg(test)]
mod tests;
