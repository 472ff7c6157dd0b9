//! The text of strings and booleans in the data.
//!
//! `specs/Padding.antt` says what a text is trimmed, padded and cut to: `trim`, `pad` and `cut`
//! answer by it. `specs/Truths.antt` says which boolean a text is and how one is written:
//! `read_truth` and `write_truth` answer by it. It serves 'Simple Types'.
#![tactic(auto)]

pub mod laws;
mod padding;
mod truth;

pub use dfdl_forms::{Justify, NoTruth, PadForm, PlainTexts, TruthForm};
pub use padding::{TooLong, cut, pad, trim};
pub use truth::{read_truth, truth_length, write_truth};

#[cfg(test)]
mod tests;
