//! The patterns of elements whose length is what a regular expression matches.
//!
//! specs/Patterns.antt says which text is built of a pattern and what it matches in a text; contracts cite it. It serves 'DFDL
//! Core Properties', on lengths of kind pattern, and 'DFDL Regular Expressions'.
#![tactic(auto)]

mod matching;
mod patterns;

pub use matching::{LengthMatcher, PatternMatch};
pub use patterns::LengthPattern;

#[cfg(test)]
mod tests;
