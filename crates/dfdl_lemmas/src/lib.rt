//! Definitions and lemmas on truth values, lists and numbers that several crates cite.
//!
//! A lemma stands here where two crates need it, and nowhere else. The crate speaks of nothing of DFDL, and it has no
//! calls that run.
#![tactic(auto)]
