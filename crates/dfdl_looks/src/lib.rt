//! Programs that look at the bytes of the data one after another: what they come to over whole data, what they come to
//! over the bytes that a window holds, and that these agree.
//!
//! The contracts cite `ask` (`specs/Asks.antt`) over `seen_in` (`specs/Looks.antt`) for whole data and over `seen_at` of
//! dfdl_bits for a window, with the looks that it costs, a `Tally` (`specs/Tallies.antt`).
#![tactic(auto)]

pub mod laws;
