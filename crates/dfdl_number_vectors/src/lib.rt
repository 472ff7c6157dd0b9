//! Tests of dfdl_packed and dfdl_number_text over numbers of other programs: tables of texts, and random numbers of which
//! slow bodies, digit by digit, say the same as the calls.
//!
//! There are tests alone here, and no crate stands on this one. They serve 'Simple Types' and 'The DFDL Number Pattern'.
#![tactic(auto)]

#[cfg(test)]
mod packed_tests;
#[cfg(test)]
mod read_tests;
#[cfg(test)]
mod slow_digits;
#[cfg(test)]
mod test_forms;
#[cfg(test)]
mod text_tests;
#[cfg(test)]
mod write_tests;
#[cfg(test)]
mod zoned_tests;
