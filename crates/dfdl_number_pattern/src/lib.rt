//! The number patterns of 'The DFDL Number Pattern'.
//!
//! `read_pattern` reads a pattern by the grammar in `specs/Pattern.antt`, and refuses a text at the first byte at which
//! no pattern can go on. The pattern that it answers is a form, `NumberPattern` of dfdl_forms. What a text is read as is
//! also a function, `pattern_read` of `specs/Read.antt`; that it tells the one pattern that the text spells is a law.
#![tactic(auto)]

mod affix;
mod digits;
pub mod fault;
pub mod laws;
mod quote;
mod reader;
mod reading;

pub use dfdl_forms::{NumberForm, NumberPattern, Point, Rounding};
pub use fault::PatternFault;
pub use reading::read_pattern;
