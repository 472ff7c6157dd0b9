//! The characters of a text in the data: read by looks, up to the end of its box or over so many characters.
//!
//! The contracts cite `text_at` (`specs/Texts.antt`), a program over looks as dfdl_looks has them, over `unit_at`
//! (`specs/Units.antt`), which comes to what dfdl_chars decodes at a place. It serves the chapters 'Properties Common to
//! both Content and Framing' and 'Simple Types' of the DFDL 1.0 specification, GFD.240.
#![tactic(auto)]

pub mod extent;
pub mod found;
pub mod laws;
mod spot;
pub mod text;

pub use extent::Extent;
pub use found::{Found, Glance};
pub use text::read_text;

#[cfg(test)]
mod tests;
