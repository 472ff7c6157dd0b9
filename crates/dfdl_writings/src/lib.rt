//! What the value of a simple element is written as: its characters, what they are escaped, cut and padded to, their bytes in an
//! encoding, and the bits of a binary value; and what a delimiter and a length prefix are written as; or the one cause why there is no
//! such writing.
//!
//! The contracts cite `characters` (`specs/Characters.antt`), `content` and `value_bits` (`specs/Contents.antt`), `nil_content`
//! (`specs/Nils.antt`), `binary` and `binary_bits` (`specs/Binary.antt`), `delimiter` (`specs/Delimiters.antt`), and `units_of` and
//! `prefix` (`specs/Prefixes.antt`). It serves the chapters 'Simple Types' and 'Framing' of the DFDL 1.0 specification, GFD.240.
#![tactic(auto)]

mod binary;
mod calls;
mod characters;
mod contents;
mod cuts;
mod delimiter;
mod encoding;
mod fault;
mod fields;
mod form;
#[cfg(test)]
mod framing_tests;
pub mod laws;
mod lengths;
mod literal;
mod nils;
mod octets;
mod paddings;
mod prefixes;
#[cfg(test)]
mod tests;
mod zoned;

pub use calls::{
    binary_bits, binary_of, characters_of, content_of, delimiter_of, integer_of, nil_bits,
    nil_octets_of, nil_of, octets_of, packed_of, prefix_of, truth_of, value_bits,
};
pub use dfdl_terms::WritingForm;
pub use fault::{Unwritten, WritingFault};
pub use form::{Room, Written, room_of};
pub use prefixes::units_of;
