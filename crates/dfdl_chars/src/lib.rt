// Characters of the data: what stands at a place in an encoding, read by looks through a window, and the bytes of
// a character. The contracts cite `decoded_at` of specs/Decoding.antt and `encoded_of` of specs/Encodings.antt.
// It serves the chapter 'Properties Common to both Content and Framing' of the DFDL 1.0 specification, GFD.240.
#![tactic(auto)]

pub mod decode;
pub mod encoded;
pub mod laws;
pub mod run;
mod sequences;
pub mod text;
mod utf16;
mod utf8;

pub use decode::{Chars, decode_at};
pub use dfdl_forms::Encoding;
pub use encoded::{NoSuchChar, encode, width_in};
pub use run::decode_run;
pub use text::{TextFault, encode_run};

#[cfg(test)]
mod run_tests;
#[cfg(test)]
mod tests;
