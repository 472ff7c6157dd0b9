// Bits and bytes of the data: the number of a range of bits under each bit order and byte order, and the
// window through which a parser looks at bytes while they come in pieces.
// The contracts cite `number_of` (`specs/Bits.antt`) and `seen_at` (`specs/Window.antt`).
// Serves 'Properties Common to both Content and Framing' and 'Simple Types'.
#![tactic(auto)]

pub mod byte_set;
pub mod laws;
mod number;
mod put;
pub mod steps;
pub mod window;
mod word;

pub use byte_set::ByteSet;
pub use dfdl_forms::{BitOrder, ByteOrder};
pub use number::{nibble_at, number_at, number_at_64};
pub use put::{put_nibble, put_number, put_number_64, put_pair};
pub use steps::Steps;
pub use window::{Seen, Window};

#[cfg(test)]
mod number_tests;
#[cfg(test)]
mod tests;
#[cfg(test)]
mod window_tests;
