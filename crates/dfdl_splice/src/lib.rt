// Pieces of bits in the order of the data, whose bits become known in any order, joined to the front that can be written.
// The contracts see a splice as `Spliced` (`specs/Splicing.antt`): the front, and the awaited pieces with what is known
// behind each. All memory is taken at opening.
// Serves 'DFDL Processing Introduction'.
#![tactic(auto)]

mod buffer;
mod copy;
mod entry;
mod pack;
mod splice;
mod table;

pub use copy::copy_bits;
pub use dfdl_forms::BitOrder;
pub use splice::{Full, Splice};

#[cfg(test)]
mod tests;
