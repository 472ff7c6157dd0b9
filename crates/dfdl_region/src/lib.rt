// The elements of an infoset while data are parsed: one node for each, in the order in which they begin, and the bytes of
// their texts and hexBinary values one after the other, in memory that is taken once. The contracts see the regions as
// `Nodes` (`specs/Nodes.antt`), the nodes and how many there may be, and as `Bytes` (`specs/Bytes.antt`), the bytes and how
// many there may be. Serves 'The DFDL Information Set'.
#![tactic(auto)]

pub mod node;
mod region;
#[cfg(test)]
mod tests;
mod text;

pub use dfdl_terms::RowId;
pub use node::{Content, Lengths, Node};
pub use region::{Full, NodeRegion};
pub use text::TextRegion;
