//! The tree of an XML document: its elements in the order of their start tags, and how it grows
//! while the document is read.
//!
//! Contracts cite `specs/Trees.antt` and `specs/Building.antt` of dfdl_markup: what an element is,
//! which namespace a prefix stands for there, and what a character does to the tree ('Namespaces in
//! XML 1.0', third edition).
#![tactic(auto)]

mod element;
mod growing;
mod scope;
mod text;
mod tree;

pub use growing::{Growing, Held};
pub use text::Text;
pub use tree::Tree;
