//! A schema as an infoset is laid by it ('DFDL Processing Introduction', 'DFDL Data Syntax Grammar').
//!
//! A `Layout` has an `Entry` for each schema component: what sort it is, its parts in schema order with how often each occurs and what slots it has,
//! how many elements it declares, whether it needs an item of the infoset, and what frames it. What laying asks of it is in `specs/Outlines.antt`.
#![tactic(auto)]

pub mod asking;
pub mod entry;
pub mod layout;
pub mod part;

pub use asking::{branch_with, branch_without, is_needy, steps_of};
pub use entry::{
    Around, ContentSize, Edge, Entry, LengthPrefix, Needs, Separating, SimpleSort, Sort,
};
pub use layout::Layout;
pub use part::{Part, PartList, Slot};
