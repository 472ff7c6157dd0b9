//! The layout of a schema, by which infosets are laid, made of its components.
//!
//! `layout_of` says of each component what laying asks of it: what it is, what stands around its content, its parts with their slots, and whether
//! it needs an item of the infoset. Its contract cites `specs/Planned.antt`. It serves the chapters 'Framing', 'Lengths', 'Sequence Groups' and 'Choices'.
#![tactic(auto)]

mod frames;
mod layouts;
mod outline;
mod outlines;
mod parts;
mod sizes;
mod sorts;
mod source;

pub use layouts::{Planned, layout_of};
pub use outline::{Outline, Taking};
pub use source::Source;
