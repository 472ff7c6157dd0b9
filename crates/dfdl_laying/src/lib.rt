//! The laying of an infoset as unknowns and pieces, event by event ('DFDL Processing Introduction').
//!
//! `specs/Laying.antt` has what was laid and what each act of laying adds to it, `specs/Slots.antt` the separators of a sequence, `specs/Acting.antt` which act comes
//! next, and `specs/Running.antt` how acts follow each other from event to event.
#![tactic(auto)]

pub mod act;
mod acting;
mod complex;
pub mod frame;
mod framing;
mod group;
mod items;
pub mod laid;
pub mod laws;
pub mod machine;
mod parts;
pub mod run;
mod simple;
mod slots;
pub mod spot;
#[cfg(test)]
mod tests;

pub use act::{Act, Aim, Said};
pub use frame::{Open, Slots, Tops};
pub use laid::Laid;
pub use machine::Machine;
pub use run::Run;
pub use spot::{Own, Spot, Whole};
