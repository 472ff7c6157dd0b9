//! The slots of a group with separators: where a separator is sought, and what each slot comes to.
//!
//! Each occurrence of an element in the group is a slot, and so is each child group. `Slots` is told what was found, and
//! answers what to do next. It reads no data itself. specs/Verdicts.antt says what a slot comes to, and its contract cites
//! it. It serves 'Sequence Groups', on separators.
#![tactic(auto)]

mod course;
pub mod laws;
mod moves;
mod policy;
mod progress;
mod slots;
mod verdict;

pub use moves::{SlotFault, SlotMove, SlotSeen};
pub use policy::{SeparatorPosition, SeparatorSuppressionPolicy};
pub use progress::{Progress, Stage};
pub use slots::Slots;
pub use verdict::{Here, SlotRule, Tried, rule_of};

#[cfg(test)]
mod tests;
