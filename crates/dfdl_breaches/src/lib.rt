//! What is wrong at each component of a schema by itself: for every element of its documents the first rule that the
//! component there breaks, and how its values, what tells its length and its other representations lie in the data.
//!
//! A component is judged by what the elements of its chain give: their own properties, the formats that they refer to
//! (`specs/References.antt` of dfdl_references), each joined once with those that it refers to (`specs/Formats.antt`), and the
//! default formats of their documents (`specs/Elements.antt`). The type of its length prefix is judged with it, by a chain of
//! its own (`specs/Prefixes.antt`), with the escape scheme that it names (`specs/Schemes.antt`), and the pattern of its length is
//! built with those of its tests (`specs/Builds.antt`). A sequence that stands for a hidden group is judged by that name alone
//! (`specs/Hidden.antt`), and what groups ask of their parts is told by `specs/Standing.antt`. The contract of `breaches` cites
//! `specs/Judging.antt`. It serves the chapter 'Property Scoping and DFDL Schema Checking'.
#![tactic(auto)]

mod chain;
mod check_list;
mod entries;
mod entry;
mod formats;
mod gathered;
mod hiding;
mod judgement;
mod judging;
mod kept;
pub mod laws;
mod prefixes;
mod root;
mod schemes;
mod setting_list;
mod settings;
mod sites;
mod standing;
mod telling;
mod test_list;
mod testing;

pub use check_list::CheckList;
pub use judgement::Judgement;
pub use root::root_of;
pub use setting_list::SettingList;
pub use telling::breaches;
pub use test_list::TestList;
