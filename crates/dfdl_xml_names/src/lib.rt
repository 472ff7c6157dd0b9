//! Names, start tags and scopes of XML documents, as a reader keeps them.
//!
//! What they mean is told by the specs of dfdl_markup, over characters: 'Namespaces in XML 1.0'
//! (third edition). `specs/Shown.antt` says which characters a text has.
#![tactic(auto)]

mod alike;
mod beyond;
mod binding_rules;
mod bindings;
mod declared;
mod element;
mod frames;
mod index;
mod name;
mod names;
mod pairs;
mod resolved;
mod scope;
mod tag;
mod waiting;

pub use binding_rules::{may_bind, may_close};
pub use bindings::Bindings;
pub use declared::declared_by;
pub use frames::Frames;
pub use name::{Attribute, Name, fixed_namespace};
pub use tag::StartTag;
