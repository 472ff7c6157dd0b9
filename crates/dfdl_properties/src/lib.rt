//! From schema documents to properties: what a component gives by itself, in short form, attribute
//! form and element form; what each format gives, with what its references lead to; and which format
//! is a document's default.
//!
//! Contracts cite `specs/Own.antt`, `specs/Forms.antt` and `specs/Formats.antt` ('Syntax of DFDL
//! Annotation Elements', 'Property Scoping and DFDL Schema Checking').
#![tactic(auto)]

mod annotations;
mod attributes;
mod default;
mod joined;
mod own;
mod trim;

pub use default::default_format;
pub use joined::{format_parts, formats};
pub use own::{format_properties, own_properties};
pub use trim::trimmed;
