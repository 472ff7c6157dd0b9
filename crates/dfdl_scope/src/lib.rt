//! Which value a property has at a schema component: 'Property Scoping and DFDL Schema Checking'.
//!
//! A component's chain is made of the elements that are joined for it, from the reference on, each
//! with its own local properties, the format that it refers to and the default format of its
//! document. `property` asks such a chain for a value. Contracts cite `specs/Scoping.antt`.
#![tactic(auto)]

mod asking;
mod component;
mod expression;
mod format;
mod names;
mod properties;
mod repeated;
mod row;
mod table;

pub use asking::{Asked, property};
pub use component::{Component, Element};
pub use expression::{is_expression, literal};
pub use format::Format;
pub use names::is_property;
pub use properties::Properties;
pub use repeated::first_repeated;
pub use row::{Absence, Form, PropertyRow, Values};
pub use table::{property_row, property_rows};
