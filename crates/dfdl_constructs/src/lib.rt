//! What each element of a schema document stands for, and whether it breaks the rules of structure: a
//! construct outside the subset, an attribute with a value that it can't have, an annotation that
//! isn't known ('DFDL Schema Component Model', 'Syntax of DFDL Annotation Elements').
//!
//! Contracts cite `specs/Roles.antt` (the role of an element), `specs/Parts.antt` (what may stand in
//! what), `specs/OutsideSubset.antt`, `specs/ValuesAllowed.antt` and `specs/UnknownAnnotations.antt`.
#![tactic(auto)]

mod allowed;
mod attributes;
mod digits;
mod elements;
pub mod laws;
mod outside;
mod part;
mod parts;
mod placing;
mod qualified;
mod role;
mod roles;
mod unknown;
mod value;

pub use allowed::is_value_not_allowed;
pub use elements::{dfdl, plain};
pub use outside::is_outside_subset;
pub use placing::single_of;
pub use qualified::{Qualified, is_ncname, is_qname};
pub use role::{AnnotationPoint, Role};
pub use roles::{Roles, roles_of};
pub use unknown::is_unknown_annotation;
