//! What the properties of an escape scheme come to: the scheme, or that it is malformed.
//!
//! `escape_scheme` answers by `specs/Schemes.antt`, from the texts of the properties as they are written. `NamedScheme` is
//! what a component names as its scheme, and `EscapeMarks` what reading asks of it. It serves 'Simple Types', on escape schemes.
#![tactic(auto)]

mod marks;
mod named;
mod reading;

pub use marks::EscapeMarks;
pub use named::NamedScheme;
pub use reading::{SchemeProperties, escape_scheme};
