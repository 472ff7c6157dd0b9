//! Where a schema writes what holds of its components: which formats components and formats refer to, which format is the
//! default one of a document, and at which element a property is written. A value that holds a name, as that of
//! `prefixLengthType` does, is resolved by the namespaces in scope at that element. `named_scheme` tells the escape scheme that
//! such a name names.
//!
//! Contracts cite `specs/References.antt`, `specs/Writers.antt` and `specs/Schemes.antt` ('Property Scoping and DFDL Schema
//! Checking', 'Syntax of DFDL Annotation Elements', 'Simple Types').
#![tactic(auto)]

mod kinds;
pub mod laws;
mod referring;
mod schemes;
mod writers;
mod writing;

pub use referring::{default_of, format_after, format_of};
pub use schemes::named_scheme;
pub use writers::{by_default_writer, writer};
