//! Values of the simple types: what each type's values are, and the reading and writing of a value
//! as text.
//!
//! The contracts cite `IsOfType` of specs/Types.antt, which says what values a type has, and the
//! definitions of what a text means. It serves the chapter 'The DFDL Information Set'.
#![tactic(auto)]

pub mod cell;
mod decimal;
pub mod held;
mod integer;
pub mod laws;
pub mod number;
mod octets;
pub mod read;
mod text;
pub mod value;
mod write;

pub use cell::CellId;
pub use dfdl_decimal::{DivFault, Fixed, Overflow};
pub use dfdl_forms::{Form, Simple};
pub use held::{ByteValue, TextValue};
pub use number::value_of_number;
pub use read::{NoValue, ReadFault};
pub use value::Value;

#[cfg(test)]
mod tests;
