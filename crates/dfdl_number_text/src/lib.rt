//! Text numbers: what value the characters of a number are read as, and what characters a value is written as.
//!
//! The contracts cite `reading` of `specs/NumberReading.antt` and `writing` of `specs/Writing.antt`; `specs/Rounding.antt` has
//! the rounding modes. It serves 'The DFDL Number Pattern' and 'Properties Specific to Number with Text Representation'.
//! That what is written is read back is the law of dfdl_number_laws.
#![tactic(auto)]

mod body;
mod body_digits;
mod bytes;
mod digits;
mod division;
pub mod fault;
mod read_affix;
mod read_base;
mod read_number;
mod reading;
mod rounding;
mod write_text;
mod write_value;

pub use bytes::{MOST_BYTES, read_bytes};
pub use dfdl_forms::NoFit;
pub use fault::NumberFault;
pub use reading::read;
pub use write_value::write;
