//! The content of a simple element, read at a place of the data by looks at its bytes.
//!
//! The contracts cite `program_for` of dfdl_grammar, what the bytes of a leaf mean as a program over looks, and say by `Answers`
//! (`specs/Readings.antt`) that the answer is what it comes to. A leaf is a primitive of the tables with the size that its box has
//! (`specs/Views.antt`). Places are bits of the data, counted from its begin. Serves the chapter 'Simple Types'.
#![tactic(auto)]

mod contents;
mod defaults;
mod delimited;
pub mod framing;
pub mod leaf;
mod nil_values;
mod nils;
mod octets;
pub mod patterns;
pub mod spans;
mod strings;
pub mod view;

pub use framing::aligned;
pub use leaf::{Found, Glance, Scratch, read_wanted};
pub use patterns::{put_text, read_sought};
pub use spans::{text_span, vacant};
pub use view::{Leaf, Wanted, content_begins, has_room};
