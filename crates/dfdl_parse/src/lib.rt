//! The parser: a machine with a stack of its own, which reads the data while they come in pieces.
//!
//! The contracts of `Session` cite `document_from` of dfdl_grammar, what the rows of a schema mean over whole data: `feed`
//! answers that it needs more exactly where the meaning of the bytes so far looks past their end, and comes to the meaning
//! else. `StandsFor`, `Ends` and `Finished` (`specs/Sessions.antt`) say so. Serves 'Parsing Algorithm'.
#![tactic(auto)]

mod asking;
mod boxes;
pub mod frame;
mod framing;
mod instances;
mod landing;
mod leaving;
pub mod marks;
mod outcome;
pub mod parser;
mod path;
mod points;
mod prefixes;
mod register;
mod run;
pub mod scopes;
mod scoping;
mod searches;
pub mod session;
mod slots;
mod slots_counts;
mod slots_ends;
mod slots_looks;
mod slots_steps;
mod spanning;
pub mod stack;
mod stating;
mod testing;
mod trials;

pub use dfdl_grammar::Limits;
pub use dfdl_region::{Content, Node};
pub use outcome::{Fed, Outcome};
pub use session::Session;
