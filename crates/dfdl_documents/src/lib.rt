//! The documents of a schema: from the name of the first one, all that are named by `include` and
//! `import` elements, each loaded once, in the order in which they are first named.
//!
//! The contract of `load_documents` cites `specs/Loading.antt` and `specs/Faults.antt`; which name a
//! location means is in `specs/Locations.antt`, what a document names in `specs/References.antt`. It
//! serves the chapter 'DFDL Schema Component Model', whose schemas have such documents.
#![tactic(auto)]

mod documents;
mod elements;
mod fault;
pub mod laws;
mod loading;
mod locations;
mod names;
mod naming;
mod reference;
mod references;

pub use documents::Documents;
pub use fault::DocumentsFault;
pub use loading::load_documents;
pub use names::Names;
pub use reference::{DocumentReference, ReferenceKind};
