//! The components of a schema: which names its documents define, what each reference names, and
//! whether the documents keep the rules that hold before any component is compiled.
//!
//! The contract of `load` cites `specs/Rules.antt`, the table of rules, and `specs/Faults.antt`; what
//! a name names is in `specs/Globals.antt` and `specs/Naming.antt`. It serves the chapter 'DFDL Schema
//! Component Model'.
#![tactic(auto)]

mod built_ins;
mod checking;
mod fault;
mod includers;
mod kind;
mod loading;
mod named;
mod names;
mod namespaces;
mod naming;
mod ordering;
mod parts;
mod recursion;
mod referring;
mod schema;
mod site;

pub use fault::SchemaFault;
pub use kind::ComponentKind;
pub use loading::load;
pub use named::Named;
pub use ordering::order;
pub use schema::Schema;
pub use site::Site;
