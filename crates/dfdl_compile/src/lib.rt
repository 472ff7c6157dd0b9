//! The terms of a schema: its documents' components in rows, from the root on.
//!
//! `specs/Components.antt` says which components the elements of the documents are, `specs/Compiled.antt` what a schema comes to, its rows or
//! the first reason why it has none, and `specs/Settling.antt` what its statements come to then, which the contracts of `compile` and
//! `compile_for_unparse` cite. `compile_for_both` gives with these terms what unparsing asks of the schema besides, by `specs/Whole.antt`. The
//! chapters are 'DFDL Schema Component Model' and 'DFDL Data Syntax Grammar'.
#![tactic(auto)]

mod calls;
mod compiling;
mod empties;
mod fault;
mod gathering;
mod keying;
mod measuring;
mod parts;
mod primitives;
mod settling;
mod stating;
mod whole;

pub use calls::{compile, compile_for_both, compile_for_unparse};
pub use fault::CompileFault;
pub use whole::CompiledSchema;
