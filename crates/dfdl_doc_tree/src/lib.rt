//! The reader of schema documents. `read` answers the tree of the bytes that are a document, and of
//! all others the byte at which none can go on, with the cause.
//!
//! Its contract cites `specs/Documents.antt` of dfdl_markup ('Extensible Markup Language (XML) 1.0',
//! fifth edition, and 'Namespaces in XML 1.0', third edition, as far as schemas need them) and
//! `specs/Faults.antt`. A scanner takes a character at a time and says what it does to the tree; the
//! reader over it takes bytes. It serves the chapter 'DFDL Schema Component Model', whose components
//! are written as XML.
#![tactic(auto)]

mod documents;
mod effect;
mod fault;
mod letters;
mod mark;
mod plain;
mod reader;
mod reading;
mod rule;
mod said;
mod scanner;

pub use documents::read;
pub use fault::DocFault;
