//! The characters of XML documents: UTF-8 as a coding that is read byte by byte, the characters
//! that XML allows, and those of names.
//!
//! `specs/Utf8.antt` tells of bytes whether they are a character, a part of one, or no front of
//! any; it is proved to be that of the coding that std has for text. `specs/Characters.antt` has
//! the productions Char of 'Extensible Markup Language (XML) 1.0' (fifth edition) and NCName of
//! 'Namespaces in XML 1.0' (third edition) as tables of intervals. `specs/Beyond.antt` says what a
//! place of a reader does with characters past ASCII, so that a character of several bytes is
//! refused at the first byte at which none can go on.
#![tactic(auto)]

mod begun;
mod characters;
pub mod laws;
mod names;
mod sequences;
#[cfg(test)]
mod tests;

pub use begun::{Begun, Taken};
pub use characters::is_allowed;
pub use names::{is_name_char, is_name_start, meets_name_char, meets_name_start};
