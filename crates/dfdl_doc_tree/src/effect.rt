// What a character does to the tree.
use crate::mark::Run;
use dfdl_xml_names::StartTag;

/// What a character does to the tree.
#[derive(Drop)]
pub enum Effect {
    Stays,
    /// Markup begins with it.
    Opens,
    /// A CDATA section ends with it.
    Closes,
    /// It is text, and so many `]` before it are.
    Reads { held: Run, c: char },
    /// A reference to this character ends with it.
    Refers(char),
    /// A start tag ends with it.
    Enters(Box<StartTag>),
    /// A tag that closes itself ends with it.
    Adds(Box<StartTag>),
    /// An end tag ends with it.
    Leaves,
}
