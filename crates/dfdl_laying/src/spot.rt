// Where in an open element laying goes on.

use dfdl_cells::{Bound, CellId};

/// The content of an open element with parts, and how far it was laid ('DFDL Data Syntax Grammar'). The document is the outermost one: its content is the
/// root.
#[derive(Debug, Clone, Copy, PartialEq, Eq)]
pub struct Spot {
    /// Its number among elements with parts.
    pub complex: u32,
    /// Its number among all elements, in the order of the infoset.
    pub owner: u32,
    /// Its first unknown: the occurrences of the first element that it declares.
    pub first: CellId,
    /// How many elements it declares.
    pub declared: u32,
    /// The unknown of its value length.
    pub length: CellId,
    /// The start of the last element that was laid in it, if there is one.
    pub after: Option<CellId>,
    /// How many steps lie in it before that start.
    pub since: u32,
    /// The innermost box of known size that it is in.
    pub bound: Option<Bound>,
    /// The number of the list of terminating markup that is open in it.
    pub markup: u32,
}

/// What the pieces of a simple element name.
#[derive(Debug, Clone, Copy, PartialEq, Eq)]
pub struct Own {
    pub component: u32,
    /// Its number among all elements.
    pub owner: u32,
    /// The unknown of its value.
    pub first: CellId,
    /// The unknown of its content length.
    pub length: CellId,
    /// The number of the list of terminating markup that is open at its content.
    pub markup: u32,
}

/// What the pieces of an element with parts name.
#[derive(Debug, Clone, Copy, PartialEq, Eq)]
pub struct Whole {
    pub component: u32,
    /// Its number among all elements.
    pub owner: u32,
    /// Its first unknown.
    pub first: CellId,
    /// The unknown of its value length.
    pub inside: CellId,
    /// The unknown of its content length.
    pub content: CellId,
    /// The unknown of its start.
    pub start: CellId,
}
