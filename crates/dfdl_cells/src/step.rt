// What lies between two places.

use dfdl_suspend::CellId;

/// A delimiter of a simple element: how many bits it has, and in which representations it stands ('DFDL Data Syntax Grammar').
#[derive(Debug, Clone, Copy, PartialEq, Eq)]
pub struct Mark {
    pub bits: u64,
    /// It stands in the nil representation.
    pub in_nil: bool,
    /// It stands in the empty representation.
    pub in_empty: bool,
    /// A content of no bits is the empty representation.
    pub empties: bool,
    /// The unknown of the element's value.
    pub value: CellId,
    /// The unknown of its content length.
    pub length: CellId,
}

/// What lies between two places, by its length.
#[derive(Debug, Clone, Copy, PartialEq, Eq)]
pub enum Step {
    /// So many bits: a skip, a length prefix, or a delimiter that always stands.
    Fixed { bits: u64 },
    /// Fill up to the next multiple of so many bits from the start of the data.
    Align { bits: u32 },
    /// A delimiter of a simple element.
    Marked { mark: Mark },
    /// As many bits as this unknown has as its number: the content of an element.
    Length { cell: CellId },
    /// The separator whose bits are this unknown.
    Separator { cell: CellId },
}

/// A place in the content of an element: so many steps of that content, from one on, behind the start of an element in it, or behind the begin of
/// the content ('Framing', on alignment).
#[derive(Debug, Clone, Copy, PartialEq, Eq)]
pub struct Place {
    /// The number, among elements with parts, of the element whose content it is in; none is in the document itself.
    pub around: Option<u32>,
    /// The unknown of a start in the same content.
    pub after: Option<CellId>,
    pub first: u32,
    pub count: u32,
}
