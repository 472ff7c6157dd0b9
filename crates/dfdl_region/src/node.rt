use dfdl_decimal::Fixed;
use dfdl_terms::RowId;

/// What an element of the infoset has.
#[derive(Debug, Clone, Copy, PartialEq, Eq)]
pub enum Content {
    /// It has begun, and isn't read yet.
    Begun,
    /// Elements.
    Complex,
    /// Nil.
    Nil,
    /// The value of a signed integer.
    Signed(i128),
    /// The value of an unsigned integer.
    Unsigned(u128),
    /// The value of a decimal.
    Decimal(Fixed),
    /// The value of a boolean.
    Truth(bool),
    /// The value of a string: so many bytes of the document's text, from this one on, as UTF-8.
    Text { from: u32, len: u32 },
    /// The value of a hexBinary: so many bytes of the document's text, from this one on.
    Octets { from: u32, len: u32 },
}

/// How long an element is, in bits ('DFDL Expression Language', on lengths).
#[derive(Debug, Clone, Copy, PartialEq, Eq)]
pub struct Lengths {
    /// The box of its content, or what the content moved over where it has none.
    pub content: u64,
    /// What its value takes of that: without what is trimmed, escape characters, and the rest of a box.
    pub value: u64,
}

/// One element of the infoset.
#[derive(Debug, Clone, Copy, PartialEq, Eq)]
pub struct Node {
    /// the row of the element
    pub element: RowId,
    /// the number of the element that it stands in; the root's is its own, 0
    pub parent: u32,
    pub content: Content,
    /// from the end of its content on
    pub lengths: Option<Lengths>,
}
