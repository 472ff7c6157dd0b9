// What a component is for laying.

use crate::part::PartList;
use dfdl_separators::SeparatorPosition;
use dfdl_terms::Prefix;
use dfdl_value::Value;

/// An initiator or a terminator ('Framing').
#[derive(Debug, Clone, Copy, PartialEq, Eq)]
pub struct Edge {
    /// The number in the tables of its literals.
    pub list: u32,
    /// How many bits it is written as; one without a writing has none.
    pub bits: u64,
    /// It stands in the nil representation too.
    pub in_nil: bool,
    /// It stands in the empty representation too.
    pub in_empty: bool,
}

/// What stands around a content, in bits ('Framing').
#[derive(Debug, Clone, Copy, PartialEq, Eq)]
pub struct Around {
    /// Bit k of the data that is fill is bit k mod 8 of it.
    pub fill: u8,
    /// So many bits of fill before all else; with 0 there is none.
    pub leading_skip: u32,
    /// Fill up to a multiple of so many bits of the data; with 1 there is none.
    pub alignment: u32,
    pub initiator: Option<Edge>,
    pub terminator: Option<Edge>,
    /// So many bits of fill behind all else; with 0 there is none.
    pub trailing_skip: u32,
}

/// A length prefix ('Lengths').
#[derive(Debug, Clone, Copy, PartialEq, Eq)]
pub struct LengthPrefix {
    pub prefix: Prefix,
    /// How many bits it is written as.
    pub bits: u64,
}

/// The box around the content of an element with parts ('Lengths').
#[derive(Debug, Clone, Copy, PartialEq, Eq)]
pub enum ContentSize {
    /// No box.
    Unbounded,
    /// So many bits.
    Sized(u64),
    /// As many as its parts have, told by a prefix before it.
    Prefixed(LengthPrefix),
}

/// The separators of a sequence ('Sequence Groups').
#[derive(Debug, Clone, Copy, PartialEq, Eq)]
pub struct Separating {
    /// The number in the tables of their list.
    pub list: u32,
    pub position: SeparatorPosition,
}

/// What a simple element is for laying.
#[derive(Debug, Drop)]
pub struct SimpleSort {
    /// The value of a missing one, if it has a default.
    pub default: Option<Value>,
    pub prefix: Option<LengthPrefix>,
    /// It can be nil.
    pub nillable: bool,
    /// A content without a bit is the empty representation.
    pub empties: bool,
    /// Its content is text, which begins at a whole byte.
    pub is_text: bool,
    /// The number in the tables of the list of its own terminator, where that ends its content.
    pub scanned: Option<u32>,
}

/// What a component is for laying.
#[derive(Debug, Drop)]
pub enum Sort {
    /// A sequence of its parts.
    Sequence { separating: Option<Separating> },
    /// A choice of one of its parts.
    Choice,
    /// An element with its one part inside.
    Complex { size: ContentSize },
    /// An element with a value.
    Simple(SimpleSort),
    /// An element whose value an expression gives (inputValueCalc); its value is laid as one that waits.
    Calculated,
    /// A sequence that hides its one part.
    Hidden,
    /// It takes what isn't laid yet: an expression for its value when unparsing, for its length, or for a count.
    Unbuilt,
}

/// Whether a component needs an item of the infoset: without one it can't be written.
#[derive(Debug, Clone, Copy, PartialEq, Eq)]
pub struct Needs {
    /// Where the infoset has its elements.
    pub shown: bool,
    /// Where they are hidden.
    pub hidden: bool,
}

/// A component for laying.
#[derive(Debug, Drop)]
pub struct Entry {
    pub sort: Sort,
    /// Its parts in schema order.
    pub parts: PartList,
    /// How many elements a group declares, those in all branches and hidden ones counted in, as far as 32 bits count; an element is one itself.
    pub declared: u32,
    pub needs: Needs,
    pub around: Around,
}
