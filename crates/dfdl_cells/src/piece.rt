// What is written between two places.

use crate::step::{Mark, Place};
use dfdl_separators::SeparatorPosition;
use dfdl_suspend::CellId;
use dfdl_terms::Prefix;

/// A box that a place is in: it begins where the content of this element with parts does, and has so many bits ('Lengths').
#[derive(Debug, Clone, Copy, PartialEq, Eq)]
pub struct Bound {
    pub complex: u32,
    pub bits: u64,
}

/// Where a slot ends and begins: so many steps of the content that it is in, from one on ('Sequence Groups').
#[derive(Debug, Clone, Copy, PartialEq, Eq)]
pub struct SlotEnd {
    pub around: Option<u32>,
    pub first: u32,
    pub count: u32,
}

/// When the slot of a separator is written ('Sequence Groups', on separatorSuppressionPolicy).
#[derive(Debug, Clone, Copy, PartialEq, Eq)]
pub enum Stands {
    /// Whatever it is.
    Always,
    /// Where it has a bit.
    IfLong(SlotEnd),
    /// Where it has a bit, or the slot of this later separator is written.
    IfLater(SlotEnd, Option<CellId>),
}

/// Whether a slot before that of a separator is written.
#[derive(Debug, Clone, Copy, PartialEq, Eq)]
pub enum Earlier {
    /// There is none.
    None,
    /// One is.
    Some,
    /// The first one is where it has a bit.
    IfLong(SlotEnd),
    /// One up to that of this separator may be.
    Told(CellId),
}

/// A piece of the data, in data order.
#[derive(Debug, Clone, Copy, PartialEq, Eq)]
pub enum Piece {
    /// So many bits of fill ('Framing').
    Skip {
        bits: u32,
        fill: u8,
        place: Place,
        bound: Option<Bound>,
    },
    /// Fill up to the next multiple of so many bits from the start of the data ('Framing').
    Align {
        bits: u32,
        fill: u8,
        place: Place,
        bound: Option<Bound>,
    },
    /// A delimiter of this list of a component, which always stands ('Framing').
    Delimiter {
        component: u32,
        list: u32,
    },
    /// A delimiter of this list of a simple element ('Framing').
    Marked {
        component: u32,
        list: u32,
        mark: Mark,
    },
    /// A separator of this list of a component ('Sequence Groups').
    Separator {
        component: u32,
        list: u32,
        position: SeparatorPosition,
        stands: Stands,
        earlier: Earlier,
    },
    /// The length prefix of an element of this component, whose content has as many bits as this unknown tells ('Lengths').
    Prefix {
        component: u32,
        prefix: Prefix,
        length: CellId,
        /// The unknown of the value, of a simple element.
        value: Option<CellId>,
        markup: u32,
    },
    /// The content of a simple element of this component, whose first unknown this is ('Simple Types').
    Content {
        component: u32,
        first: CellId,
        markup: u32,
        place: Place,
    },
    /// The fill of a box of so many bits behind the content of an element with parts ('Lengths').
    Rest {
        inside: CellId,
        bits: u64,
        fill: u8,
        place: Place,
    },
    /// The fill of the last byte.
    End {
        fill: u8,
        place: Place,
    },
    /// What an element with parts has inside that is missing.
    Missing,
}
