// The parts of a component.

use std::marker::Model;

/// What slots an occurrence has that isn't required ('Sequence Groups', on separatorSuppressionPolicy).
#[derive(Debug, Clone, Copy, PartialEq, Eq)]
pub enum Slot {
    /// None.
    Absent,
    /// One that is written whatever it is.
    Always,
    /// One that is written where it has a bit.
    IfLong,
    /// One that is written where it has a bit, or a later one is written.
    IfLater,
}

/// A part of a component, where it stands.
#[derive(Debug, Clone, Copy, PartialEq, Eq)]
pub struct Part {
    pub component: u32,
    /// How many elements the parts before it declare, as far as 32 bits count.
    pub first: u32,
    /// How many elements it declares itself.
    pub declared: u32,
    /// It is an element.
    pub is_element: bool,
    /// So many occurrences are required.
    pub least: u32,
    /// There are so many at most; 2^64 - 1 is no bound.
    pub most: u64,
    pub slot: Slot,
    /// No part behind it has a slot.
    pub is_last: bool,
}

/// Parts in schema order. A contract sees them as their list.
#[derive(Debug, Drop)]
pub struct PartList {
    parts: Vec<Part>,
}

impl Model for PartList {
    ghost use Rattle.std.specs.Prelude.{List};
    ghost use Rattle.dfdl_outline.specs.declared.part.Part.{Part};

    ghost Value = { List Part };

    ghost view = { λ l. l.parts.items };
}

impl PartList {
    ghost use Rattle.std.specs.Prelude.{◌≡◌};

    /// Takes the parts as they are, and no memory.
    pub fn from_vec(parts: Vec<Part>) -> PartList
        ensures { result ≡ parts.items }
    {
        PartList { parts }
    }

    pub fn as_slice(&self) -> &[Part]
        ensures { result.now ≡ self.now }
    {
        self.parts.as_slice()
    }
}
