// What an unknown is.

use crate::step::Place;
use dfdl_suspend::CellId;
use dfdl_value::Value;
use std::alloc::{AllocError, Global};
use std::marker::Model;

/// What an unknown is, by which its equation is known ('DFDL Processing Introduction').
#[derive(Debug, Drop)]
pub enum Cell {
    /// A later event gives its equation.
    Waiting,
    /// It has no value, for the cause of this number.
    Faulty {
        cause: u8,
    },
    /// The value of a simple element, by its event or as its default.
    Given {
        value: Value,
    },
    /// The value of a nil element.
    Nil,
    /// The occurrences of a child, by their first unknowns.
    Items {
        items: CellList,
    },
    /// How many bits the value of a simple element has, which is this component and whose first unknown this is (valueLength).
    ValueLength {
        component: u32,
        first: CellId,
    },
    /// How many bits the content of a simple element has (contentLength).
    ContentLength {
        component: u32,
        first: CellId,
        /// The lists of terminating markup that are open there.
        markup: u32,
    },
    /// Where an element begins, in bits from the begin of the content around; and where the content of an element with parts
    /// ends, in bits from its begin, which is the length of its value.
    Reached {
        place: Place,
    },
    /// How many bits the content of an element with parts has: so many, or as many as the parts have.
    Boxed {
        size: Option<u64>,
        inside: CellId,
    },
    /// The bits of this piece.
    Bits {
        piece: u32,
    },
}

/// The first unknowns of items, in their order. A contract sees them as their list.
#[derive(Debug, Drop)]
pub struct CellList {
    cells: Vec<CellId>,
}

impl Model for CellList {
    ghost use Rattle.std.specs.Prelude.{List, ℕ};

    ghost Value = { List ℕ };

    ghost view = { λ l. l.cells.items };
}

impl CellList {
    ghost use Rattle.std.specs.Prelude.{◌≡◌, ◌++◌, ◌∷◌, [], OnOk};

    /// No item.
    pub fn empty(alloc: Global) -> CellList
        ensures { result ≡ [] }
    {
        CellList {
            cells: Vec::new(alloc),
        }
    }

    /// Adds an item behind the others.
    pub fn push(&mut self, first: CellId) -> Result<(), AllocError>
        ensures { OnOk result (self.new ≡ self.old ++ first ∷ []) }
    {
        self.cells.push(first)?;
        Ok(())
    }

    /// Takes the unknowns as they are, and no memory.
    pub fn from_vec(cells: Vec<CellId>) -> CellList
        ensures { result ≡ cells.items }
    {
        CellList { cells }
    }

    pub fn as_slice(&self) -> &[CellId]
        ensures { result.now ≡ self.now }
    {
        self.cells.as_slice()
    }
}
