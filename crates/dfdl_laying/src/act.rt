// What laying does next.

use dfdl_cells::CellId;
use dfdl_value::Value;

/// What the infoset says next ('The DFDL Information Set'). Elements are told by their place among those that the innermost open element declares, in schema order,
/// hidden ones and all branches counted in; where several have one name, by the first of that name.
#[derive(Debug, Drop)]
pub enum Said {
    /// An element with parts begins.
    Start { child: u32 },
    /// A simple element has this value.
    Simple { child: u32, value: Value },
    /// A simple element is nil.
    Nil { child: u32 },
    /// An element is there whose value is calculated, whatever the infoset says.
    Calculated { child: u32 },
    /// The innermost open element ends.
    End,
}

/// What laying goes on to.
#[derive(Debug, Clone, Copy, PartialEq, Eq)]
pub enum Aim {
    /// The first place at which an event may add something.
    Nothing,
    /// An item of the element whose occurrences are this unknown.
    Child(CellId),
    /// The end of the innermost open element.
    End,
}

/// What is done next at what is open innermost.
#[derive(Debug, Clone, Copy, PartialEq, Eq)]
pub enum Act {
    /// An event is wanted.
    Wait,
    /// The item that is aimed at is laid.
    Take,
    /// The element ends that ends by an event.
    End,
    /// The open component ends by itself.
    Leave,
    /// The part has no occurrence more.
    Pass,
    /// An occurrence is laid without an item.
    Fill,
    /// A slot without an occurrence is laid.
    Blank,
    /// The group that is the part is gone into.
    Enter,
    /// The branch of this place is taken.
    Choose(u32),
    /// There is no branch to take.
    Branchless,
}
