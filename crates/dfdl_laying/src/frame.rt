// What is open.

use dfdl_cells::{CellId, CellList, Earlier};

/// How far the separators of a sequence were laid ('Sequence Groups').
#[derive(Debug, Clone, Copy, PartialEq, Eq)]
pub struct Slots {
    /// Whether a slot before the next separator is written.
    pub before: Earlier,
    /// The unknown of the next separator, where one before it asks for that.
    pub next: Option<CellId>,
    /// How many steps lie in the content before the slot that was begun last.
    pub first: u32,
}

/// A component that is open: a group, or an element with parts.
#[derive(Debug, Drop)]
pub struct Open {
    pub component: u32,
    /// The place of the part at which laying is, among its parts.
    pub part: u32,
    /// How many occurrences of that part were laid.
    pub count: u64,
    /// The unknown of the occurrences of the first element that it declares.
    pub first: CellId,
    /// The infoset has none of its elements.
    pub is_hidden: bool,
    /// The branch of a choice is known: it is that part.
    pub is_chosen: bool,
    /// The items of that part so far.
    pub items: CellList,
    pub slots: Slots,
    /// The number of the list of terminating markup that is open around it.
    pub markup: u32,
}

/// What is open innermost, and what opened in it, if something did.
#[derive(Debug, Drop)]
pub struct Tops {
    pub top: Open,
    pub inner: Option<Open>,
}
