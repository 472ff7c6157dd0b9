use dfdl_grammar::End;
use dfdl_paths::Start;
use dfdl_separators::{Here, Progress, SlotRule};
use dfdl_terms::{Representations, RowId, Statements, TextSize};

/// What is left to be done behind a row.
#[derive(Debug, Clone, Copy, PartialEq, Eq)]
pub enum Frame {
    /// The children of a group from this one on.
    Rest {
        group: RowId,
        next: usize,
    },
    /// An element ends, and the one of this number is the innermost open one again.
    Element {
        outer: u32,
        complex: bool,
    },
    /// A box ends that began at this bit, and this is around it.
    Box {
        outer: Outside,
        from: u64,
    },
    /// The content of the open element ends, which has no box and began at this bit.
    Spanning {
        from: u64,
    },
    /// A component with a terminator ends, and so many lists are open again.
    Scope {
        count: usize,
    },
    /// A representation of the element of this row, or of an occurrence of it that is tried, ends, for which a mark is open.
    Trial {
        element: RowId,
        occurrence: bool,
        next: Next,
    },
    /// A branch of the choice of this row ends, for which a point is open. Where it fails, the branch of this place follows ('Choices').
    Branch {
        choice: RowId,
        next: usize,
    },
    /// An occurrence of this row ends, for which a point is open, which an initiator resolves or not. Where it is done, at most so
    /// many more follow ('Arrays and Optional Elements').
    Occurrence {
        body: RowId,
        initiated: bool,
        left: u64,
    },
    /// This row ends, and so many more times it stands there ('Arrays and Optional Elements').
    Times {
        body: RowId,
        left: u128,
    },
    /// The separator that a slot begins with was sought ('Sequence Groups').
    Before {
        slot: SlotPlace,
    },
    /// The occurrence of a slot ends, whose content began at this bit, and which was empty there or not.
    Content {
        slot: SlotPlace,
        bit: u64,
        empty: bool,
    },
    /// The separator that a slot ends with was sought. Its content began at this bit.
    Closing {
        slot: SlotPlace,
        bit: u64,
    },
    /// A row without a slot ends, and the sequence goes on with this one.
    Aside {
        slot: SlotPlace,
    },
    /// A component ends that has these statements behind it, whose expressions begin there ('DFDL Schema Component Model').
    Concluding {
        behind: Statements,
        start: Start,
    },
    /// A component ends for which an instance of a variable was opened ('DFDL Expression Language').
    Instance,
}

/// A slot of a sequence with separators whose occurrences are tried, and how far the sequence has come ('Sequence Groups').
#[derive(Debug, Clone, Copy, PartialEq, Eq)]
pub struct SlotPlace {
    /// the number of the sequence's row
    pub sequence: u32,
    /// the place of the slot's row among those of the sequence
    pub place: usize,
    /// it is one of those that are tried
    pub optional: bool,
    pub rule: SlotRule,
    /// how many more of these there may be behind it
    pub left: u128,
    pub progress: Progress,
    /// the bit at which the content of the slot began that was there last
    pub last: u64,
}

/// Which slot of a sequence comes next.
#[derive(Debug, Clone, Copy, PartialEq, Eq)]
pub(crate) enum Coming {
    /// None of those that were asked for, and the sequence has come this far.
    Past(Progress),
    /// One that begins with a separator.
    Seeks { slot: SlotPlace, here: Here },
    /// One that begins with its content, of the row of this number.
    Parses { slot: SlotPlace, body: u32 },
    /// Those of a row of which the question of this number tells how many are required.
    Counts { slot: SlotPlace, question: u32 },
    /// The row of this number, which has none, and this one behind it.
    Aside { slot: SlotPlace, body: u32 },
    /// One without the separator that it has to begin with.
    Lacks,
    /// None at all.
    Over,
}

/// What is around a box.
#[derive(Debug, Clone, Copy, PartialEq, Eq)]
pub struct Outside {
    /// the bit at which the box around it ends
    pub stop: u64,
    /// how many of the open lists end no content in that box
    pub hidden: usize,
}

/// Which representation of an element follows where one fails ('DFDL Data Syntax Grammar').
#[derive(Debug, Clone, Copy, PartialEq, Eq)]
pub enum Next {
    /// The empty one, where it is tried, and else the normal one.
    Empty,
    /// The normal one.
    Normal,
    /// None: the normal one was the last.
    Nothing,
}

/// What the row of an element says of it, or of an occurrence of it that is tried.
#[derive(Debug, Clone, Copy, PartialEq, Eq)]
pub(crate) struct Parts {
    /// It has elements inside.
    pub(crate) complex: bool,
    pub(crate) tried: Representations,
    pub(crate) body: RowId,
    /// It is an occurrence that is tried.
    pub(crate) occurrence: bool,
}

/// A delimiter that is sought ('Framing', 'Sequence Groups').
#[derive(Debug, Clone, Copy, PartialEq, Eq)]
pub enum Sought {
    /// A text of this list of the tables, as an initiator, which resolves the innermost point or not.
    Initiator { list: u32, resolves: bool },
    /// A text of this list of the tables, as a terminator, of a component that may have separators of the other one.
    Terminator { list: u32, separator: Option<u32> },
    /// A text of the innermost list that is open, as a separator.
    Separator,
}

/// What stands behind a length prefix.
#[derive(Debug, Clone, Copy, PartialEq, Eq)]
pub(crate) enum Behind {
    /// The leaf of the primitive of this number in the tables.
    Leaf(u32),
    /// A box with this row in it.
    Box(RowId),
}

/// What is done next.
#[derive(Debug, Clone, Copy, PartialEq, Eq)]
pub enum Focus {
    /// A row begins.
    Enter(RowId),
    /// Fill up to this bit is passed over.
    Pass(u64),
    /// The rest of the innermost box from the byte of a bit on is passed over. This is around it.
    PassRest { bit: u64, outer: Outside },
    /// The leaf of the primitive of this number in the tables is read, with this size.
    Sized { prim: u32, size: TextSize },
    /// A delimiter is sought.
    Seek { sought: Sought },
    /// It is looked whether a slot is empty whose content comes next.
    LookIn { slot: SlotPlace },
    /// It is looked whether a separator follows behind a slot, whose content began at this bit.
    LookBehind { slot: SlotPlace, bit: u64 },
    /// The question of this number is asked how many slots of a row are required.
    Count { slot: SlotPlace, question: u32 },
    /// A row has ended.
    Leave(End),
}
