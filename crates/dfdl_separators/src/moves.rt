// What is told of the slots of a group, and what to do next.

use dfdl_report::ParseCause;

/// What was found in the data.
#[derive(Debug, Clone, Copy, PartialEq, Eq)]
pub enum SlotSeen {
    /// A slot begins. One of kind parsed is optional, whatever `optional` says.
    Slot {
        optional: bool,
        parsed: bool,
    },
    /// A separator was sought.
    Separator {
        found: bool,
    },
    /// The occurrence ended: whether it moved over a bit, whether the slot was empty at the start of its content, the cause
    /// where it failed, and whether its point of uncertainty was resolved.
    Ended {
        moved: bool,
        empty: bool,
        failure: Option<ParseCause>,
        resolved: bool,
    },
    /// The group has no more slots.
    NoMore,
}

/// Why a group fails in its slots.
#[derive(Debug, Clone, Copy, PartialEq, Eq)]
pub enum SlotFault {
    /// A separator that has to be there is missing.
    MissingSeparator,
    /// The last slot is optional and empty, at the start of that slot's content.
    TrailingEmpty,
    /// The occurrence failed.
    Occurrence(ParseCause),
}

/// What to do next. Where an occurrence failed or moved no bit and the slot goes on, its place is that of the start of its
/// content.
#[derive(Debug, Clone, Copy, PartialEq, Eq)]
pub enum SlotMove {
    /// Seek a separator, and pass over it if it is there.
    TakeSeparator,
    /// Seek a separator, and stay before it.
    LookForSeparator,
    /// Parse the occurrence.
    Parse,
    /// The slot is done, and its item stands.
    Keep,
    /// The slot is done without an item, and counts as a slot.
    Drop,
    /// The slot isn't there: go back to before it, its separator included, and end its array.
    EndArray,
    /// The group is done.
    EndGroup,
    /// The group fails.
    Fail(SlotFault),
}
