// The slots of a sequence with separators.
use crate::row::RowId;
use std::marker::Model;

/// One child of a sequence with separators: so many of its occurrences are required, and so many further ones are tried. Each is a
/// slot, unless it is a child that has none ('Sequence Groups').
#[derive(Debug, Clone, Copy, PartialEq, Eq)]
pub struct Slot {
    pub body: RowId,
    pub least: u32,
    pub further: u64,
    /// Those that are tried are of occursCountKind parsed.
    pub is_parsed: bool,
    /// The row is that of an item of an array.
    pub is_item: bool,
    /// How many occurrences are required is what the question of this number in the tables tells, in place of `least`.
    pub question: Option<u32>,
    /// The row has no slot: it is there once, and no separator belongs to it.
    pub is_slotless: bool,
}

/// Slots in the order of the schema. A contract sees them as their list.
#[derive(Debug, Drop)]
pub struct SlotList {
    slots: Vec<Slot>,
}

impl Model for SlotList {
    ghost use Rattle.std.specs.Prelude.{List};
    ghost use Rattle.dfdl_terms.specs.declared.slots.Slot.{Slot as SlotOf};

    ghost Value = { List SlotOf };

    ghost view = { λ l. l.slots.items };
}

impl SlotList {
    ghost use Rattle.std.specs.Prelude.{◌≡◌};

    /// Takes the slots as they are, and no memory.
    pub fn from_vec(slots: Vec<Slot>) -> SlotList
        ensures { result ≡ slots.items }
    {
        SlotList { slots }
    }

    pub fn as_slice(&self) -> &[Slot]
        ensures { result.now ≡ self.now }
    {
        self.slots.as_slice()
    }
}
