// The row of a sequence with separators, some of whose occurrences are tried or told by a question.
ghost use Rattle.std.specs.Prelude.{◌≡◌, ◌<◌, ◌+◌, ◌^◌, ◌++◌, ◌∷◌, [], get_or, length, IfOk, OnOk};
ghost use Rattle.dfdl_rows.specs.Apart as spec;

use crate::component::Separated;
use crate::times::{Times, have_told, have_tried, is_slotless};
use dfdl_terms::{Row, RowId, Slot, SlotList};
use std::alloc::{AllocError, Global};

/// The separators of a sequence, where it has some and some of the occurrences of its parts are tried or told by a question.
pub(crate) fn apart(separated: Option<Separated>, slots: &[Times]) -> Option<Separated>
    ensures { result ≡ spec.apart separated slots.now }
{
    match separated {
        Some(own) => {
            if have_tried(slots) || have_told(slots) {
                Some(own)
            } else {
                None
            }
        }
        None => None,
    }
}

/// The row of the part of a number.
pub(crate) fn part_at(parts: &[RowId], at: usize) -> RowId
    ensures { result ≡ get_or parts.now at 0 }
{
    if at < parts.len() {
        parts[at]
    } else {
        RowId::new(0)
    }
}

// Adds the slot of a part.
fn push_slot(slots: &mut Vec<Slot>, times: Times, part: RowId) -> Result<(), AllocError>
    ensures { OnOk result (slots.new.items ≡ slots.old.items ++ spec.slot_of times part ∷ []) }
{
    slots.push(Slot {
        body: part,
        least: times.least,
        further: times.further,
        is_parsed: times.is_parsed,
        is_item: times.is_item,
        question: times.question,
        is_slotless: is_slotless(times),
    })?;
    Ok(())
}

// The slots of parts, which occur so often.
fn slots_of(alloc: Global, slots: &[Times], parts: &[RowId]) -> Result<SlotList, AllocError>
    ensures { IfOk result (λ made. made ≡ spec.slots_from parts.now slots.now 0) }
{
    let mut made = Vec::new(alloc);
    for at in 0..slots.len() {
        push_slot(&mut made, slots[at], part_at(parts, at))?;
    }
    Ok(SlotList::from_vec(made))
}

/// The row of a sequence with these separators, of whose parts these are the last rows, which occur so often.
pub(crate) fn apart_row(
    alloc: Global,
    initiated: bool,
    slots: &[Times],
    parts: &[RowId],
    separated: Separated,
) -> Result<Row, AllocError>
    ensures { IfOk result (λ row. row ≡ spec.apart_row initiated slots.now parts.now separated) }
{
    let slots = slots_of(alloc, slots, parts)?;
    Ok(Row::Separated {
        policy: separated.policy,
        position: separated.position,
        initiated,
        slots,
    })
}
