// The separators of a sequence, slot by slot.
ghost use Rattle.std.specs.Prelude.{◌≡◌, None, IfOk, OnOk};
ghost use Rattle.dfdl_laying.specs.Laying as laying;
ghost use Rattle.dfdl_laying.specs.Slots as slots;

use crate::frame::Slots;
use crate::laid::Laid;
use dfdl_cells::{Cell, CellId, Earlier, Piece, SlotEnd, Stands, Step};
use dfdl_outline::{Part, Separating, Slot};
use dfdl_separators::SeparatorPosition;
use std::alloc::AllocError;

/// A slot of a sequence, before its steps are laid.
#[derive(Debug, Clone, Copy, PartialEq, Eq)]
pub(crate) struct Place {
    /// The sequence.
    pub component: u32,
    pub slot: Slot,
    /// No slot can come behind it.
    pub is_final: bool,
    /// So many steps lie in it.
    pub count: u32,
}

/// The slot of an occurrence of a part, where so many come before it.
pub(crate) fn slot_of(part: &Part, count: u64) -> Slot
    ensures { result ≡ slots.slot_of part.now count }
{
    if count < u64::from(part.least) {
        match part.slot {
            Slot::Absent => Slot::Absent,
            Slot::Always => Slot::Always,
            Slot::IfLong => Slot::Always,
            Slot::IfLater => Slot::Always,
        }
    } else {
        part.slot
    }
}

/// Whether no slot can come behind that.
pub(crate) fn is_final(part: &Part, count: u64) -> bool
    ensures { result ≡ slots.is_final part.now count }
{
    part.is_last && part.most.saturating_sub(1) <= count
}

// When a slot is written.
fn stands_by(slot: Slot, end: &SlotEnd, later: &Option<CellId>) -> Stands
    ensures { result ≡ slots.stands_by slot end.now later.now }
{
    match slot {
        Slot::Absent => Stands::Always,
        Slot::Always => Stands::Always,
        Slot::IfLong => Stands::IfLong(*end),
        Slot::IfLater => Stands::IfLater(*end, *later),
    }
}

// What the next separator between slots has before it, behind a slot that is written where it has a bit.
fn behind_long(before: Earlier, end: SlotEnd, cell: Option<CellId>) -> Earlier
    ensures { result ≡ slots.behind_long before end cell }
{
    match before {
        Earlier::None => Earlier::IfLong(end),
        Earlier::Some => Earlier::Some,
        Earlier::IfLong(other) => match cell {
            Some(cell) => Earlier::Told(cell),
            None => Earlier::IfLong(other),
        },
        Earlier::Told(other) => match cell {
            Some(cell) => Earlier::Told(cell),
            None => Earlier::Told(other),
        },
    }
}

// The same behind any slot.
fn behind_slot(slot: Slot, before: Earlier, end: SlotEnd, cell: Option<CellId>) -> Earlier
    ensures { result ≡ slots.behind_slot slot before end cell }
{
    match slot {
        Slot::Absent => before,
        Slot::Always => Earlier::Some,
        Slot::IfLong => behind_long(before, end, cell),
        Slot::IfLater => Earlier::Some,
    }
}

// Only a separator between slots asks for those before it.
fn before_next(
    position: SeparatorPosition,
    slot: Slot,
    before: Earlier,
    end: SlotEnd,
    cell: Option<CellId>,
) -> Earlier
    ensures { result ≡ slots.before_next position slot before end cell }
{
    match position {
        SeparatorPosition::Prefix => Earlier::None,
        SeparatorPosition::Infix => behind_slot(slot, before, end, cell),
        SeparatorPosition::Postfix => Earlier::None,
    }
}

impl Laid {
    // The unknown of the next separator, which may be there already.
    fn make(&mut self, next: Option<CellId>) -> Result<CellId, AllocError>
        ensures cell { IfOk result (λ cell. cell ≡ slots.made_cell next self.old) }
        ensures made { OnOk result (self.new ≡ slots.made next self.old) }
    {
        match next {
            Some(cell) => Ok(cell),
            None => self.push_unknown(self.here.owner, Cell::Waiting),
        }
    }

    // The unknown that a separator asks for whose slot depends on later ones.
    fn make_later(&mut self, slot: Slot, is_final: bool) -> Result<Option<CellId>, AllocError>
        ensures cell { IfOk result (λ cell. cell ≡ slots.later_cell slot is_final self.old) }
        ensures made { OnOk result (self.new ≡ slots.later_made slot is_final self.old) }
    {
        match slot {
            Slot::IfLater => {
                if is_final {
                    Ok(None)
                } else {
                    let later = self.push_unknown(self.here.owner, Cell::Waiting)?;
                    Ok(Some(later))
                }
            }
            Slot::Absent => Ok(None),
            Slot::Always => Ok(None),
            Slot::IfLong => Ok(None),
        }
    }

    // A slot of so many steps from one on.
    fn slot_end(&self, first: u32, count: u32) -> SlotEnd
        ensures { result ≡ slots.slot_end first count self.now }
    {
        SlotEnd {
            around: Some(self.here.complex),
            first,
            count,
        }
    }

    // The piece of a separator behind its step, whose unknown waits.
    fn lay_separator(
        &mut self,
        component: u32,
        own: Separating,
        stands: Stands,
        before: Earlier,
        cell: CellId,
    ) -> Result<(), AllocError>
        ensures { OnOk result (self.new ≡ slots.separator_piece component own stands before cell self.old) }
    {
        let piece = self.book.push_piece(Piece::Separator {
            component,
            list: own.list,
            position: own.position,
            stands,
            earlier: before,
        })?;
        self.give(cell, Cell::Bits { piece });
        Ok(())
    }

    // The same, and what comes after it.
    fn separate_by(
        &mut self,
        own: Separating,
        place: Place,
        end: SlotEnd,
        cell: CellId,
        last: &Slots,
    ) -> Result<Slots, AllocError>
        ensures slots { IfOk result (λ new. new ≡ (slots.separated_by place.component own place.slot place.is_final end cell last.now self.old).slots) }
        ensures laid { OnOk result (self.new ≡ (slots.separated_by place.component own place.slot place.is_final end cell last.now self.old).laid) }
    {
        let later = self.make_later(place.slot, place.is_final)?;
        let stands = stands_by(place.slot, &end, &later);
        self.lay_separator(place.component, own, stands, last.before, cell)?;
        Ok(Slots {
            before: before_next(own.position, place.slot, last.before, end, Some(cell)),
            next: later,
            first: last.first,
        })
    }

    // The step of a separator.
    fn step_separator(&mut self, last: &Slots) -> Result<CellId, AllocError>
        ensures cell { IfOk result (λ cell. cell ≡ slots.made_cell last.now.next self.old) }
        ensures step { OnOk result (self.new ≡ slots.separator_step last.now self.old) }
    {
        let cell = self.make(last.next)?;
        self.step(Step::Separator { cell })?;
        Ok(cell)
    }

    // A separator before a slot.
    fn separate_before(
        &mut self,
        own: Separating,
        place: Place,
        last: &Slots,
    ) -> Result<Slots, AllocError>
        ensures slots { IfOk result (λ new. new ≡ (slots.separated_before place.component own place.slot place.is_final place.count last.now self.old).slots) }
        ensures laid { OnOk result (self.new ≡ (slots.separated_before place.component own place.slot place.is_final place.count last.now self.old).laid) }
    {
        let cell = self.step_separator(last)?;
        let end = self.slot_end(self.steps_here()?, place.count);
        self.separate_by(own, place, end, cell, last)
    }

    // One behind a slot.
    fn separate_behind(
        &mut self,
        own: Separating,
        place: Place,
        last: &Slots,
    ) -> Result<Slots, AllocError>
        ensures slots { IfOk result (λ new. new ≡ (slots.separated_behind place.component own place.slot place.is_final place.count last.now self.old).slots) }
        ensures laid { OnOk result (self.new ≡ (slots.separated_behind place.component own place.slot place.is_final place.count last.now self.old).laid) }
    {
        let cell = self.step_separator(last)?;
        let end = self.slot_end(last.first, place.count);
        self.separate_by(own, place, end, cell, last)
    }

    // The first slot of those with separators between them.
    fn first_slot(&self, place: Place, last: &Slots) -> Result<Slots, AllocError>
        ensures { IfOk result (λ new. new ≡ (slots.first_slot place.slot place.count last.now self.now).slots) }
    {
        let end = self.slot_end(self.steps_here()?, place.count);
        Ok(Slots {
            before: behind_slot(place.slot, last.before, end, None),
            next: last.next,
            first: last.first,
        })
    }

    // A slot of those with separators between them.
    fn between(&mut self, own: Separating, place: Place, last: &Slots) -> Result<Slots, AllocError>
        ensures slots { IfOk result (λ new. new ≡ (slots.between last.now.before place.component own place.slot place.is_final place.count last.now self.old).slots) }
        ensures laid { OnOk result (self.new ≡ (slots.between last.now.before place.component own place.slot place.is_final place.count last.now self.old).laid) }
    {
        match last.before {
            Earlier::None => self.first_slot(place, last),
            Earlier::Some => self.separate_before(own, place, last),
            Earlier::IfLong(_) => self.separate_before(own, place, last),
            Earlier::Told(_) => self.separate_before(own, place, last),
        }
    }

    // A slot begins, by the position of its separator.
    fn begin_at(&mut self, own: Separating, place: Place, last: &Slots) -> Result<Slots, AllocError>
        ensures slots { IfOk result (λ new. new ≡ (slots.begun_at own.position place.component own place.slot place.is_final place.count last.now self.old).slots) }
        ensures laid { OnOk result (self.new ≡ (slots.begun_at own.position place.component own place.slot place.is_final place.count last.now self.old).laid) }
    {
        match own.position {
            SeparatorPosition::Prefix => self.separate_before(own, place, last),
            SeparatorPosition::Infix => self.between(own, place, last),
            SeparatorPosition::Postfix => Ok(Slots {
                before: last.before,
                next: last.next,
                first: self.steps_here()?,
            }),
        }
    }

    // It ends.
    fn end_at(&mut self, own: Separating, place: Place, last: &Slots) -> Result<Slots, AllocError>
        ensures slots { IfOk result (λ new. new ≡ (slots.ended_at own.position place.component own place.slot place.is_final place.count last.now self.old).slots) }
        ensures laid { OnOk result (self.new ≡ (slots.ended_at own.position place.component own place.slot place.is_final place.count last.now self.old).laid) }
    {
        match own.position {
            SeparatorPosition::Postfix => self.separate_behind(own, place, last),
            SeparatorPosition::Prefix => Ok(*last),
            SeparatorPosition::Infix => Ok(*last),
        }
    }

    /// A slot begins in a sequence with these separators, if it has some.
    #[tactic(auto, unfolding(crate::specs::Slots::slot_begun))]
    pub(crate) fn begin_slot(
        &mut self,
        separating: Option<Separating>,
        place: Place,
        last: &Slots,
    ) -> Result<Slots, AllocError>
        ensures slots { IfOk result (λ new. new ≡ (slots.slot_begun place.component separating place.slot place.is_final place.count last.now self.old).slots) }
        ensures laid { OnOk result (self.new ≡ (slots.slot_begun place.component separating place.slot place.is_final place.count last.now self.old).laid) }
    {
        match separating {
            Some(own) => {
                if has_slot(place.slot) {
                    self.begin_at(own, place, last)
                } else {
                    Ok(*last)
                }
            }
            None => Ok(*last),
        }
    }

    /// It ends.
    #[tactic(auto, unfolding(crate::specs::Slots::slot_ended))]
    pub(crate) fn end_slot(
        &mut self,
        separating: Option<Separating>,
        place: Place,
        last: &Slots,
    ) -> Result<Slots, AllocError>
        ensures slots { IfOk result (λ new. new ≡ (slots.slot_ended place.component separating place.slot place.is_final place.count last.now self.old).slots) }
        ensures laid { OnOk result (self.new ≡ (slots.slot_ended place.component separating place.slot place.is_final place.count last.now self.old).laid) }
    {
        match separating {
            Some(own) => {
                if has_slot(place.slot) {
                    self.end_at(own, place, last)
                } else {
                    Ok(*last)
                }
            }
            None => Ok(*last),
        }
    }

    // The separator that one before it asks for, where no slot comes any more.
    fn end_next(
        &mut self,
        component: u32,
        own: Separating,
        cell: CellId,
        before: Earlier,
    ) -> Result<(), AllocError>
        ensures { OnOk result (self.new ≡ slots.last_separator component own cell before self.old) }
    {
        let end = self.slot_end(self.steps_here()?, 0);
        self.lay_separator(component, own, Stands::IfLater(end, None), before, cell)
    }

    /// No slot of a sequence comes any more.
    #[tactic(auto, unfolding(crate::specs::Slots::slots_ended))]
    pub(crate) fn end_slots(
        &mut self,
        component: u32,
        separating: Option<Separating>,
        last: &Slots,
    ) -> Result<(), AllocError>
        ensures { OnOk result (self.new ≡ slots.slots_ended component separating last.now self.old) }
    {
        match separating {
            Some(own) => match last.next {
                Some(cell) => self.end_next(component, own, cell, last.before),
                None => Ok(()),
            },
            None => Ok(()),
        }
    }
}

// Whether an occurrence has a slot.
fn has_slot(slot: Slot) -> bool
    ensures { result ≡ slots.has_slot slot }
{
    match slot {
        Slot::Absent => false,
        Slot::Always => true,
        Slot::IfLong => true,
        Slot::IfLater => true,
    }
}
