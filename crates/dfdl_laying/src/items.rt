// Occurrences of elements in their slots.
ghost use Rattle.std.specs.Prelude.{◌≡◌, IfOk, OnOk};
ghost use Rattle.dfdl_laying.specs.Running as running;

use crate::acting::separating_of;
use crate::frame::{Open, Slots, Tops};
use crate::laid::Laid;
use crate::slots::{Place, is_final, slot_of};
use dfdl_cells::{Cell, CellId, CellList, Earlier};
use dfdl_outline::{ContentSize, Entry, Part, SimpleSort, steps_of};
use dfdl_value::Value;
use std::alloc::{AllocError, Global};

// The slot of the occurrence of a part that so many come before.
fn place_of(top: &Open, part: &Part, count: u64, steps: u32) -> Place
    ensures { result ≡ running.place_of top.now part.now count steps }
{
    Place {
        component: top.component,
        slot: slot_of(part, count),
        is_final: is_final(part, count),
        count: steps,
    }
}

/// The number of the cause of what is missing.
pub(crate) fn cause_of(is_hidden: bool) -> u8
    ensures { result ≡ running.cause_of is_hidden }
{
    if is_hidden { 13 } else { 10 }
}

/// How many elements an element with parts declares.
pub(crate) fn declared_in(entry: &Entry) -> u32
    ensures { result ≡ running.declared_in entry.now }
{
    match entry.parts.as_slice().get(0) {
        Some(part) => part.declared,
        None => 0,
    }
}

// The value of a simple element that is missing.
pub(crate) fn filled(
    alloc: Global,
    is_hidden: bool,
    default: &Option<Value>,
) -> Result<Cell, AllocError>
    ensures { IfOk result (λ cell. cell ≡ running.filled is_hidden default.now) }
{
    match default {
        Some(value) => Ok(Cell::Given {
            value: value.copy(alloc)?,
        }),
        None => Ok(Cell::Faulty {
            cause: cause_of(is_hidden),
        }),
    }
}

// How many occurrences there are behind it.
pub(crate) fn filled_count(part: &Part, count: u64, default: &Option<Value>) -> u64
    ensures { result ≡ running.filled_count part.now count default.now }
{
    match default {
        Some(_) => count.saturating_add(1),
        None => u64::from(part.least),
    }
}

/// A component that opens, of which nothing was laid.
pub(crate) fn opened(
    alloc: Global,
    component: u32,
    first: CellId,
    is_hidden: bool,
    markup: u32,
) -> Open
    ensures { result ≡ running.opened component first is_hidden markup }
{
    Open {
        component,
        part: 0,
        count: 0,
        first,
        is_hidden,
        is_chosen: false,
        items: CellList::empty(alloc),
        slots: Slots {
            before: Earlier::None,
            next: None,
            first: 0,
        },
        markup,
    }
}

impl Laid {
    // A slot of so many steps begins at a part.
    #[tactic(auto, unfolding(crate::specs::Running::begun_slot))]
    pub(crate) fn begin_part(
        &mut self,
        entry: &Entry,
        top: &Open,
        part: &Part,
        steps: u32,
    ) -> Result<Slots, AllocError>
        ensures slots { IfOk result (λ slots. slots ≡ (running.begun_slot entry.now top.now part.now steps self.old).slots) }
        ensures laid { OnOk result (self.new ≡ (running.begun_slot entry.now top.now part.now steps self.old).laid) }
    {
        let place = place_of(top, part, top.count, steps);
        self.begin_slot(separating_of(&entry.sort), place, &top.slots)
    }

    // The slot of the occurrence that so many come before ends.
    #[tactic(auto, unfolding(crate::specs::Running::ended_slot))]
    pub(crate) fn end_part(
        &mut self,
        entry: &Entry,
        top: &Open,
        part: &Part,
        count: u64,
        steps: u32,
        last: &Slots,
    ) -> Result<Slots, AllocError>
        ensures slots { IfOk result (λ slots. slots ≡ (running.ended_slot entry.now top.now part.now count steps last.now self.old).slots) }
        ensures laid { OnOk result (self.new ≡ (running.ended_slot entry.now top.now part.now count steps last.now self.old).laid) }
    {
        let place = place_of(top, part, count, steps);
        self.end_slot(separating_of(&entry.sort), place, last)
    }

    // An occurrence of an element without parts was laid, so that there are so many.
    fn end_item(
        &mut self,
        entry: &Entry,
        top: Open,
        part: &Part,
        steps: u32,
        count: u64,
        item: CellId,
        last: &Slots,
    ) -> Result<Tops, AllocError>
        ensures tops { IfOk result (λ tops. tops ≡ (running.item_ended entry.now top part.now steps count item last.now self.old).tops) }
        ensures laid { OnOk result (self.new ≡ (running.item_ended entry.now top part.now steps count item last.now self.old).laid) }
    {
        let mut top = top;
        let slots = self.end_part(entry, &top, part, top.count, steps, last)?;
        top.items.push(item)?;
        top.count = count;
        top.slots = slots;
        Ok(Tops { top, inner: None })
    }

    // A simple element as an occurrence, so that there are so many.
    #[tactic(auto, unfolding(crate::specs::Running::simple_item))]
    pub(crate) fn simple_item(
        &mut self,
        alloc: Global,
        entry: &Entry,
        top: Open,
        part: &Part,
        inner: &Entry,
        own: &SimpleSort,
        is: Cell,
        count: u64,
    ) -> Result<Tops, AllocError>
        ensures tops { IfOk result (λ tops. tops ≡ (running.simple_item entry.now top part.now inner.now own.now is count self.old).tops) }
        ensures laid { OnOk result (self.new ≡ (running.simple_item entry.now top part.now inner.now own.now is count self.old).laid) }
    {
        let steps = steps_of(inner);
        let slots = self.begin_part(entry, &top, part, steps)?;
        let item = CellId::new(self.next()?);
        self.push_simple(alloc, part.component, own, inner.around, is)?;
        self.end_item(entry, top, part, steps, count, item, &slots)
    }

    // A calculated element as an occurrence.
    #[tactic(auto, unfolding(crate::specs::Running::calculated_item))]
    pub(crate) fn calculated_item(
        &mut self,
        entry: &Entry,
        top: Open,
        part: &Part,
        inner: &Entry,
    ) -> Result<Tops, AllocError>
        ensures tops { IfOk result (λ tops. tops ≡ (running.calculated_item entry.now top part.now inner.now self.old).tops) }
        ensures laid { OnOk result (self.new ≡ (running.calculated_item entry.now top part.now inner.now self.old).laid) }
    {
        let steps = steps_of(inner);
        let slots = self.begin_part(entry, &top, part, steps)?;
        let item = CellId::new(self.next()?);
        let count = top.count.saturating_add(1);
        self.push_calculated()?;
        self.end_item(entry, top, part, steps, count, item, &slots)
    }

    // An element that isn't laid yet as an occurrence.
    #[tactic(auto, unfolding(crate::specs::Running::unbuilt_item))]
    pub(crate) fn unbuilt_item(
        &mut self,
        entry: &Entry,
        top: Open,
        part: &Part,
        inner: &Entry,
    ) -> Result<Tops, AllocError>
        ensures tops { IfOk result (λ tops. tops ≡ (running.unbuilt_item entry.now top part.now inner.now self.old).tops) }
        ensures laid { OnOk result (self.new ≡ (running.unbuilt_item entry.now top part.now inner.now self.old).laid) }
    {
        let steps = steps_of(inner);
        let slots = self.begin_part(entry, &top, part, steps)?;
        let item = CellId::new(self.next()?);
        let count = top.count.saturating_add(1);
        self.push_unbuilt()?;
        self.end_item(entry, top, part, steps, count, item, &slots)
    }

    // An element with parts that is missing, as an occurrence.
    #[tactic(auto, unfolding(crate::specs::Running::missed_item))]
    pub(crate) fn missed_item(
        &mut self,
        entry: &Entry,
        top: Open,
        part: &Part,
        inner: &Entry,
        size: ContentSize,
    ) -> Result<Tops, AllocError>
        ensures tops { IfOk result (λ tops. tops ≡ (running.missed_item entry.now top part.now inner.now size self.old).tops) }
        ensures laid { OnOk result (self.new ≡ (running.missed_item entry.now top part.now inner.now size self.old).laid) }
    {
        let steps = steps_of(inner);
        let slots = self.begin_part(entry, &top, part, steps)?;
        let item = CellId::new(self.next()?);
        let count = u64::from(part.least);
        self.miss_complex(
            part.component,
            declared_in(inner),
            size,
            inner.around,
            cause_of(false),
        )?;
        self.end_item(entry, top, part, steps, count, item, &slots)
    }

    // An element with parts that opens, as an occurrence.
    #[tactic(auto, unfolding(crate::specs::Running::complex_item))]
    pub(crate) fn complex_item(
        &mut self,
        alloc: Global,
        entry: &Entry,
        top: Open,
        part: &Part,
        inner: &Entry,
        size: ContentSize,
    ) -> Result<Tops, AllocError>
        ensures tops { IfOk result (λ tops. tops ≡ (running.complex_item entry.now top part.now inner.now size self.old).tops) }
        ensures laid { OnOk result (self.new ≡ (running.complex_item entry.now top part.now inner.now size self.old).laid) }
    {
        let mut top = top;
        let slots = self.begin_part(entry, &top, part, steps_of(inner))?;
        let first = self.next()?;
        let markup = self.markup_here();
        self.open_complex(
            alloc,
            part.component,
            declared_in(inner),
            size,
            inner.around,
        )?;
        top.items.push(CellId::new(first))?;
        top.count = top.count.saturating_add(1);
        top.slots = slots;
        let inner = opened(
            alloc,
            part.component,
            CellId::new(first),
            top.is_hidden,
            markup,
        );
        Ok(Tops {
            top,
            inner: Some(inner),
        })
    }
}
