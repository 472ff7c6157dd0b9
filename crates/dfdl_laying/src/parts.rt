// Acts of laying inside of what is open.
ghost use Rattle.std.specs.Prelude.{◌≡◌, ◌-◌, min, option_copied, slice_get, IfOk, OnOk};
ghost use Rattle.dfdl_laying.specs.Running as running;

use crate::act::Act;
use crate::acting::{first_of, separating_of};
use crate::frame::{Open, Tops};
use crate::items::{cause_of, filled, filled_count, opened};
use crate::laid::Laid;
use dfdl_cells::{Cell, CellId, CellList};
use dfdl_outline::{ContentSize, Entry, Layout, Part, Separating, Sort};
use std::alloc::{AllocError, Global};
use std::mem;

// No part has this place.
const NO_PART: u32 = u32::MAX;

// Where laying is behind a part.
fn part_behind(sort: &Sort, part: u32) -> u32
    ensures { result ≡ running.part_behind sort.now part }
{
    match sort {
        Sort::Choice => NO_PART,
        Sort::Sequence { .. } => part.saturating_add(1),
        Sort::Complex { .. } => part.saturating_add(1),
        Sort::Simple(_) => part.saturating_add(1),
        Sort::Calculated => part.saturating_add(1),
        Sort::Hidden => part.saturating_add(1),
        Sort::Unbuilt => part.saturating_add(1),
    }
}

// Whether a group hides what is in it.
fn hides(sort: &Sort) -> bool
    ensures { result ≡ running.hides sort.now }
{
    match sort {
        Sort::Hidden => true,
        Sort::Sequence { .. } => false,
        Sort::Choice => false,
        Sort::Complex { .. } => false,
        Sort::Simple(_) => false,
        Sort::Calculated => false,
        Sort::Unbuilt => false,
    }
}

// The list of separators.
fn separators_of(separating: Option<Separating>) -> Option<u32>
    ensures { result ≡ running.separators_of separating }
{
    match separating {
        Some(own) => Some(own.list),
        None => None,
    }
}

// Nothing opened.
fn only(top: Open) -> Tops
    ensures { result ≡ running.only top }
{
    Tops { top, inner: None }
}

impl Laid {
    // An item of a part is laid that the infoset has.
    fn take_by(
        &mut self,
        alloc: Global,
        entry: &Entry,
        top: Open,
        part: &Part,
        inner: &Entry,
        is: Cell,
    ) -> Result<Tops, AllocError>
        ensures tops { IfOk result (λ tops. tops ≡ (running.taken_by entry.now top part.now inner.now inner.now.sort is self.old).tops) }
        ensures laid { OnOk result (self.new ≡ (running.taken_by entry.now top part.now inner.now inner.now.sort is self.old).laid) }
    {
        match &inner.sort {
            Sort::Complex { size } => self.complex_item(alloc, entry, top, part, inner, *size),
            Sort::Simple(own) => {
                let count = top.count.saturating_add(1);
                self.simple_item(alloc, entry, top, part, inner, own, is, count)
            }
            Sort::Calculated => self.calculated_item(entry, top, part, inner),
            Sort::Unbuilt => self.unbuilt_item(entry, top, part, inner),
            Sort::Sequence { .. } => Ok(only(top)),
            Sort::Choice => Ok(only(top)),
            Sort::Hidden => Ok(only(top)),
        }
    }

    // An element with parts that the infoset doesn't have.
    fn fill_complex(
        &mut self,
        alloc: Global,
        entry: &Entry,
        top: Open,
        part: &Part,
        inner: &Entry,
        size: ContentSize,
    ) -> Result<Tops, AllocError>
        ensures tops { IfOk result (λ tops. tops ≡ (running.filled_complex entry.now top part.now inner.now size self.old).tops) }
        ensures laid { OnOk result (self.new ≡ (running.filled_complex entry.now top part.now inner.now size self.old).laid) }
    {
        if top.is_hidden {
            self.complex_item(alloc, entry, top, part, inner, size)
        } else {
            self.missed_item(entry, top, part, inner, size)
        }
    }

    // An occurrence that the infoset doesn't have.
    fn fill_by(
        &mut self,
        alloc: Global,
        entry: &Entry,
        top: Open,
        part: &Part,
        inner: &Entry,
    ) -> Result<Tops, AllocError>
        ensures tops { IfOk result (λ tops. tops ≡ (running.filled_by entry.now top part.now inner.now inner.now.sort self.old).tops) }
        ensures laid { OnOk result (self.new ≡ (running.filled_by entry.now top part.now inner.now inner.now.sort self.old).laid) }
    {
        match &inner.sort {
            Sort::Complex { size } => self.fill_complex(alloc, entry, top, part, inner, *size),
            Sort::Simple(own) => {
                let is = filled(alloc, top.is_hidden, &own.default)?;
                let count = filled_count(part, top.count, &own.default);
                self.simple_item(alloc, entry, top, part, inner, own, is, count)
            }
            Sort::Calculated => self.calculated_item(entry, top, part, inner),
            Sort::Unbuilt => self.unbuilt_item(entry, top, part, inner),
            Sort::Sequence { .. } => Ok(only(top)),
            Sort::Choice => Ok(only(top)),
            Sort::Hidden => Ok(only(top)),
        }
    }

    // A slot without an occurrence.
    fn blank(&mut self, entry: &Entry, top: Open, part: &Part) -> Result<Tops, AllocError>
        ensures tops { IfOk result (λ tops. tops ≡ (running.blank_laid entry.now top part.now self.old).tops) }
        ensures laid { OnOk result (self.new ≡ (running.blank_laid entry.now top part.now self.old).laid) }
    {
        let mut top = top;
        let slots = self.begin_part(entry, &top, part, 0)?;
        let slots = self.end_part(entry, &top, part, top.count, 0, &slots)?;
        top.count = top.count.saturating_add(1);
        top.slots = slots;
        Ok(only(top))
    }

    // No item of a part comes any more.
    fn pass(&mut self, alloc: Global, entry: &Entry, top: Open, part: &Part) -> Tops
        ensures tops { result ≡ (running.passed entry.now top part.now self.old).tops }
        ensures laid { self.new ≡ (running.passed entry.now top part.now self.old).laid }
    {
        let mut top = top;
        let first = CellId::new(first_of(&top, part));
        let items = mem::replace(&mut top.items, CellList::empty(alloc));
        if part.is_element {
            self.give(first, Cell::Items { items });
        }
        top.part = part_behind(&entry.sort, top.part);
        top.count = 0;
        only(top)
    }

    // A group is gone into.
    fn enter(
        &mut self,
        alloc: Global,
        entry: &Entry,
        top: Open,
        part: &Part,
        inner: &Entry,
    ) -> Result<Tops, AllocError>
        ensures tops { IfOk result (λ tops. tops ≡ (running.entered entry.now top part.now inner.now self.old).tops) }
        ensures laid { OnOk result (self.new ≡ (running.entered entry.now top part.now inner.now self.old).laid) }
    {
        let mut top = top;
        let slots = self.begin_part(entry, &top, part, 0)?;
        let markup = self.markup_here();
        let separators = separators_of(separating_of(&inner.sort));
        self.open_group(alloc, part.component, inner.around, separators)?;
        top.count = top.count.saturating_add(1);
        top.slots = slots;
        let first = CellId::new(first_of(&top, part));
        let is_hidden = top.is_hidden || hides(&inner.sort);
        let inner = opened(alloc, part.component, first, is_hidden, markup);
        Ok(Tops {
            top,
            inner: Some(inner),
        })
    }

    // So many elements have no item, from an unknown of occurrences on.
    fn empty(&mut self, alloc: Global, first: u32, end: u32)
        ensures { self.new ≡ running.emptied first (end - first) self.old }
    {
        for number in first..end {
            let items = CellList::empty(alloc);
            self.give(CellId::new(number), Cell::Items { items });
        }
    }

    // Those from one place up to another, counted from an unknown on.
    fn empty_between(&mut self, alloc: Global, first: CellId, from: u32, to: u32)
        ensures { self.new ≡ running.emptied_between first from to self.old }
    {
        let first = first.number();
        self.empty(alloc, first.saturating_add(from), first.saturating_add(to));
    }

    // The elements of all branches but one have no item.
    fn empty_others(&mut self, alloc: Global, entry: &Entry, first: CellId, part: Option<&Part>)
        ensures { self.new ≡ running.others_emptied entry.now first (option_copied part.entry) self.old }
    {
        if let Some(part) = part {
            let end = part.first.saturating_add(part.declared);
            let first = first.number();
            self.empty_between(alloc, CellId::new(first), 0, part.first);
            self.empty_between(alloc, CellId::new(first), end, entry.declared);
        }
    }

    // A branch is taken.
    fn choose(&mut self, alloc: Global, entry: &Entry, top: Open, branch: u32) -> Tops
        ensures tops { result ≡ (running.chosen entry.now top branch self.old).tops }
        ensures laid { self.new ≡ (running.chosen entry.now top branch self.old).laid }
    {
        let mut top = top;
        let first = top.first.number();
        let part = entry.parts.as_slice().get(branch as usize);
        self.empty_others(alloc, entry, CellId::new(first), part);
        top.part = branch;
        top.is_chosen = true;
        only(top)
    }

    // There is none to take.
    fn unbranch(&mut self, entry: &Entry, top: Open) -> Result<Tops, AllocError>
        ensures tops { IfOk result (λ tops. tops ≡ (running.unbranched entry.now top self.old).tops) }
        ensures laid { OnOk result (self.new ≡ (running.unbranched entry.now top self.old).laid) }
    {
        let mut top = top;
        let first = top.first.number();
        self.miss_branch(CellId::new(first), entry.declared, cause_of(top.is_hidden))?;
        top.part = NO_PART;
        top.is_chosen = true;
        Ok(only(top))
    }

    // An occurrence that the infoset doesn't have, at the part where laying is.
    fn fill_at(
        &mut self,
        alloc: Global,
        layout: &Layout,
        entry: &Entry,
        top: Open,
    ) -> Result<Tops, AllocError>
        ensures tops { IfOk result (λ tops. tops ≡ (running.filled_at layout.now entry.now top (slice_get entry.now.parts top.part) self.old).tops) }
        ensures laid { OnOk result (self.new ≡ (running.filled_at layout.now entry.now top (slice_get entry.now.parts top.part) self.old).laid) }
    {
        match entry.parts.as_slice().get(top.part as usize) {
            Some(part) => match layout.entry(part.component) {
                Some(inner) => self.fill_by(alloc, entry, top, part, inner),
                None => Ok(only(top)),
            },
            None => Ok(only(top)),
        }
    }

    // A slot without one.
    fn blank_at(&mut self, entry: &Entry, top: Open) -> Result<Tops, AllocError>
        ensures tops { IfOk result (λ tops. tops ≡ (running.blank_at entry.now top (slice_get entry.now.parts top.part) self.old).tops) }
        ensures laid { OnOk result (self.new ≡ (running.blank_at entry.now top (slice_get entry.now.parts top.part) self.old).laid) }
    {
        match entry.parts.as_slice().get(top.part as usize) {
            Some(part) => self.blank(entry, top, part),
            None => Ok(only(top)),
        }
    }

    // The part has no occurrence more.
    fn pass_at(&mut self, alloc: Global, entry: &Entry, top: Open) -> Tops
        ensures tops { result ≡ (running.passed_at entry.now top (slice_get entry.now.parts top.part) self.old).tops }
        ensures laid { self.new ≡ (running.passed_at entry.now top (slice_get entry.now.parts top.part) self.old).laid }
    {
        match entry.parts.as_slice().get(top.part as usize) {
            Some(part) => self.pass(alloc, entry, top, part),
            None => only(top),
        }
    }

    // The group that is the part is gone into.
    fn enter_at(
        &mut self,
        alloc: Global,
        layout: &Layout,
        entry: &Entry,
        top: Open,
    ) -> Result<Tops, AllocError>
        ensures tops { IfOk result (λ tops. tops ≡ (running.entered_at layout.now entry.now top (slice_get entry.now.parts top.part) self.old).tops) }
        ensures laid { OnOk result (self.new ≡ (running.entered_at layout.now entry.now top (slice_get entry.now.parts top.part) self.old).laid) }
    {
        match entry.parts.as_slice().get(top.part as usize) {
            Some(part) => match layout.entry(part.component) {
                Some(inner) => self.enter(alloc, entry, top, part, inner),
                None => Ok(only(top)),
            },
            None => Ok(only(top)),
        }
    }

    /// The item that is aimed at.
    pub(crate) fn take_at(
        &mut self,
        alloc: Global,
        layout: &Layout,
        entry: &Entry,
        top: Open,
        is: Cell,
    ) -> Result<Tops, AllocError>
        ensures tops { IfOk result (λ tops. tops ≡ (running.taken_at layout.now entry.now top (slice_get entry.now.parts top.part) is self.old).tops) }
        ensures laid { OnOk result (self.new ≡ (running.taken_at layout.now entry.now top (slice_get entry.now.parts top.part) is self.old).laid) }
    {
        match entry.parts.as_slice().get(top.part as usize) {
            Some(part) => match layout.entry(part.component) {
                Some(inner) => self.take_by(alloc, entry, top, part, inner, is),
                None => Ok(only(top)),
            },
            None => Ok(only(top)),
        }
    }

    /// One act inside of what is open innermost.
    pub(crate) fn act_in(
        &mut self,
        alloc: Global,
        layout: &Layout,
        act: Act,
        entry: &Entry,
        top: Open,
    ) -> Result<Tops, AllocError>
        ensures tops { IfOk result (λ tops. tops ≡ (running.acted_in layout.now act entry.now top self.old).tops) }
        ensures laid { OnOk result (self.new ≡ (running.acted_in layout.now act entry.now top self.old).laid) }
    {
        match act {
            Act::Pass => Ok(self.pass_at(alloc, entry, top)),
            Act::Fill => self.fill_at(alloc, layout, entry, top),
            Act::Blank => self.blank_at(entry, top),
            Act::Enter => self.enter_at(alloc, layout, entry, top),
            Act::Choose(branch) => Ok(self.choose(alloc, entry, top, branch)),
            Act::Branchless => self.unbranch(entry, top),
            Act::Wait => Ok(only(top)),
            Act::Take => Ok(only(top)),
            Act::End => Ok(only(top)),
            Act::Leave => Ok(only(top)),
        }
    }
}
