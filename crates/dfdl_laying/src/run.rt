// Acts of laying one after another.
ghost use Rattle.std.specs.Prelude.{◌≡◌, ◌∷◌, option_copied, slice_get, IfOk, OnOk};
ghost use Rattle.dfdl_laying.specs.Acting as acting;
ghost use Rattle.dfdl_laying.specs.Running as running;

use crate::act::{Act, Aim};
use crate::acting::{act_at, is_stop};
use crate::frame::{Open, Tops};
use crate::laid::Laid;
use dfdl_cells::{Cell, CellId, Earlier, SlotEnd};
use dfdl_outline::{Entry, Layout, Part, Sort, steps_of};
use std::alloc::{AllocError, Global};
use std::collections::VecDeque;
use std::marker::Model;

/// What was laid, and what is open, the innermost first.
#[derive(Drop)]
pub struct Run {
    pub(crate) laid: Laid,
    pub(crate) stack: VecDeque<Open>,
}

impl Model for Run {
    ghost use Rattle.dfdl_laying.specs.Running.{Run};

    ghost Value = { Run };

    ghost view = { λ r. record { laid = r.laid; stack = r.stack.items } };
}

// Puts what is open before what is open around it. The last argument is none: it names the types of what it has inside.
pub(crate) fn put(
    stack: &mut VecDeque<Open>,
    top: Open,
    _inside: Option<(CellId, Earlier, SlotEnd)>,
) -> Result<(), AllocError>
    ensures { OnOk result (stack.new.items ≡ top ∷ stack.old.items) }
{
    stack.push_front(top)?;
    Ok(())
}

// Puts back what is open innermost, and what opened in it, if something did.
fn put_tops(stack: &mut VecDeque<Open>, tops: Tops) -> Result<(), AllocError>
    ensures { OnOk result (stack.new.items ≡ running.with_inner tops.inner (tops.top ∷ stack.old.items)) }
{
    put(stack, tops.top, None)?;
    match tops.inner {
        Some(inner) => put(stack, inner, None),
        None => Ok(()),
    }
}

impl Laid {
    // What a component ends with.
    fn close_by(&mut self, entry: &Entry, top: &Open) -> Result<(), AllocError>
        ensures { OnOk result (self.new ≡ running.closed_by entry.now top.now entry.now.sort self.old) }
    {
        match &entry.sort {
            Sort::Sequence { separating } => {
                self.end_slots(top.component, *separating, &top.slots)?;
                self.close_group(top.component, entry.around, top.markup)
            }
            Sort::Choice => self.close_group(top.component, entry.around, top.markup),
            Sort::Complex { size } => self.close_complex(top.component, *size, entry.around),
            Sort::Hidden => self.close_group(top.component, entry.around, top.markup),
            Sort::Simple(_) => Ok(()),
            Sort::Calculated => Ok(()),
            Sort::Unbuilt => Ok(()),
        }
    }

    // Behind a component the slot ends that it stands in, at a part.
    fn end_at_part(
        &mut self,
        entry: &Entry,
        top: Open,
        part: &Part,
        steps: u32,
    ) -> Result<Tops, AllocError>
        ensures tops { IfOk result (λ tops. tops ≡ (running.ended_part entry.now top part.now steps self.old).tops) }
        ensures laid { OnOk result (self.new ≡ (running.ended_part entry.now top part.now steps self.old).laid) }
    {
        let mut top = top;
        let count = top.count.saturating_sub(1);
        let slots = self.end_part(entry, &top, part, count, steps, &top.slots)?;
        top.slots = slots;
        Ok(Tops { top, inner: None })
    }

    // The same in what is open.
    fn end_in(&mut self, layout: &Layout, top: Open, steps: u32) -> Result<Tops, AllocError>
        ensures tops { IfOk result (λ tops. tops ≡ (running.ended_in (slice_get layout.now top.component) top steps self.old).tops) }
        ensures laid { OnOk result (self.new ≡ (running.ended_in (slice_get layout.now top.component) top steps self.old).laid) }
    {
        match layout.entry(top.component) {
            Some(entry) => match entry.parts.as_slice().get(top.part as usize) {
                Some(part) => self.end_at_part(entry, top, part, steps),
                None => Ok(Tops { top, inner: None }),
            },
            None => Ok(Tops { top, inner: None }),
        }
    }
}

// Behind a component the slot ends that it stands in, and behind the root the document.
fn end_behind(
    layout: &Layout,
    entry: &Entry,
    laid: &mut Laid,
    stack: &mut VecDeque<Open>,
) -> Result<(), AllocError>
    ensures laid { OnOk result (laid.new ≡ (running.ended_behind layout.now entry.now laid.old stack.old.items).laid) }
    ensures stack { OnOk result (stack.new.items ≡ (running.ended_behind layout.now entry.now laid.old stack.old.items).stack) }
{
    match stack.pop_front() {
        Some(top) => {
            let tops = laid.end_in(layout, top, steps_of(entry))?;
            put_tops(stack, tops)
        }
        None => laid.end_document(entry.around.fill),
    }
}

// A component ends.
fn leave(
    layout: &Layout,
    entry: &Entry,
    top: Open,
    laid: &mut Laid,
    stack: &mut VecDeque<Open>,
) -> Result<(), AllocError>
    ensures laid { OnOk result (laid.new ≡ (running.left layout.now entry.now top laid.old stack.old.items).laid) }
    ensures stack { OnOk result (stack.new.items ≡ (running.left layout.now entry.now top laid.old stack.old.items).stack) }
{
    laid.close_by(entry, &top)?;
    end_behind(layout, entry, laid, stack)
}

// Whether the act is to end what is open innermost.
fn is_leave(act: Act) -> bool
    ensures { result ≡ running.is_leave act }
{
    match act {
        Act::Leave => true,
        Act::Wait => false,
        Act::Take => false,
        Act::End => false,
        Act::Pass => false,
        Act::Fill => false,
        Act::Blank => false,
        Act::Enter => false,
        Act::Choose(_) => false,
        Act::Branchless => false,
    }
}

// One act at what is open innermost.
fn act_by(
    alloc: Global,
    layout: &Layout,
    act: Act,
    entry: &Entry,
    top: Open,
    laid: &mut Laid,
    stack: &mut VecDeque<Open>,
) -> Result<(), AllocError>
    ensures laid { OnOk result (laid.new ≡ (running.acted_by layout.now act entry.now top laid.old stack.old.items).laid) }
    ensures stack { OnOk result (stack.new.items ≡ (running.acted_by layout.now act entry.now top laid.old stack.old.items).stack) }
{
    if is_leave(act) {
        leave(layout, entry, top, laid, stack)
    } else {
        let tops = laid.act_in(alloc, layout, act, entry, top)?;
        put_tops(stack, tops)
    }
}

// One act.
fn act_on(
    alloc: Global,
    layout: &Layout,
    act: Act,
    laid: &mut Laid,
    stack: &mut VecDeque<Open>,
) -> Result<(), AllocError>
    ensures laid { OnOk result (laid.new ≡ (running.acted layout.now act laid.old stack.old.items).laid) }
    ensures stack { OnOk result (stack.new.items ≡ (running.acted layout.now act laid.old stack.old.items).stack) }
{
    match stack.pop_front() {
        Some(top) => match layout.entry(top.component) {
            Some(entry) => act_by(alloc, layout, act, entry, top, laid, stack),
            None => put(stack, top, None),
        },
        None => Ok(()),
    }
}

// The item that is aimed at is laid.
fn take_of(
    alloc: Global,
    layout: &Layout,
    is: Cell,
    laid: &mut Laid,
    stack: &mut VecDeque<Open>,
) -> Result<(), AllocError>
    ensures laid { OnOk result (laid.new ≡ (running.taken_of layout.now is laid.old stack.old.items).laid) }
    ensures stack { OnOk result (stack.new.items ≡ (running.taken_of layout.now is laid.old stack.old.items).stack) }
{
    match stack.pop_front() {
        Some(top) => match layout.entry(top.component) {
            Some(entry) => {
                let tops = laid.take_at(alloc, layout, entry, top, is)?;
                put_tops(stack, tops)
            }
            None => put(stack, top, None),
        },
        None => Ok(()),
    }
}

impl Run {
    /// What is done next.
    pub(crate) fn next_act(&self, layout: &Layout, aim: &Aim) -> Act
        ensures { result ≡ acting.act_at layout.now aim.now self.now.stack }
    {
        act_at(layout, aim, self.stack.front())
    }

    /// One act.
    pub(crate) fn act(&mut self, alloc: Global, layout: &Layout, act: Act) -> Result<(), AllocError>
        ensures { OnOk result (self.new ≡ running.acted layout.now act self.old.laid self.old.stack) }
    {
        act_on(alloc, layout, act, &mut self.laid, &mut self.stack)
    }

    /// The item that is aimed at.
    pub(crate) fn take(
        &mut self,
        alloc: Global,
        layout: &Layout,
        is: Cell,
    ) -> Result<(), AllocError>
        ensures { OnOk result (self.new ≡ running.taken_of layout.now is self.old.laid self.old.stack) }
    {
        take_of(alloc, layout, is, &mut self.laid, &mut self.stack)
    }

    /// Acts one after another, as long as none wants an event. 2^64 of them, which no machine has the memory for, are a want of memory.
    pub(crate) fn go_on(
        &mut self,
        alloc: Global,
        layout: &Layout,
        aim: &Aim,
    ) -> Result<(), AllocError>
        ensures { OnOk result (running.Runs layout.now aim.now self.old self.new) }
    {
        'acting: for _ in 0..u64::MAX {
            let act = self.next_act(layout, aim);
            if is_stop(act) {
                return Ok(());
            }
            self.act(alloc, layout, act)?;
        }
        Err(AllocError)
    }
}
