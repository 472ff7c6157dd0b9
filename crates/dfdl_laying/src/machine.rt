// Laying, event by event.
ghost use Rattle.std.specs.Prelude.{◌≡◌, [], false, nat_lt, option_copied, slice_get, IfOk, OnOk};
ghost use Rattle.dfdl_laying.specs.Laying as laying;
ghost use Rattle.dfdl_laying.specs.Running as running;
ghost use Rattle.dfdl_laying.specs.declared.act.Aim.TheVariants as aims;

use crate::act::{Act, Aim, Said};
use crate::frame::Open;
use crate::items::{declared_in, opened};
use crate::laid::Laid;
use crate::run::{Run, put};
use dfdl_cells::{Cell, CellId};
use dfdl_outline::{ContentSize, Entry, Layout, Sort};
use std::alloc::{AllocError, Global};
use std::collections::VecDeque;
use std::marker::Model;

/// The laying of an infoset, from event to event ('DFDL Processing Introduction').
#[derive(Drop)]
pub struct Machine {
    run: Run,
    surplus: u64,
    root: u32,
}

impl Model for Machine {
    ghost use Rattle.dfdl_laying.specs.Running.{State};

    ghost Value = { State };

    ghost view = { λ m. record { run = m.run; surplus = m.surplus; root = m.root } };
}

// Whether the act is to lay the item.
fn is_take(act: Act) -> bool
    ensures { result ≡ running.is_take act }
{
    match act {
        Act::Take => true,
        Act::Wait => false,
        Act::End => false,
        Act::Leave => false,
        Act::Pass => false,
        Act::Fill => false,
        Act::Blank => false,
        Act::Enter => false,
        Act::Choose(_) => false,
        Act::Branchless => false,
    }
}

// Whether the act is to end the element.
fn is_end(act: Act) -> bool
    ensures { result ≡ running.is_end act }
{
    match act {
        Act::End => true,
        Act::Wait => false,
        Act::Take => false,
        Act::Leave => false,
        Act::Pass => false,
        Act::Fill => false,
        Act::Blank => false,
        Act::Enter => false,
        Act::Choose(_) => false,
        Act::Branchless => false,
    }
}

// The number of the start of the root.
fn start_of(entry: Option<&Entry>) -> u32
    ensures { result ≡ running.start_of (option_copied entry.entry) }
{
    match entry {
        Some(entry) => match entry.sort {
            Sort::Complex { .. } => declared_in(entry).saturating_add(2),
            Sort::Simple(_) => 3,
            Sort::Calculated => 3,
            Sort::Unbuilt => 3,
            Sort::Sequence { .. } => 0,
            Sort::Choice => 0,
            Sort::Hidden => 0,
        },
        None => 0,
    }
}

impl Laid {
    // The unknown of the occurrences of an element that the innermost open one declares.
    fn child_of(&self, child: u32) -> u32
        ensures { result ≡ running.child_of self.now child }
    {
        self.here.first.number().saturating_add(child)
    }

    // Whether an item of it has a place.
    fn has_place(&self, child: u32) -> bool
        ensures { result ≡ running.has_place self.now child }
    {
        if child >= self.here.declared {
            return false;
        }
        let cells = self.book.cells();
        matches!(
            cells.get(self.child_of(child) as usize),
            Some(Cell::Waiting)
        )
    }
}

impl Run {
    // The item that is aimed at is laid, where laying has come to it.
    fn take_there(
        &mut self,
        alloc: Global,
        layout: &Layout,
        aim: &Aim,
        is: Cell,
    ) -> Result<(), AllocError>
        ensures { OnOk result (self.new ≡ running.taken layout.now aim.now is self.old) }
    {
        if is_take(self.next_act(layout, aim)) {
            self.take(alloc, layout, is)
        } else {
            Ok(())
        }
    }

    // The element ends, where laying has come to its end.
    fn end_there(&mut self, alloc: Global, layout: &Layout) -> Result<(), AllocError>
        ensures { OnOk result (self.new ≡ running.ended layout.now self.old) }
    {
        if is_end(self.next_act(layout, &Aim::End)) {
            self.act(alloc, layout, Act::Leave)
        } else {
            Ok(())
        }
    }

    // Laying goes on to an item, lays it, and goes on.
    fn lay_item(
        &mut self,
        alloc: Global,
        layout: &Layout,
        child: u32,
        is: Cell,
    ) -> Result<(), AllocError>
        ensures { OnOk result (running.LaysItem layout.now child is self.old self.new) }
    {
        let aim = Aim::Child(CellId::new(self.child_at(child)));
        self.go_on(alloc, layout, &aim)?;
        self.take_there(alloc, layout, &aim, is)?;
        self.go_on(alloc, layout, &Aim::Nothing)
    }

    // The unknown of the occurrences of an element that the innermost open one declares.
    fn child_at(&self, child: u32) -> u32
        ensures { result ≡ running.child_of self.now.laid child }
    {
        self.laid.child_of(child)
    }

    // Laying goes on to the end of an element, and behind it.
    fn lay_end(&mut self, alloc: Global, layout: &Layout) -> Result<(), AllocError>
        ensures { OnOk result (running.LaysEnd layout.now self.old self.new) }
    {
        self.go_on(alloc, layout, &Aim::End)?;
        self.end_there(alloc, layout)?;
        self.go_on(alloc, layout, &Aim::Nothing)
    }
}

impl Laid {
    // The root opens in the document, where it has parts.
    fn root_complex(
        &mut self,
        alloc: Global,
        root: u32,
        entry: &Entry,
        size: ContentSize,
    ) -> Result<Option<Open>, AllocError>
        ensures inner { IfOk result (λ inner. inner ≡ (running.rooted_complex root entry.now size self.old).inner) }
        ensures laid { OnOk result (self.new ≡ (running.rooted_complex root entry.now size self.old).laid) }
    {
        let first = self.next()?;
        let markup = self.markup_here();
        self.open_complex(alloc, root, declared_in(entry), size, entry.around)?;
        Ok(Some(opened(alloc, root, CellId::new(first), false, markup)))
    }

    // The root is laid in the document.
    fn root_by(
        &mut self,
        alloc: Global,
        root: u32,
        entry: &Entry,
        is: Cell,
    ) -> Result<Option<Open>, AllocError>
        ensures inner { IfOk result (λ inner. inner ≡ (running.rooted_by root entry.now entry.now.sort is self.old).inner) }
        ensures laid { OnOk result (self.new ≡ (running.rooted_by root entry.now entry.now.sort is self.old).laid) }
    {
        match &entry.sort {
            Sort::Complex { size } => self.root_complex(alloc, root, entry, *size),
            Sort::Simple(own) => {
                self.push_simple(alloc, root, own, entry.around, is)?;
                self.end_document(entry.around.fill)?;
                Ok(None)
            }
            Sort::Calculated => {
                self.push_calculated()?;
                self.end_document(entry.around.fill)?;
                Ok(None)
            }
            Sort::Unbuilt => {
                self.push_unbuilt()?;
                self.end_document(entry.around.fill)?;
                Ok(None)
            }
            Sort::Sequence { .. } => Ok(None),
            Sort::Choice => Ok(None),
            Sort::Hidden => Ok(None),
        }
    }

    // The same of the component of a number, if there is one.
    fn root_if(
        &mut self,
        alloc: Global,
        layout: &Layout,
        root: u32,
        is: Cell,
    ) -> Result<Option<Open>, AllocError>
        ensures inner { IfOk result (λ inner. inner ≡ (running.rooted_if root (slice_get layout.now root) is self.old).inner) }
        ensures laid { OnOk result (self.new ≡ (running.rooted_if root (slice_get layout.now root) is self.old).laid) }
    {
        match layout.entry(root) {
            Some(entry) => self.root_by(alloc, root, entry, is),
            None => Ok(None),
        }
    }
}

// The stack of what opened, if something did.
fn stack_of(alloc: Global, inner: Option<Open>) -> Result<VecDeque<Open>, AllocError>
    ensures { IfOk result (λ stack. stack.items ≡ running.with_inner inner []) }
{
    let mut stack = VecDeque::new(alloc);
    if let Some(inner) = inner {
        put(&mut stack, inner, None)?;
    }
    Ok(stack)
}

impl Run {
    // The root is laid in the document.
    fn lay_root(
        &mut self,
        alloc: Global,
        layout: &Layout,
        root: u32,
        is: Cell,
    ) -> Result<(), AllocError>
        ensures { OnOk result (self.new ≡ running.rooted (running.rooted_if root (slice_get layout.now root) is self.old.laid)) }
    {
        let inner = self.laid.root_if(alloc, layout, root, is)?;
        let stack = stack_of(alloc, inner)?;
        self.stack = stack;
        Ok(())
    }

    // The root is laid, and laying goes on.
    fn begin(
        &mut self,
        alloc: Global,
        layout: &Layout,
        root: u32,
        is: Cell,
    ) -> Result<(), AllocError>
        ensures { OnOk result (running.Runs layout.now aims.Nothing
            (running.rooted (running.rooted_if root (slice_get layout.now root) is self.old.laid)) self.new) }
    {
        self.lay_root(alloc, layout, root, is)?;
        self.go_on(alloc, layout, &Aim::Nothing)
    }

    // An item has no place.
    fn lay_surplus(&mut self) -> Result<(), AllocError>
        ensures { OnOk result (self.new ≡ record { laid = laying.with_surplus 10 self.old.laid; stack = self.old.stack }) }
    {
        self.laid.push_surplus(10)
    }

    // Whether the root was laid, or has begun.
    fn is_begun(&self) -> bool
        ensures { result ≡ running.is_begun self.now }
    {
        self.laid.elements() > 0
    }

    // Whether an item of a declared element has a place.
    fn has_place(&self, child: u32) -> bool
        ensures { result ≡ running.has_place self.now.laid child }
    {
        self.laid.has_place(child)
    }
}

impl Machine {
    /// The laying of an infoset whose root is the element of this component. Nothing was laid yet.
    pub fn open(alloc: Global, layout: &Layout, root: u32) -> Result<Machine, AllocError>
        ensures { IfOk result (λ machine. machine ≡ running.begin layout.now root) }
    {
        let laid = Laid::open(alloc, start_of(layout.entry(root)))?;
        let stack = VecDeque::new(alloc);
        Ok(Machine {
            run: Run { laid, stack },
            surplus: 0,
            root,
        })
    }

    /// What was laid so far.
    pub fn laid(&self) -> &Laid
        ensures { result.now ≡ self.now.run.laid }
    {
        &self.run.laid
    }

    // An item comes outside of any that has no place.
    fn take_item(
        &mut self,
        alloc: Global,
        layout: &Layout,
        child: u32,
        is: Cell,
        opens: bool,
    ) -> Result<(), AllocError>
        requires { nat_lt 0 self.old.surplus ≡ false }
        ensures { OnOk result (running.TakesItem layout.now child is opens self.old self.new) }
    {
        if !self.run.is_begun() {
            return self.run.begin(alloc, layout, self.root, is);
        }
        if self.run.has_place(child) {
            return self.run.lay_item(alloc, layout, child, is);
        }
        self.run.lay_surplus()?;
        self.surplus = u64::from(opens);
        Ok(())
    }

    // An item comes.
    fn add_item(
        &mut self,
        alloc: Global,
        layout: &Layout,
        child: u32,
        is: Cell,
        opens: bool,
    ) -> Result<(), AllocError>
        ensures { OnOk result (running.TakesItem layout.now child is opens self.old self.new) }
    {
        if self.surplus == 0 {
            return self.take_item(alloc, layout, child, is, opens);
        }
        if opens {
            self.surplus = self.surplus.saturating_add(1);
        }
        Ok(())
    }

    // An element is there whose value is calculated.
    fn add_calculated(
        &mut self,
        alloc: Global,
        layout: &Layout,
        child: u32,
    ) -> Result<(), AllocError>
        ensures { OnOk result (running.TakesCalculated layout.now child self.old self.new) }
    {
        if self.surplus == 0 && self.run.has_place(child) {
            self.run.lay_item(alloc, layout, child, Cell::Waiting)
        } else {
            Ok(())
        }
    }

    // An element ends.
    fn add_end(&mut self, alloc: Global, layout: &Layout) -> Result<(), AllocError>
        ensures { OnOk result (running.TakesEnd layout.now self.old self.new) }
    {
        if self.surplus == 0 {
            return self.run.lay_end(alloc, layout);
        }
        self.surplus -= 1;
        Ok(())
    }

    /// Lays what an event adds, with all that comes behind it up to the place at which the next event is wanted.
    pub fn add_event(
        &mut self,
        alloc: Global,
        layout: &Layout,
        said: Said,
    ) -> Result<(), AllocError>
        ensures { OnOk result (running.TakesEvent layout.now said self.old self.new) }
    {
        match said {
            Said::Start { child } => self.add_item(alloc, layout, child, Cell::Waiting, true),
            Said::Simple { child, value } => {
                self.add_item(alloc, layout, child, Cell::Given { value }, false)
            }
            Said::Nil { child } => self.add_item(alloc, layout, child, Cell::Nil, false),
            Said::Calculated { child } => self.add_calculated(alloc, layout, child),
            Said::End => self.add_end(alloc, layout),
        }
    }
}
