// Elements with parts in the data.
ghost use Rattle.std.specs.Prelude.{◌≡◌, ◌++◌, ◌∷◌, [], None, Some, IfOk, OnOk};
ghost use Rattle.dfdl_laying.specs.Laying as laying;

use crate::framing::list_of;
use crate::laid::Laid;
use crate::spot::{Spot, Whole};
use dfdl_cells::{Bound, Cell, CellId, Complex, NumberList, Piece, Step, StepList};
use dfdl_outline::{Around, ContentSize, Edge, LengthPrefix};
use std::alloc::{AllocError, Global};
use std::collections::VecDeque;

// The size of a box that is known.
fn size_of(size: ContentSize) -> Option<u64>
    ensures { result ≡ laying.size_of size }
{
    match size {
        ContentSize::Sized(bits) => Some(bits),
        ContentSize::Unbounded => None,
        ContentSize::Prefixed(_) => None,
    }
}

// The prefix of a box.
fn prefix_of(size: ContentSize) -> Option<LengthPrefix>
    ensures { result ≡ laying.prefix_of size }
{
    match size {
        ContentSize::Prefixed(prefix) => Some(prefix),
        ContentSize::Unbounded => None,
        ContentSize::Sized(_) => None,
    }
}

// The innermost box inside of an element.
fn bound_of(size: ContentSize, complex: u32, bound: Option<Bound>) -> Option<Bound>
    ensures { result ≡ laying.bound_of size complex bound }
{
    match size {
        ContentSize::Sized(bits) => Some(Bound { complex, bits }),
        ContentSize::Unbounded => bound,
        ContentSize::Prefixed(_) => bound,
    }
}

// Adds so many bits as a step, where they are some.
fn push_skip(steps: &mut StepList, bits: u32) -> Result<(), AllocError>
    ensures { OnOk result (steps.new ≡ steps.old ++ laying.skip_steps bits) }
{
    if bits > 0 {
        steps.push(Step::Fixed {
            bits: u64::from(bits),
        })?;
    }
    Ok(())
}

// Adds an alignment, where it is one to more than a bit.
fn push_align(steps: &mut StepList, bits: u32) -> Result<(), AllocError>
    ensures { OnOk result (steps.new ≡ steps.old ++ laying.align_steps bits) }
{
    if bits > 1 {
        steps.push(Step::Align { bits })?;
    }
    Ok(())
}

// Adds the step of a delimiter, where there is one.
fn push_edge(steps: &mut StepList, edge: Option<Edge>) -> Result<(), AllocError>
    ensures { OnOk result (steps.new ≡ steps.old ++ laying.edge_steps edge) }
{
    if let Some(edge) = edge {
        steps.push(Step::Fixed { bits: edge.bits })?;
    }
    Ok(())
}

// Adds the step of a length prefix, where there is one.
fn push_prefix(steps: &mut StepList, prefix: Option<LengthPrefix>) -> Result<(), AllocError>
    ensures { OnOk result (steps.new ≡ steps.old ++ laying.prefix_steps prefix) }
{
    if let Some(own) = prefix {
        steps.push(Step::Fixed { bits: own.bits })?;
    }
    Ok(())
}

// What lies between the start of an element with parts and its content.
fn lead_of(alloc: Global, around: Around, size: ContentSize) -> Result<StepList, AllocError>
    ensures { IfOk result (λ steps. steps ≡ laying.lead_of around size) }
{
    let mut steps = StepList::from_vec(Vec::new(alloc));
    push_skip(&mut steps, around.leading_skip)?;
    push_align(&mut steps, around.alignment)?;
    push_edge(&mut steps, around.initiator)?;
    push_prefix(&mut steps, prefix_of(size))?;
    Ok(steps)
}

// The list of no number, or of one.
fn one_list(alloc: Global, list: Option<u32>) -> Result<NumberList, AllocError>
    ensures { IfOk result (λ numbers. numbers ≡ laying.one_list list) }
{
    let mut numbers = Vec::new(alloc);
    if let Some(list) = list {
        numbers.push(list)?;
    }
    Ok(NumberList::from_vec(numbers))
}

// Puts a place before those around it. The last argument is none: it names the types of what it has inside.
fn put(
    around: &mut VecDeque<Spot>,
    spot: Spot,
    _inside: Option<(CellId, Bound)>,
) -> Result<(), AllocError>
    ensures { OnOk result (around.new.items ≡ spot ∷ around.old.items) }
{
    around.push_front(spot)?;
    Ok(())
}

impl Laid {
    // So many unknowns of an element that wait.
    fn wait(&mut self, owner: u32, count: u32) -> Result<(), AllocError>
        ensures { OnOk result (self.new ≡ laying.with_waiting owner count self.old) }
    {
        for _ in 0..count {
            self.push_unknown(owner, Cell::Waiting)?;
        }
        Ok(())
    }

    // The unknowns of the value of an element with parts, of which the first one is faulty where it is missing.
    fn push_values(&mut self, declared: u32, cause: Option<u8>) -> Result<(), AllocError>
        ensures { OnOk result (self.new ≡ laying.values_known declared cause self.old) }
    {
        let owner = self.elements();
        match cause {
            Some(cause) => {
                self.push_unknown(owner, Cell::Faulty { cause })?;
                self.wait(owner, declared)
            }
            None => {
                self.wait(owner, declared)?;
                self.push_unknown(owner, Cell::Waiting)?;
                Ok(())
            }
        }
    }

    // All unknowns of an element with parts but the bits of its pieces.
    fn begin_complex(
        &mut self,
        component: u32,
        declared: u32,
        size: ContentSize,
        cause: Option<u8>,
    ) -> Result<Whole, AllocError>
        ensures whole { IfOk result (λ whole. whole ≡ laying.whole_of component declared size cause self.old) }
        ensures begun { OnOk result (self.new ≡ laying.complex_begun declared size cause self.old) }
    {
        let owner = self.elements();
        let place = self.place_here()?;
        let first = CellId::new(self.next()?);
        self.push_values(declared, cause)?;
        let inside = CellId::new(self.next()?.saturating_sub(1));
        let size = size_of(size);
        let content = self.push_unknown(owner, Cell::Boxed { size, inside })?;
        let start = self.push_unknown(owner, Cell::Reached { place })?;
        self.begin(start)?;
        Ok(Whole {
            component,
            owner,
            first,
            inside,
            content,
            start,
        })
    }

    // The step of a terminator, where there is one.
    fn step_edge(&mut self, edge: Option<Edge>) -> Result<(), AllocError>
        ensures { OnOk result (self.new ≡ laying.stepped_edge edge self.old) }
    {
        match edge {
            Some(edge) => self.step(Step::Fixed { bits: edge.bits }),
            None => Ok(()),
        }
    }

    // The step of a skip, where there is one.
    fn step_skip(&mut self, bits: u32) -> Result<(), AllocError>
        ensures { OnOk result (self.new ≡ laying.stepped_skip bits self.old) }
    {
        if bits > 0 {
            self.step(Step::Fixed {
                bits: u64::from(bits),
            })
        } else {
            Ok(())
        }
    }

    // An element with parts in the content around it: the pieces before its content, and all of its steps.
    fn complex_before(
        &mut self,
        whole: &Whole,
        size: ContentSize,
        around: Around,
    ) -> Result<(), AllocError>
        ensures { OnOk result (self.new ≡ laying.complex_before whole.now size around self.old) }
    {
        let markup = self.here.markup;
        self.lead_in(whole.owner, whole.component, around)?;
        self.prefix(
            whole.owner,
            whole.component,
            whole.content,
            None,
            markup,
            prefix_of(size),
        )?;
        self.step(Step::Length {
            cell: whole.content,
        })?;
        self.step_edge(around.terminator)?;
        self.step_skip(around.trailing_skip)
    }

    // A terminator behind a content whose steps were laid.
    fn edge_behind(
        &mut self,
        owner: u32,
        component: u32,
        edge: Option<Edge>,
    ) -> Result<(), AllocError>
        ensures { OnOk result (self.new ≡ laying.edge_behind owner component edge self.old) }
    {
        match edge {
            Some(edge) => self.lay(
                owner,
                Piece::Delimiter {
                    component,
                    list: edge.list,
                },
            ),
            None => Ok(()),
        }
    }

    // A skip whose step is the last one.
    fn skip_behind(&mut self, owner: u32, fill: u8, bits: u32) -> Result<(), AllocError>
        ensures { OnOk result (self.new ≡ laying.skip_behind owner fill bits self.old) }
    {
        if bits == 0 {
            return Ok(());
        }
        let place = self.place_before(1)?;
        let bound = self.here.bound;
        self.lay(
            owner,
            Piece::Skip {
                bits,
                fill,
                place,
                bound,
            },
        )
    }

    // The pieces behind the content of an element with parts.
    fn complex_behind(
        &mut self,
        owner: u32,
        component: u32,
        around: Around,
    ) -> Result<(), AllocError>
        ensures { OnOk result (self.new ≡ laying.complex_behind owner component around self.old) }
    {
        self.edge_behind(owner, component, around.terminator)?;
        self.skip_behind(owner, around.fill, around.trailing_skip)
    }

    // The markup that is open inside of an element with parts.
    fn scope_box(
        &mut self,
        alloc: Global,
        size: ContentSize,
        list: Option<u32>,
    ) -> Result<u32, AllocError>
        ensures number { IfOk result (λ n. n ≡ laying.box_markup size list self.old) }
        ensures scoped { OnOk result (self.new ≡ laying.box_scoped size list self.old) }
    {
        match size {
            ContentSize::Unbounded => self.scope(alloc, list),
            ContentSize::Sized(_) => self.book.push_markup(one_list(alloc, list)?),
            ContentSize::Prefixed(_) => self.book.push_markup(one_list(alloc, list)?),
        }
    }

    // An element with parts that has nothing in it, inside of which laying goes on.
    fn go_in(
        &mut self,
        alloc: Global,
        whole: &Whole,
        declared: u32,
        size: ContentSize,
        around: Around,
    ) -> Result<(), AllocError>
        ensures { OnOk result (self.new ≡ laying.gone_inside whole.now declared size around self.old) }
    {
        let markup = self.scope_box(alloc, size, list_of(around.terminator))?;
        let bound = self.here.bound;
        let complex = self.book.push_complex(Complex {
            around: Some(self.here.complex),
            start: whole.start,
            lead: lead_of(alloc, around, size)?,
            inside: StepList::from_vec(Vec::new(alloc)),
        })?;
        put(&mut self.around, self.here, None)?;
        self.here = Spot {
            complex,
            owner: whole.owner,
            first: whole.first,
            declared,
            length: whole.inside,
            after: None,
            since: 0,
            bound: bound_of(size, complex, bound),
            markup,
        };
        Ok(())
    }

    /// An element with parts opens.
    #[tactic(auto, unfolding(crate::specs::Laying::complex_opened))]
    pub(crate) fn open_complex(
        &mut self,
        alloc: Global,
        component: u32,
        declared: u32,
        size: ContentSize,
        around: Around,
    ) -> Result<(), AllocError>
        ensures { OnOk result (self.new ≡ laying.complex_opened component declared size around self.old) }
    {
        let whole = self.begin_complex(component, declared, size, None)?;
        self.complex_before(&whole, size, around)?;
        self.go_in(alloc, &whole, declared, size, around)
    }

    /// One is missing, for the cause of this number.
    #[tactic(auto, unfolding(crate::specs::Laying::complex_missed))]
    pub(crate) fn miss_complex(
        &mut self,
        component: u32,
        declared: u32,
        size: ContentSize,
        around: Around,
        cause: u8,
    ) -> Result<(), AllocError>
        ensures { OnOk result (self.new ≡ laying.complex_missed component declared size around cause self.old) }
    {
        let owner = self.elements();
        let whole = self.begin_complex(component, declared, size, Some(cause))?;
        self.complex_before(&whole, size, around)?;
        self.lay(owner, Piece::Missing)?;
        self.complex_behind(owner, component, around)
    }

    // The fill of a box of known size.
    fn lay_rest(&mut self, size: ContentSize, fill: u8) -> Result<(), AllocError>
        ensures { OnOk result (self.new ≡ laying.rest_laid size fill self.old) }
    {
        match size {
            ContentSize::Sized(bits) => {
                let place = self.place_here()?;
                let inside = self.here.length;
                self.lay(
                    self.here.owner,
                    Piece::Rest {
                        inside,
                        bits,
                        fill,
                        place,
                    },
                )
            }
            ContentSize::Unbounded => Ok(()),
            ContentSize::Prefixed(_) => Ok(()),
        }
    }

    // The content around goes on.
    fn go_out(&mut self)
        ensures { self.new ≡ laying.gone_out self.old }
    {
        if let Some(spot) = self.around.pop_front() {
            self.here = spot;
        }
    }

    /// An element with parts ends.
    #[tactic(auto, unfolding(crate::specs::Laying::complex_closed))]
    pub(crate) fn close_complex(
        &mut self,
        component: u32,
        size: ContentSize,
        around: Around,
    ) -> Result<(), AllocError>
        ensures { OnOk result (self.new ≡ laying.complex_closed component size around self.old) }
    {
        let owner = self.here.owner;
        let place = self.place_here()?;
        self.give(self.here.length, Cell::Reached { place });
        self.lay_rest(size, around.fill)?;
        self.go_out();
        self.complex_behind(owner, component, around)
    }
}
