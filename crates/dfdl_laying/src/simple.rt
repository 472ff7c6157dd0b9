// Simple elements in the data.
ghost use Rattle.std.specs.Prelude.{◌≡◌, IfOk, OnOk};
ghost use Rattle.dfdl_laying.specs.Laying as laying;

use crate::laid::Laid;
use crate::spot::Own;
use dfdl_cells::{Cell, CellId, Mark, Piece, Step};
use dfdl_outline::{Around, Edge, SimpleSort};
use std::alloc::{AllocError, Global};

// Whether a delimiter of a simple element stands in each of its representations.
fn always_stands(simple: &SimpleSort, edge: Edge) -> bool
    ensures { result ≡ laying.always_stands simple.now edge }
{
    (edge.in_nil || !simple.nillable) && (edge.in_empty || !simple.empties)
}

// When it stands.
fn mark_of(own: &Own, simple: &SimpleSort, edge: Edge) -> Mark
    ensures { result ≡ laying.mark_of own.now simple.now edge }
{
    Mark {
        bits: edge.bits,
        in_nil: edge.in_nil,
        in_empty: edge.in_empty,
        empties: simple.empties,
        value: own.first,
        length: own.length,
    }
}

impl Laid {
    // A delimiter of a simple element that stands in some of its representations.
    fn mark(&mut self, own: &Own, simple: &SimpleSort, edge: Edge) -> Result<(), AllocError>
        ensures { OnOk result (self.new ≡ laying.marked own.now simple.now edge self.old) }
    {
        self.lay(
            own.owner,
            Piece::Marked {
                component: own.component,
                list: edge.list,
                mark: mark_of(own, simple, edge),
            },
        )?;
        self.step(Step::Marked {
            mark: mark_of(own, simple, edge),
        })
    }

    // An initiator or terminator of a simple element, where there is one.
    fn edge(&mut self, own: &Own, simple: &SimpleSort, edge: Option<Edge>) -> Result<(), AllocError>
        ensures { OnOk result (self.new ≡ laying.edged own.now simple.now edge self.old) }
    {
        match edge {
            Some(edge) => {
                if always_stands(simple, edge) {
                    self.delimit(own.owner, own.component, Some(edge))
                } else {
                    self.mark(own, simple, edge)
                }
            }
            None => Ok(()),
        }
    }

    // The move of text to a whole byte.
    fn move_on(&mut self, owner: u32, fill: u8, is_text: bool) -> Result<(), AllocError>
        ensures { OnOk result (self.new ≡ laying.moved owner fill is_text self.old) }
    {
        if is_text {
            self.fill_to(owner, fill, 8)
        } else {
            Ok(())
        }
    }

    // What stands before the content.
    fn simple_before(
        &mut self,
        own: &Own,
        simple: &SimpleSort,
        around: Around,
    ) -> Result<(), AllocError>
        ensures { OnOk result (self.new ≡ laying.simple_before own.now simple.now around self.old) }
    {
        self.skip(own.owner, around.fill, around.leading_skip)?;
        self.fill_to(own.owner, around.fill, around.alignment)?;
        self.edge(own, simple, around.initiator)?;
        self.prefix(
            own.owner,
            own.component,
            own.length,
            Some(own.first),
            own.markup,
            simple.prefix,
        )?;
        self.move_on(own.owner, around.fill, simple.is_text)
    }

    // The content.
    fn content(&mut self, own: &Own) -> Result<(), AllocError>
        ensures { OnOk result (self.new ≡ laying.contented own.now self.old) }
    {
        let place = self.place_here()?;
        self.lay(
            own.owner,
            Piece::Content {
                component: own.component,
                first: own.first,
                markup: own.markup,
                place,
            },
        )?;
        self.step(Step::Length { cell: own.length })
    }

    // What stands behind it.
    fn simple_behind(
        &mut self,
        own: &Own,
        simple: &SimpleSort,
        around: Around,
    ) -> Result<(), AllocError>
        ensures { OnOk result (self.new ≡ laying.simple_behind own.now simple.now around self.old) }
    {
        self.edge(own, simple, around.terminator)?;
        self.skip(own.owner, around.fill, around.trailing_skip)
    }

    // The pieces of a simple element.
    fn lay_simple(
        &mut self,
        own: &Own,
        simple: &SimpleSort,
        around: Around,
    ) -> Result<(), AllocError>
        ensures { OnOk result (self.new ≡ laying.simple_laid own.now simple.now around self.old) }
    {
        self.simple_before(own, simple, around)?;
        self.content(own)?;
        self.simple_behind(own, simple, around)
    }

    // The unknowns of a simple element that is this.
    fn begin_simple(&mut self, component: u32, markup: u32, value: Cell) -> Result<Own, AllocError>
        ensures own { IfOk result (λ own. own ≡ laying.simple_own component markup value self.old) }
        ensures begun { OnOk result (self.new ≡ laying.simple_begun component markup value self.old) }
    {
        let owner = self.elements();
        let place = self.place_here()?;
        let first = self.push_unknown(owner, value)?;
        let _value_length = self.push_unknown(owner, Cell::ValueLength { component, first })?;
        let content_length = Cell::ContentLength {
            component,
            first,
            markup,
        };
        let length = self.push_unknown(owner, content_length)?;
        let start = self.push_unknown(owner, Cell::Reached { place })?;
        self.begin(start)?;
        Ok(Own {
            component,
            owner,
            first,
            length,
            markup,
        })
    }

    /// A simple element that is this.
    pub(crate) fn push_simple(
        &mut self,
        alloc: Global,
        component: u32,
        simple: &SimpleSort,
        around: Around,
        value: Cell,
    ) -> Result<(), AllocError>
        ensures { OnOk result (self.new ≡ laying.with_simple component simple.now around value self.old) }
    {
        let markup = self.scope(alloc, simple.scanned)?;
        let own = self.begin_simple(component, markup, value)?;
        self.lay_simple(&own, simple, around)
    }

    /// An element whose value is calculated.
    #[tactic(auto, unfolding(crate::specs::Laying::with_calculated))]
    pub(crate) fn push_calculated(&mut self) -> Result<(), AllocError>
        ensures { OnOk result (self.new ≡ laying.with_calculated self.old) }
    {
        let owner = self.elements();
        let place = self.place_here()?;
        let value = self.push_unknown(owner, Cell::Waiting)?;
        let length = Cell::Boxed {
            size: Some(0),
            inside: value,
        };
        let _value_length = self.push_unknown(owner, length)?;
        let length = Cell::Boxed {
            size: Some(0),
            inside: value,
        };
        let _content_length = self.push_unknown(owner, length)?;
        let start = self.push_unknown(owner, Cell::Reached { place })?;
        self.begin(start)
    }

    /// An element that isn't laid yet.
    #[tactic(auto, unfolding(crate::specs::Laying::with_unbuilt))]
    pub(crate) fn push_unbuilt(&mut self) -> Result<(), AllocError>
        ensures { OnOk result (self.new ≡ laying.with_unbuilt self.old) }
    {
        let owner = self.elements();
        self.push_calculated()?;
        self.lay(owner, Piece::Missing)
    }
}
