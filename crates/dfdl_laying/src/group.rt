// Groups, what is missing or has no place, and the document.
ghost use Rattle.std.specs.Prelude.{◌≡◌, [], ◌∷◌, None, IfOk, OnOk};
ghost use Rattle.dfdl_laying.specs.Laying as laying;

use crate::framing::list_of;
use crate::laid::Laid;
use crate::spot::Spot;
use dfdl_cells::{Book, Cell, CellId, Complex, NumberList, Piece, StepList};
use dfdl_outline::Around;
use std::alloc::{AllocError, Global};
use std::collections::VecDeque;

// A book with the document as an element with parts that has nothing in it, and with the list of no markup.
fn document(alloc: Global, start: u32) -> Result<Book, AllocError>
    ensures { IfOk result (λ book. book ≡ laying.document_of start) }
{
    let mut complexes = Vec::new(alloc);
    complexes.push(Complex {
        around: None,
        start: CellId::new(start),
        lead: StepList::from_vec(Vec::new(alloc)),
        inside: StepList::from_vec(Vec::new(alloc)),
    })?;
    let mut markups = Vec::new(alloc);
    markups.push(NumberList::from_vec(Vec::new(alloc)))?;
    Ok(Book::new(Vec::new(alloc), Vec::new(alloc), complexes, markups))
}

impl Laid {
    /// Nothing was laid yet, of a document whose root's start has this number.
    pub fn open(alloc: Global, start: u32) -> Result<Laid, AllocError>
        ensures { IfOk result (λ laid. laid ≡ laying.nothing_laid start) }
    {
        let book = document(alloc, start)?;
        let here = Spot {
            complex: 0,
            owner: 0,
            first: CellId::new(0),
            declared: 0,
            length: CellId::new(0),
            after: None,
            since: 0,
            bound: None,
            markup: 0,
        };
        Ok(Laid {
            book,
            owners: Vec::new(alloc),
            elements: 0,
            here,
            around: VecDeque::new(alloc),
        })
    }

    /// A group begins.
    #[tactic(auto, unfolding(crate::specs::Laying::group_opened))]
    pub(crate) fn open_group(
        &mut self,
        alloc: Global,
        component: u32,
        around: Around,
        separators: Option<u32>,
    ) -> Result<(), AllocError>
        ensures { OnOk result (self.new ≡ laying.group_opened component around separators self.old) }
    {
        self.lead_in(self.here.owner, component, around)?;
        self.mark_up(alloc, list_of(around.terminator))?;
        self.mark_up(alloc, separators)
    }

    /// It ends, and this markup is open again.
    #[tactic(auto, unfolding(crate::specs::Laying::group_closed))]
    pub(crate) fn close_group(
        &mut self,
        component: u32,
        around: Around,
        markup: u32,
    ) -> Result<(), AllocError>
        ensures { OnOk result (self.new ≡ laying.group_closed component around markup self.old) }
    {
        self.here.markup = markup;
        self.delimit(self.here.owner, component, around.terminator)?;
        self.skip(self.here.owner, around.fill, around.trailing_skip)
    }

    /// A choice has no branch to take.
    pub(crate) fn miss_branch(
        &mut self,
        first: CellId,
        declared: u32,
        cause: u8,
    ) -> Result<(), AllocError>
        ensures { OnOk result (self.new ≡ laying.branchless first declared cause self.old) }
    {
        if declared > 0 {
            self.give(first, Cell::Faulty { cause });
        }
        self.lay(self.here.owner, Piece::Missing)
    }

    /// An item that has no place.
    pub(crate) fn push_surplus(&mut self, cause: u8) -> Result<(), AllocError>
        ensures { OnOk result (self.new ≡ laying.with_surplus cause self.old) }
    {
        let Some(elements) = self.elements.checked_add(1) else {
            return Err(AllocError);
        };
        self.push_unknown(self.elements, Cell::Faulty { cause })?;
        self.elements = elements;
        Ok(())
    }

    /// The document ends.
    pub(crate) fn end_document(&mut self, fill: u8) -> Result<(), AllocError>
        ensures { OnOk result (self.new ≡ laying.document_ended fill self.old) }
    {
        let place = self.place_here()?;
        self.lay(0, Piece::End { fill, place })
    }
}
