// Fill, delimiters and prefixes around contents, and the markup that is open in them.
ghost use Rattle.std.specs.Prelude.{◌≡◌, ◌++◌, ◌∷◌, [], IfOk, OnOk};
ghost use Rattle.dfdl_laying.specs.Laying as laying;

use crate::laid::Laid;
use dfdl_cells::{CellId, NumberList, Piece, Step};
use dfdl_outline::{Around, Edge, LengthPrefix};
use std::alloc::{AllocError, Global};

/// The list of a terminator.
pub(crate) fn list_of(edge: Option<Edge>) -> Option<u32>
    ensures { result ≡ laying.list_of edge }
{
    match edge {
        Some(edge) => Some(edge.list),
        None => None,
    }
}

// These numbers, and one behind them.
fn with_number(alloc: Global, numbers: &[u32], number: u32) -> Result<NumberList, AllocError>
    ensures { IfOk result (λ list. list ≡ numbers.now ++ number ∷ []) }
{
    let mut list = Vec::from_slice(alloc, numbers)?;
    list.push(number)?;
    Ok(NumberList::from_vec(list))
}

impl Laid {
    /// A skip of so many bits, where they are some.
    pub(crate) fn skip(&mut self, owner: u32, fill: u8, bits: u32) -> Result<(), AllocError>
        ensures { OnOk result (self.new ≡ laying.skipped owner fill bits self.old) }
    {
        if bits == 0 {
            return Ok(());
        }
        let place = self.place_here()?;
        let bound = self.here.bound;
        self.lay(
            owner,
            Piece::Skip {
                bits,
                fill,
                place,
                bound,
            },
        )?;
        self.step(Step::Fixed {
            bits: u64::from(bits),
        })
    }

    /// An alignment to a multiple of so many bits, where they are more than one.
    pub(crate) fn fill_to(&mut self, owner: u32, fill: u8, bits: u32) -> Result<(), AllocError>
        ensures { OnOk result (self.new ≡ laying.filled_to owner fill bits self.old) }
    {
        if bits <= 1 {
            return Ok(());
        }
        let place = self.place_here()?;
        let bound = self.here.bound;
        self.lay(
            owner,
            Piece::Align {
                bits,
                fill,
                place,
                bound,
            },
        )?;
        self.step(Step::Align { bits })
    }

    /// An initiator or terminator that always stands, where there is one.
    pub(crate) fn delimit(
        &mut self,
        owner: u32,
        component: u32,
        edge: Option<Edge>,
    ) -> Result<(), AllocError>
        ensures { OnOk result (self.new ≡ laying.delimited owner component edge self.old) }
    {
        match edge {
            Some(edge) => {
                self.lay(
                    owner,
                    Piece::Delimiter {
                        component,
                        list: edge.list,
                    },
                )?;
                self.step(Step::Fixed { bits: edge.bits })
            }
            None => Ok(()),
        }
    }

    /// Fill and an initiator before a content.
    pub(crate) fn lead_in(
        &mut self,
        owner: u32,
        component: u32,
        around: Around,
    ) -> Result<(), AllocError>
        ensures { OnOk result (self.new ≡ laying.led_in owner component around self.old) }
    {
        self.skip(owner, around.fill, around.leading_skip)?;
        self.fill_to(owner, around.fill, around.alignment)?;
        self.delimit(owner, component, around.initiator)
    }

    /// A length prefix, where there is one.
    pub(crate) fn prefix(
        &mut self,
        owner: u32,
        component: u32,
        length: CellId,
        value: Option<CellId>,
        markup: u32,
        own: Option<LengthPrefix>,
    ) -> Result<(), AllocError>
        ensures { OnOk result (self.new ≡ laying.prefixed owner component length value markup own self.old) }
    {
        match own {
            Some(own) => {
                self.lay(
                    owner,
                    Piece::Prefix {
                        component,
                        prefix: own.prefix,
                        length,
                        value,
                        markup,
                    },
                )?;
                self.step(Step::Fixed { bits: own.bits })
            }
            None => Ok(()),
        }
    }

    /// The number of the list of markup that is open inside of those that are open here, with one more list, where there is one.
    pub(crate) fn scope(&mut self, alloc: Global, list: Option<u32>) -> Result<u32, AllocError>
        ensures number { IfOk result (λ n. n ≡ laying.markup_of list self.old) }
        ensures scoped { OnOk result (self.new ≡ laying.scoped list self.old) }
    {
        match list {
            Some(list) => {
                let numbers = with_number(alloc, self.book.markup(self.here.markup), list)?;
                self.book.push_markup(numbers)
            }
            None => Ok(self.here.markup),
        }
    }

    /// A list of markup opens here, where there is one.
    pub(crate) fn mark_up(&mut self, alloc: Global, list: Option<u32>) -> Result<(), AllocError>
        ensures { OnOk result (self.new ≡ laying.marked_up list self.old) }
    {
        let markup = self.scope(alloc, list)?;
        self.here.markup = markup;
        Ok(())
    }
}
