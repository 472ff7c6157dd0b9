// Which elements of a schema are items of arrays, and which are hidden.
ghost use Rattle.std.specs.Prelude.{IfOk};
ghost use Rattle.dfdl_json.specs.Reading.{AreMarks};

use crate::hidden::Hidden;
use dfdl_terms::{Items, Terms};
use std::alloc::{AllocError, Global};

// The rows whose elements are items, and those whose elements are hidden.
#[derive(Drop)]
pub(crate) struct Marks {
    pub(crate) items: Items,
    pub(crate) hidden: Hidden,
}

impl Marks {
    // Those of these terms.
    pub(crate) fn of(alloc: Global, terms: &Terms) -> Result<Marks, AllocError>
        ensures { IfOk result (λ marks. AreMarks terms.now marks) }
    {
        Ok(Marks {
            items: Items::of(alloc, terms)?,
            hidden: Hidden::of(alloc, terms)?,
        })
    }
}
