// The numbers of the elements of all documents.
ghost use Rattle.std.specs.Prelude.{◌≡◌, IfOk};
ghost use Rattle.dfdl_components.specs.Recursion.{number_of};
ghost use Rattle.dfdl_components.specs.Sites.{IsSite};
ghost use Rattle.dfdl_chains.specs.Shown.{AreNumbers};

use dfdl_components::{Schema, Site};
use std::alloc::{AllocError, Global};

/// The number of the first element of each document, and how many elements there are.
#[derive(Debug, Drop)]
pub struct Numbers {
    pub(crate) starts: Vec<u32>,
    pub(crate) count: u32,
}

impl Numbers {
    /// The numbers of a schema's elements. There is no memory for 2^32 of them.
    pub fn of(alloc: Global, schema: &Schema) -> Result<Numbers, AllocError>
        ensures { IfOk result (AreNumbers schema.now) }
    {
        let mut starts = Vec::new(alloc);
        let mut count: u32 = 0;
        for document in 0..schema.count() {
            starts.push(count)?;
            let Some(sum) = count.checked_add(schema.tree(document).count()) else {
                return Err(AllocError);
            };
            count = sum;
        }
        Ok(Numbers { starts, count })
    }

    /// How many elements there are.
    pub fn count(&self) -> u32
        ensures { result ≡ self.now.count }
    {
        self.count
    }

    /// The number of an element.
    pub fn number(&self, schema: &Schema, site: Site) -> u32
        requires numbers { AreNumbers schema.now self.now }
        requires site { IsSite schema.now site }
        ensures { result ≡ number_of schema.now site }
    {
        let _ = schema;
        self.starts[site.document as usize] + site.element
    }
}
