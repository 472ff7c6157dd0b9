// The elements of a schema in the order of their numbers.
ghost use Rattle.std.specs.Prelude.{◌≡◌, IfOk};
ghost use Rattle.dfdl_components.specs.Recursion.{number_of};
ghost use Rattle.dfdl_components.specs.Sites.{IsSite};
ghost use Rattle.dfdl_breaches.specs.Numbered.{AreSites};

use dfdl_chains::{Numbers, all_sites};
use dfdl_components::{Schema, Site};
use std::alloc::{AllocError, Global};

/// All elements of a schema, and their numbers.
#[derive(Drop)]
pub(crate) struct Sites {
    pub(crate) all: Vec<Site>,
    pub(crate) numbers: Numbers,
}

/// The elements of a schema.
#[tactic(auto, using(crate::proofs::Numbering::sites_within))]
pub(crate) fn sites_of(alloc: Global, schema: &Schema) -> Result<Sites, AllocError>
    ensures { IfOk result (AreSites schema.now) }
{
    let all = all_sites(alloc, schema)?;
    let numbers = Numbers::of(alloc, schema)?;
    Ok(Sites { all, numbers })
}

impl Sites {
    /// The number of an element.
    pub(crate) fn number(&self, schema: &Schema, site: Site) -> u32
        requires sites { AreSites schema.now self.now }
        requires site { IsSite schema.now site }
        ensures { result ≡ number_of schema.now site }
    {
        self.numbers.number(schema, site)
    }
}
