// What a component is judged by.
ghost use Rattle.std.specs.Prelude.{◌≡◌, All, IfOk};
ghost use Rattle.dfdl_chains.specs.Chains.{chain_sites};
ghost use Rattle.dfdl_components.specs.Sites.{IsSite};
ghost use Rattle.dfdl_breaches.specs.GatheredShown.{IsGathered};
ghost use Rattle.dfdl_breaches.specs.KeptShown.{AreKept};

use crate::chain::chain_at;
use crate::kept::Kept;
use crate::prefixes::{Prefix, prefix_at};
use crate::schemes::scheme_of;
use dfdl_chains::tests_at;
use dfdl_checks::StatedTest;
use dfdl_components::{Schema, Site};
use dfdl_escape_schemes::NamedScheme;
use dfdl_scope::Component;
use std::alloc::{AllocError, Global};

/// What a component's properties are asked of, the type of its length prefix, its escape scheme, and its asserts and discriminators.
#[derive(Drop)]
pub(crate) struct Gathered<'e, 's> {
    pub(crate) chain: Component<'e, 's>,
    pub(crate) prefix: Option<Prefix<'e, 's>>,
    pub(crate) scheme: NamedScheme,
    pub(crate) tests: Vec<StatedTest<'s>>,
}

/// What a component with this chain is judged by.
pub(crate) fn gather<'e, 's>(
    alloc: Global,
    kept: &Kept<'e, 's>,
    schema: &'s Schema,
    site: Site,
    sites: &[Site],
) -> Result<Gathered<'e, 's>, AllocError>
    requires kept { AreKept schema.now kept.now }
    requires site { IsSite schema.now site }
    requires chain { sites.now ≡ chain_sites schema.now site }
    requires within { All (IsSite schema.now) sites.now }
    ensures { IfOk result (IsGathered schema.now site) }
{
    let chain = chain_at(alloc, kept, schema, sites)?;
    let prefix = prefix_at(alloc, kept, schema, site, sites, &chain)?;
    let scheme = scheme_of(alloc, schema, sites, &chain)?;
    let mut tests = Vec::new(alloc);
    tests_at(schema, site, sites, &mut tests)?;
    Ok(Gathered {
        chain,
        prefix,
        scheme,
        tests,
    })
}
