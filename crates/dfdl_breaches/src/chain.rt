// The chains that properties are asked of.
ghost use Rattle.std.specs.Prelude.{◌≡◌, map, All, IfOk};
ghost use Rattle.dfdl_components.specs.Sites.{IsSite};
ghost use Rattle.dfdl_scope.specs.Shown.{chain_of, element_of};
ghost use Rattle.dfdl_breaches.specs.Elements.{element_at};
ghost use Rattle.dfdl_breaches.specs.KeptShown.{AreKept};
ghost use Rattle.dfdl_breaches.specs.Prefixes as prefixes;

use crate::kept::{Kept, element_at};
use dfdl_components::{Schema, Site};
use dfdl_scope::{Component, Element};
use std::alloc::{AllocError, Global};

/// The chain of these elements.
pub(crate) fn chain_at<'e, 's>(
    alloc: Global,
    kept: &Kept<'e, 's>,
    schema: &Schema,
    sites: &[Site],
) -> Result<Component<'e, 's>, AllocError>
    requires kept { AreKept schema.now kept.now }
    requires sites { All (IsSite schema.now) sites.now }
    ensures { IfOk result (λ chain. chain_of chain ≡ map (element_at schema.now) sites.now) }
{
    let mut chain = Component::new(alloc);
    for site in sites {
        chain.push_element(element_at(kept, schema, *site))?;
    }
    Ok(chain)
}

// An element that gives by its document's default format alone.
fn by_default_alone<'e, 's>(kept: &Kept<'e, 's>, schema: &Schema, site: Site) -> Element<'e, 's>
    requires kept { AreKept schema.now kept.now }
    requires site { IsSite schema.now site }
    ensures { element_of result ≡ prefixes.by_default_alone (element_at schema.now site) }
{
    let element = element_at(kept, schema, site);
    Element {
        place: element.place,
        own: kept.nothing,
        format: None,
        default: element.default,
    }
}

/// The chain of a simple type of XML Schema's, at a component whose chain has these elements: they give by default alone.
pub(crate) fn built_in_chain<'e, 's>(
    alloc: Global,
    kept: &Kept<'e, 's>,
    schema: &Schema,
    sites: &[Site],
) -> Result<Component<'e, 's>, AllocError>
    requires kept { AreKept schema.now kept.now }
    requires sites { All (IsSite schema.now) sites.now }
    ensures { IfOk result (λ chain. chain_of chain ≡ map (λ s. prefixes.by_default_alone (element_at schema.now s)) sites.now) }
{
    let mut chain = Component::new(alloc);
    for site in sites {
        chain.push_element(by_default_alone(kept, schema, *site))?;
    }
    Ok(chain)
}
