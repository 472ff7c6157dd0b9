// What is kept of all elements of a schema.
ghost use Rattle.std.specs.Prelude.{◌≡◌, IfOk, IfSome, length, option_map};
ghost use Rattle.dfdl_components.specs.Recursion.{number_of};
ghost use Rattle.dfdl_components.specs.Sites.{IsSite};
ghost use Rattle.dfdl_breaches.specs.Numbered.{AreSites};
ghost use Rattle.dfdl_references.specs.References.{default_of, format_of};
ghost use Rattle.dfdl_breaches.specs.Tabled.{AreDefaults, AreTabled, IsEntry};

use crate::entry::Entry;
use crate::sites::Sites;
use dfdl_components::{Schema, Site};
use dfdl_properties::own_properties;
use dfdl_references::{default_of, format_of};
use std::alloc::{AllocError, Global};

// The number of a format that may be lacking.
fn number_of(schema: &Schema, sites: &Sites, format: Option<Site>) -> Option<u32>
    requires sites { AreSites schema.now sites.now }
    requires format { IfSome format (IsSite schema.now) }
    ensures { result ≡ option_map (number_of schema.now) format }
{
    match format {
        Some(site) => Some(sites.number(schema, site)),
        None => None,
    }
}

// The number of the default format of each document.
fn defaults_of(
    alloc: Global,
    schema: &Schema,
    sites: &Sites,
) -> Result<Vec<Option<u32>>, AllocError>
    requires { AreSites schema.now sites.now }
    ensures { IfOk result (λ defaults. AreDefaults schema.now (length schema.now) defaults.items) }
{
    let mut defaults = Vec::new(alloc);
    for document in 0..schema.count() {
        defaults.push(number_of(schema, sites, default_of(schema, document)))?;
    }
    Ok(defaults)
}

// What is kept of an element, with the default formats of all documents.
fn entry_of<'s>(
    alloc: Global,
    schema: &'s Schema,
    sites: &Sites,
    defaults: &[Option<u32>],
    site: Site,
) -> Result<Entry<'s>, AllocError>
    requires sites { AreSites schema.now sites.now }
    requires site { IsSite schema.now site }
    requires defaults { AreDefaults schema.now (length schema.now) defaults.now }
    ensures { IfOk result (IsEntry schema.now site) }
{
    let document = site.document;
    let own = own_properties(
        alloc,
        schema.tree(document),
        schema.roles(document),
        site.element,
    )?;
    Ok(Entry {
        place: schema.place(site),
        own,
        format: number_of(schema, sites, format_of(schema, site)),
        default: defaults[document as usize],
    })
}

/// What is kept of each element, by its number. The properties of each are collected once.
#[tactic(auto, using(crate::proofs::Tables::none_tabled))]
pub(crate) fn entries_of<'s>(
    alloc: Global,
    schema: &'s Schema,
    sites: &Sites,
) -> Result<Vec<Entry<'s>>, AllocError>
    requires { AreSites schema.now sites.now }
    ensures { IfOk result (λ entries. AreTabled (IsEntry schema.now) sites.now.all.items (length sites.now.all.items) entries.items) }
{
    let defaults = defaults_of(alloc, schema, sites)?;
    let mut entries = Vec::new(alloc);
    for site in sites.all.as_slice() {
        entries.push(entry_of(alloc, schema, sites, defaults.as_slice(), *site)?)?;
    }
    Ok(entries)
}
