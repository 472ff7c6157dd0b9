// The formats of a schema, each joined with those that it refers to.
ghost use Rattle.std.specs.Prelude.{◌≡◌, IfOk, length};
ghost use Rattle.dfdl_components.specs.Recursion.{count_of};
ghost use Rattle.dfdl_components.specs.Rules.{loading_rules, AllKeep};
ghost use Rattle.dfdl_components.specs.Sites.{IsSite};
ghost use Rattle.dfdl_chains.specs.Everywhere.{for_each};
ghost use Rattle.dfdl_breaches.specs.Numbered.{AreSites};
ghost use Rattle.dfdl_breaches.specs.Tabled.{AreJoined, AreTabled, IsFormatOwn, number_after};
ghost use Rattle.dfdl_references.specs.References.{is_format};

use crate::sites::Sites;
use dfdl_components::{Schema, Site, order};
use dfdl_constructs::Role;
use dfdl_properties::{format_properties, formats};
use dfdl_references::format_after;
use dfdl_scope::{Format, Properties};
use std::alloc::{AllocError, Global};

// Whether an element is a format.
fn is_format(role: Role) -> bool
    ensures { result ≡ is_format role }
{
    match role {
        Role::DefaultFormat | Role::DefinedFormat => true,
        _ => false,
    }
}

// What an element gives as a format, by itself.
fn format_own<'s>(
    alloc: Global,
    schema: &'s Schema,
    site: Site,
) -> Result<Properties<'s>, AllocError>
    requires { IsSite schema.now site }
    ensures { IfOk result (IsFormatOwn schema.now site) }
{
    if !is_format(schema.role(site)) {
        return Ok(Properties::new(alloc));
    }
    let document = site.document;
    format_properties(
        alloc,
        schema.tree(document),
        schema.roles(document),
        site.element,
    )
}

// The same of all elements.
fn formats_own<'s>(
    alloc: Global,
    schema: &'s Schema,
    sites: &Sites,
) -> Result<Vec<Properties<'s>>, AllocError>
    requires { AreSites schema.now sites.now }
    ensures { IfOk result (λ table. AreTabled (IsFormatOwn schema.now) sites.now.all.items (length sites.now.all.items) table.items) }
{
    let mut table = Vec::new(alloc);
    for site in sites.all.as_slice() {
        table.push(format_own(alloc, schema, *site)?)?;
    }
    Ok(table)
}

// The number of the format that a format refers to.
#[tactic(auto, unfolding(crate::specs::Tabled::number_after))]
fn number_after(schema: &Schema, sites: &Sites, site: Site) -> Option<u32>
    requires sites { AreSites schema.now sites.now }
    requires site { IsSite schema.now site }
    ensures { result ≡ number_after schema.now site }
{
    if !is_format(schema.role(site)) {
        return None;
    }
    match format_after(schema, site) {
        Some(format) => Some(sites.number(schema, format)),
        None => None,
    }
}

// The same of all elements.
fn numbers_after(
    alloc: Global,
    schema: &Schema,
    sites: &Sites,
) -> Result<Vec<Option<u32>>, AllocError>
    requires { AreSites schema.now sites.now }
    ensures { IfOk result (λ numbers. numbers.items ≡ for_each schema.now (number_after schema.now)) }
{
    let mut numbers = Vec::new(alloc);
    for site in sites.all.as_slice() {
        numbers.push(number_after(schema, sites, *site))?;
    }
    Ok(numbers)
}

/// The formats of a schema, by the numbers of elements; each other element gives nothing. Each format
/// is joined once, with the one that it refers to.
pub(crate) fn formats_of<'s>(
    alloc: Global,
    schema: &'s Schema,
    sites: &Sites,
) -> Result<Vec<Format<'s>>, AllocError>
    requires keeps { AllKeep (loading_rules schema.now) schema.now }
    requires sites { AreSites schema.now sites.now }
    ensures { IfOk result (λ formats. AreJoined schema.now (count_of schema.now) formats.items) }
{
    let own = formats_own(alloc, schema, sites)?;
    let after = numbers_after(alloc, schema, sites)?;
    let order = order(alloc, schema)?;
    formats(alloc, own.as_slice(), after.as_slice(), &order)
}
