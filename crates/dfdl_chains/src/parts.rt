// What a component consists of.
ghost use Rattle.std.specs.Prelude.{◌≡◌, ◌<◌, ◌++◌, length, All, IfSome, OnOk};
ghost use Rattle.dfdl_components.specs.Sites.{IsSite};
ghost use Rattle.dfdl_chains.specs.Parts as spec;
ghost use Rattle.dfdl_chains.specs.Shown.{AreNumbers, IsTypeOf};

use crate::chain::group_content;
use crate::declaring::part_inside;
use crate::derivation::type_of;
use crate::numbers::Numbers;
use crate::typed::Typed;
use dfdl_components::{Schema, Site};
use dfdl_constructs::Role;
use std::alloc::AllocError;

/// What can stand in a sequence or choice.
pub(crate) fn is_particle(role: Role) -> bool
    ensures { result ≡ spec.is_particle role }
{
    match role {
        Role::LocalElement
        | Role::ElementReference
        | Role::Sequence
        | Role::Choice
        | Role::GroupReference => true,
        _ => false,
    }
}

/// Whether an element of this role is a component: what can stand in a group, or a global element.
pub fn is_component(role: Role) -> bool
    ensures { result ≡ spec.is_component role }
{
    match role {
        Role::GlobalElement => true,
        _ => is_particle(role),
    }
}

// The document has such an element, and it can stand in a group.
pub(crate) fn is_particle_at(schema: &Schema, site: Site) -> bool
    requires { site.document < length schema.now }
    ensures { result ≡ spec.is_particle_at schema.now site }
{
    site.element < schema.tree(site.document).count() && is_particle(schema.role(site))
}

// Adds an element, if it can stand in a group.
fn push_particle(schema: &Schema, site: Site, parts: &mut Vec<Site>) -> Result<(), AllocError>
    requires { site.document < length schema.now }
    ensures { OnOk result (parts.new.items ≡ parts.old.items ++ spec.if_particle schema.now site.document site.element) }
{
    if is_particle_at(schema, site) {
        parts.push(site)?;
    }
    Ok(())
}

// Adds the elements and groups that stand in a sequence or choice.
fn push_particles(schema: &Schema, site: Site, parts: &mut Vec<Site>) -> Result<(), AllocError>
    requires { IsSite schema.now site }
    ensures { OnOk result (parts.new.items ≡ parts.old.items ++ spec.particles schema.now site) }
{
    let document = site.document;
    for child in schema.tree(document).children(site.element) {
        let element = *child;
        push_particle(schema, Site { document, element }, parts)?;
    }
    Ok(())
}

// Adds those of a sequence or choice, where there is one.
fn push_particles_if(
    schema: &Schema,
    site: Option<Site>,
    parts: &mut Vec<Site>,
) -> Result<(), AllocError>
    requires { IfSome site (IsSite schema.now) }
    ensures { OnOk result (parts.new.items ≡ parts.old.items ++ spec.particles_if schema.now site) }
{
    match site {
        Some(site) => push_particles(schema, site, parts),
        None => Ok(()),
    }
}

// The content of a complex type: its group, or itself where it has none.
fn content_of(schema: &Schema, site: Site) -> Site
    requires { IsSite schema.now site }
    ensures { result ≡ spec.content_of schema.now site }
{
    match part_inside(schema, site) {
        Some(inside) => inside,
        None => site,
    }
}

// Adds the content of an element of this type.
fn push_content(schema: &Schema, typed: Typed, parts: &mut Vec<Site>) -> Result<(), AllocError>
    requires { IsTypeOf schema.now typed }
    ensures { OnOk result (parts.new.items ≡ parts.old.items ++ spec.contents schema.now typed) }
{
    match typed {
        Typed::Carried(_) => Ok(()),
        Typed::NotCarried => Ok(()),
        Typed::Defined(site) => {
            parts.push(content_of(schema, site))?;
            Ok(())
        }
    }
}

// Adds what a component consists of, by its role.
fn push_parts(
    schema: &Schema,
    numbers: &Numbers,
    site: Site,
    role: Role,
    parts: &mut Vec<Site>,
) -> Result<(), AllocError>
    requires site { IsSite schema.now site }
    requires numbers { AreNumbers schema.now numbers.now }
    ensures { OnOk result (parts.new.items ≡ parts.old.items ++ spec.parts_by schema.now site role) }
{
    match role {
        Role::GlobalElement | Role::LocalElement | Role::ElementReference => {
            push_content(schema, type_of(schema, numbers, site), parts)
        }
        Role::Sequence | Role::Choice => push_particles(schema, site, parts),
        Role::GroupReference => push_particles_if(schema, group_content(schema, site), parts),
        _ => Ok(()),
    }
}

/// What a component consists of, in schema order, in place of the parts before: an element of its content,
/// a sequence or choice of what stands in it, and a group reference of what stands in the sequence or choice
/// of the group that it names.
pub fn parts_at(
    schema: &Schema,
    numbers: &Numbers,
    site: Site,
    parts: &mut Vec<Site>,
) -> Result<(), AllocError>
    requires site { IsSite schema.now site }
    requires numbers { AreNumbers schema.now numbers.now }
    ensures parts { OnOk result (parts.new.items ≡ spec.parts_at schema.now site) }
    ensures within { OnOk result (All (IsSite schema.now) parts.new.items) }
{
    find_parts(schema, numbers, site, parts)
}

// The same.
#[tactic(auto, unfolding(crate::specs::Parts::parts_at))]
fn find_parts(
    schema: &Schema,
    numbers: &Numbers,
    site: Site,
    parts: &mut Vec<Site>,
) -> Result<(), AllocError>
    requires site { IsSite schema.now site }
    requires numbers { AreNumbers schema.now numbers.now }
    ensures { OnOk result (parts.new.items ≡ spec.parts_at schema.now site) }
{
    parts.clear();
    push_parts(schema, numbers, site, schema.role(site), parts)
}

// Whether nothing that can stand in a group stands in a sequence or choice.
fn has_no_particle(schema: &Schema, site: Site) -> bool
    requires { IsSite schema.now site }
    ensures { result ≡ spec.is_none_of (spec.particles schema.now site) }
{
    let document = site.document;
    for child in schema.tree(document).children(site.element) {
        let element = *child;
        if is_particle_at(schema, Site { document, element }) {
            return false;
        }
    }
    true
}

// Whether nothing stands in a group.
pub(crate) fn is_empty(schema: &Schema, site: Site) -> bool
    requires { IsSite schema.now site }
    ensures { result ≡ spec.is_none_of (spec.inside_of schema.now site) }
{
    match schema.role(site) {
        Role::Sequence | Role::Choice => has_no_particle(schema, site),
        Role::GroupReference => match group_content(schema, site) {
            Some(content) => has_no_particle(schema, content),
            None => true,
        },
        _ => true,
    }
}
