// Which elements of the documents a component is joined from.
ghost use Rattle.std.specs.Prelude.{◌≡◌, ◌++◌, ◌∷◌, IfSome, OnOk, All};
ghost use Rattle.dfdl_components.specs.Sites.{IsSite};
ghost use Rattle.dfdl_chains.specs.Chains as chains;
ghost use Rattle.dfdl_chains.specs.Shown.{AreNumbers};

use crate::declaring::{declaration, part_inside, referred};
use crate::derivation::push_simple_types;
use crate::numbers::Numbers;
use dfdl_components::{ComponentKind, Schema, Site};
use dfdl_constructs::Role;
use std::alloc::AllocError;

/// The sequence or choice of the group that a group reference names.
pub(crate) fn group_content(schema: &Schema, site: Site) -> Option<Site>
    requires { IsSite schema.now site }
    ensures content { result ≡ chains.group_content schema.now site }
    ensures within { IfSome result (IsSite schema.now) }
{
    match referred(schema, site, ComponentKind::Group) {
        Some(group) => part_inside(schema, group),
        None => None,
    }
}

// Adds one, where there is one.
pub(crate) fn push_if(chain: &mut Vec<Site>, site: Option<Site>) -> Result<(), AllocError>
    ensures { OnOk result (chain.new.items ≡ chain.old.items ++ chains.listed site) }
{
    if let Some(site) = site {
        chain.push(site)?;
    }
    Ok(())
}

// Adds an element's declaration and the simple types that its type comes of.
fn push_declaration(
    schema: &Schema,
    numbers: &Numbers,
    site: Site,
    chain: &mut Vec<Site>,
) -> Result<(), AllocError>
    requires site { IsSite schema.now site }
    requires numbers { AreNumbers schema.now numbers.now }
    ensures { OnOk result (chain.new.items ≡ chain.old.items ++ chains.declaration_sites schema.now site) }
{
    chain.push(declaration(schema, site))?;
    push_simple_types(schema, numbers, site, chain)
}

// The elements that a component is joined from, by its role, in place of the chain before.
fn find_chain(
    schema: &Schema,
    numbers: &Numbers,
    site: Site,
    role: Role,
    chain: &mut Vec<Site>,
) -> Result<(), AllocError>
    requires site { IsSite schema.now site }
    requires numbers { AreNumbers schema.now numbers.now }
    ensures { OnOk result (chain.new.items ≡ chains.chain_by schema.now site role) }
{
    chain.clear();
    match role {
        Role::GlobalElement | Role::LocalElement => push_declaration(schema, numbers, site, chain),
        Role::ElementReference => {
            chain.push(site)?;
            push_declaration(schema, numbers, site, chain)
        }
        Role::GroupReference => {
            chain.push(site)?;
            push_if(chain, group_content(schema, site))
        }
        _ => {
            chain.push(site)?;
            Ok(())
        }
    }
}

/// The elements that a component is joined from, in place of the chain before: a reference and then what
/// it names, an element and then the simple types that its type comes of; any other component is itself
/// alone.
pub fn chain_sites(
    schema: &Schema,
    numbers: &Numbers,
    site: Site,
    chain: &mut Vec<Site>,
) -> Result<(), AllocError>
    requires site { IsSite schema.now site }
    requires numbers { AreNumbers schema.now numbers.now }
    ensures chain { OnOk result (chain.new.items ≡ chains.chain_sites schema.now site) }
    ensures within { OnOk result (All (IsSite schema.now) chain.new.items) }
{
    find_sites(schema, numbers, site, chain)
}

// The same.
#[tactic(auto, unfolding(crate::specs::Chains::chain_sites))]
fn find_sites(
    schema: &Schema,
    numbers: &Numbers,
    site: Site,
    chain: &mut Vec<Site>,
) -> Result<(), AllocError>
    requires site { IsSite schema.now site }
    requires numbers { AreNumbers schema.now numbers.now }
    ensures { OnOk result (chain.new.items ≡ chains.chain_sites schema.now site) }
{
    find_chain(schema, numbers, site, schema.role(site), chain)
}
