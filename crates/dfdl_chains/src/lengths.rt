// The least and the greatest length of an element's values.
ghost use Rattle.std.specs.Prelude.{◌≡◌, ◌<◌, drop, length, All, option_copied};
ghost use Rattle.dfdl_components.specs.Sites.{IsSite, nodes_of};
ghost use Rattle.dfdl_chains.specs.Chains as chains;
ghost use Rattle.dfdl_chains.specs.Lengths as spec;

use crate::declaring::{attribute, part_inside};
use dfdl_components::{Schema, Site};
use dfdl_constructs::Role;

/// Which bound of the lengths of values: the facet minLength gives the least one, and maxLength the greatest.
#[derive(Debug, Clone, Copy, PartialEq, Eq)]
pub(crate) enum Bound {
    Least,
    Greatest,
}

/// The number that digits stand for, at most 2^64 - 1.
pub(crate) fn length_of(digits: &str) -> u64
    ensures { result ≡ spec.length_of digits.now }
{
    let mut length: u64 = 0;
    for digit in digits.as_bytes() {
        let worth = u64::from(digit.saturating_sub(b'0'));
        length = length.saturating_mul(10).saturating_add(worth);
    }
    length
}

// The length that an attribute gives, where there is one.
fn length_if(digits: Option<&str>) -> Option<u64>
    ensures { result ≡ spec.length_if (option_copied digits.entry) }
{
    match digits {
        Some(digits) => Some(length_of(digits)),
        None => None,
    }
}

// The facet of a bound.
fn is_facet(bound: Bound, role: Role) -> bool
    ensures { result ≡ spec.is_facet bound role }
{
    match bound {
        Bound::Least => matches!(role, Role::MinLength),
        Bound::Greatest => matches!(role, Role::MaxLength),
    }
}

// An element of the document is the facet of a bound.
fn is_facet_at(schema: &Schema, bound: Bound, site: Site) -> bool
    requires { site.document < length schema.now }
    ensures { result ≡ spec.is_facet_at bound (nodes_of schema.now site.document) site.element }
{
    site.element < schema.tree(site.document).count() && is_facet(bound, schema.role(site))
}

// The bound of lengths that a restriction gives.
fn restricted_length(schema: &Schema, bound: Bound, site: Site) -> Option<u64>
    requires { IsSite schema.now site }
    ensures { result ≡ spec.restricted_length bound schema.now site }
{
    let document = site.document;
    for child in schema.tree(document).children(site.element) {
        let element = *child;
        let facet = Site { document, element };
        if is_facet_at(schema, bound, facet) {
            return length_if(attribute(schema, facet, "value"));
        }
    }
    None
}

// The bound of lengths that a simple type gives by its own restriction.
fn own_length(schema: &Schema, bound: Bound, site: Site) -> Option<u64>
    requires { IsSite schema.now site }
    ensures { result ≡ spec.own_length bound schema.now site }
{
    match part_inside(schema, site) {
        Some(restriction) => restricted_length(schema, bound, restriction),
        None => None,
    }
}

// The bound of lengths of the first of some simple types that gives one.
fn nearest_length(schema: &Schema, bound: Bound, types: &[Site]) -> Option<u64>
    requires { All (IsSite schema.now) types.now }
    ensures { result ≡ spec.nearest_length bound schema.now types.now }
{
    for site in types {
        if let Some(length) = own_length(schema, bound, *site) {
            return Some(length);
        }
    }
    None
}

// The elements behind the first one.
fn behind(sites: &[Site]) -> &[Site]
    ensures { result.now ≡ drop 1 sites.now }
{
    match sites {
        [_, rest @ ..] => rest,
        [] => sites,
    }
}

// The simple types in the chain of a component of this role.
fn types_in<'c>(schema: &Schema, site: Site, role: Role, chain: &'c [Site]) -> &'c [Site]
    requires { chain.now ≡ chains.chain_by schema.now site role }
    ensures { result.now ≡ spec.types_by schema.now site role }
{
    match role {
        Role::GlobalElement | Role::LocalElement => behind(chain),
        Role::ElementReference => behind(behind(chain)),
        _ => &[],
    }
}

/// A bound of the lengths of the values of an element with this chain, where its type has it.
#[tactic(auto, using(crate::proofs::Within::types_within), unfolding(crate::specs::Lengths::bound_of, crate::specs::Chains::chain_sites))]
pub(crate) fn bound_of(schema: &Schema, bound: Bound, site: Site, chain: &[Site]) -> Option<u64>
    requires site { IsSite schema.now site }
    requires chain { chain.now ≡ chains.chain_sites schema.now site }
    ensures { result ≡ spec.bound_of bound schema.now site }
{
    nearest_length(
        schema,
        bound,
        types_in(schema, site, schema.role(site), chain),
    )
}
