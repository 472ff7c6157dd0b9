// What a component states besides its properties.
ghost use Rattle.std.specs.Prelude.{◌≡◌, ◌<◌, length, All, option_copied};
ghost use Rattle.std.specs.List.{list_any};
ghost use Rattle.dfdl_markup.specs.Trees.{node_at};
ghost use Rattle.dfdl_constructs.specs.ValuesAllowed.{is_occurring};
ghost use Rattle.dfdl_components.specs.Sites.{IsSite, nodes_of};
ghost use Rattle.dfdl_checks.specs.JudgedShown.{facts_judged_of};
ghost use Rattle.dfdl_chains.specs.Chains as chains;
ghost use Rattle.dfdl_chains.specs.Facts as spec;

use crate::declaring::{attribute, declaration};
use crate::lengths::{Bound, bound_of, length_of};
use crate::parts::is_empty;
use dfdl_checks::{Bounds, Facts};
use dfdl_components::{Schema, Site};
use dfdl_constructs::Role;

// The least number of occurrences, which is 1 where it is absent.
fn least_of(text: Option<&str>) -> u64
    ensures { result ≡ spec.least_of (option_copied text.entry) }
{
    match text {
        Some(digits) => length_of(digits),
        None => 1,
    }
}

// The greatest number of occurrences that a text gives, if it is bounded.
fn bounded_by(text: &str) -> Option<u64>
    ensures { result ≡ spec.bounded_by text.now }
{
    if text == "unbounded" {
        None
    } else {
        Some(length_of(text))
    }
}

// The greatest number of occurrences, which is 1 where it is absent.
fn most_of(text: Option<&str>) -> Option<u64>
    ensures { result ≡ spec.most_of (option_copied text.entry) }
{
    match text {
        Some(text) => bounded_by(text),
        None => Some(1),
    }
}

// An element with bounds of occurrences.
fn is_occurring(role: Role) -> bool
    ensures { result ≡ is_occurring role }
{
    match role {
        Role::LocalElement | Role::ElementReference => true,
        _ => false,
    }
}

// The bounds of what occurs once.
fn once() -> Bounds
    ensures { result ≡ spec.once }
{
    Bounds {
        least: 1,
        most: Some(1),
    }
}

// The bounds that a component gives.
fn bounds_given(schema: &Schema, site: Site) -> Bounds
    requires { IsSite schema.now site }
    ensures { result ≡ spec.bounds_given schema.now site }
{
    Bounds {
        least: least_of(attribute(schema, site, "minOccurs")),
        most: most_of(attribute(schema, site, "maxOccurs")),
    }
}

// The bounds of how often the component occurs.
fn bounds_of(schema: &Schema, site: Site) -> Bounds
    requires { IsSite schema.now site }
    ensures { result ≡ spec.bounds_of schema.now site }
{
    if is_occurring(schema.role(site)) {
        bounds_given(schema, site)
    } else {
        once()
    }
}

// A truth value that is true.
fn is_true(text: Option<&str>) -> bool
    ensures { result ≡ spec.is_true (option_copied text.entry) }
{
    match text {
        Some(text) => text == "true" || text == "1",
        None => false,
    }
}

// The element may be nil.
fn is_nillable(schema: &Schema, site: Site) -> bool
    requires { IsSite schema.now site }
    ensures { result ≡ spec.is_nillable schema.now site }
{
    is_true(attribute(schema, declaration(schema, site), "nillable"))
}

// The text of the element's default value, if it has one.
fn default_of<'s>(schema: &'s Schema, site: Site) -> Option<&'s str>
    requires { IsSite schema.now site }
    ensures { option_copied result ≡ spec.default_of schema.now site }
{
    attribute(schema, declaration(schema, site), "default")
}

// An element that is declared where it stands.
fn is_local(role: Role) -> bool
    ensures { result ≡ spec.is_local role }
{
    match role {
        Role::LocalElement => true,
        _ => false,
    }
}

// A newVariableInstance.
pub(crate) fn is_opening(role: Role) -> bool
    ensures { result ≡ spec.is_opening role }
{
    match role {
        Role::NewVariableInstance => true,
        _ => false,
    }
}

// An annotation, or the part of one that holds annotations of DFDL's.
fn is_annotation(role: Role) -> bool
    ensures { result ≡ spec.is_annotation role }
{
    match role {
        Role::Annotation(_) | Role::Annotations(_) => true,
        _ => false,
    }
}

// An element of the document is a newVariableInstance.
fn is_opening_at(schema: &Schema, site: Site) -> bool
    requires { site.document < length schema.now }
    ensures { result ≡ spec.is_opening_at (nodes_of schema.now site.document) site.element }
{
    site.element < schema.tree(site.document).count() && is_opening(schema.role(site))
}

// An element of the document is an annotation, or the part of one that holds annotations of DFDL's.
pub(crate) fn is_annotation_at(schema: &Schema, site: Site) -> bool
    requires { site.document < length schema.now }
    ensures { result ≡ spec.is_annotation_at (nodes_of schema.now site.document) site.element }
{
    site.element < schema.tree(site.document).count() && is_annotation(schema.role(site))
}

// A newVariableInstance stands in an element.
fn has_opening(schema: &Schema, site: Site) -> bool
    requires { IsSite schema.now site }
    ensures { result ≡ list_any (spec.is_opening_at (nodes_of schema.now site.document))
        (node_at (nodes_of schema.now site.document) site.element).children }
{
    let document = site.document;
    for child in schema.tree(document).children(site.element) {
        let element = *child;
        if is_opening_at(schema, Site { document, element }) {
            return true;
        }
    }
    false
}

// A newVariableInstance stands in the annotations of DFDL's at this element.
fn opens_in(schema: &Schema, site: Site) -> bool
    requires { site.document < length schema.now }
    ensures { result ≡ spec.opens_in (nodes_of schema.now site.document) site.element }
{
    is_annotation_at(schema, site) && has_opening(schema, site)
}

// A newVariableInstance stands in one of the annotations of DFDL's in an annotation.
fn has_openings(schema: &Schema, site: Site) -> bool
    requires { IsSite schema.now site }
    ensures { result ≡ list_any (spec.opens_in (nodes_of schema.now site.document))
        (node_at (nodes_of schema.now site.document) site.element).children }
{
    let document = site.document;
    for child in schema.tree(document).children(site.element) {
        let element = *child;
        if opens_in(schema, Site { document, element }) {
            return true;
        }
    }
    false
}

// A newVariableInstance stands in the annotation.
fn opens_at(schema: &Schema, site: Site) -> bool
    requires { site.document < length schema.now }
    ensures { result ≡ spec.opens_at (nodes_of schema.now site.document) site.element }
{
    is_annotation_at(schema, site) && has_openings(schema, site)
}

// A newVariableInstance stands in the annotations of an element.
fn has_own_openings(schema: &Schema, site: Site) -> bool
    requires { IsSite schema.now site }
    ensures { result ≡ spec.has_own_openings schema.now site }
{
    let document = site.document;
    for child in schema.tree(document).children(site.element) {
        let element = *child;
        if opens_at(schema, Site { document, element }) {
            return true;
        }
    }
    false
}

// A newVariableInstance stands in the annotations of one of these.
fn have_openings(schema: &Schema, chain: &[Site]) -> bool
    requires { All (IsSite schema.now) chain.now }
    ensures { result ≡ list_any (spec.has_own_openings schema.now) chain.now }
{
    for site in chain {
        if has_own_openings(schema, *site) {
            return true;
        }
    }
    false
}

/// What a component with this chain states besides its properties, tests and settings.
#[tactic(auto, using(crate::proofs::Within::chain_within), unfolding(crate::specs::Facts::facts_at))]
pub fn facts_at<'s>(schema: &'s Schema, site: Site, chain: &[Site]) -> Facts<'s>
    requires site { IsSite schema.now site }
    requires chain { chain.now ≡ chains.chain_sites schema.now site }
    ensures { facts_judged_of result ≡ spec.facts_at schema.now site }
{
    Facts {
        bounds: bounds_of(schema, site),
        is_nillable: is_nillable(schema, site),
        default: default_of(schema, site),
        opens_instances: have_openings(schema, chain),
        is_local: is_local(schema.role(site)),
        is_empty: is_empty(schema, site),
        min_length: bound_of(schema, Bound::Least, site, chain),
        max_length: bound_of(schema, Bound::Greatest, site, chain),
    }
}
