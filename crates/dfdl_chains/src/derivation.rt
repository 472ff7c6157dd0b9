// The types of elements, and how simple types come of one another.
ghost use Rattle.std.specs.Prelude.{◌≡◌, ◌++◌, option_copied, IfSome, OnOk};
ghost use Rattle.dfdl_components.specs.Sites.{IsSite};
ghost use Rattle.dfdl_chains.specs.Derivation as derivation;
ghost use Rattle.dfdl_chains.specs.Shown.{AreNumbers, IsTypeOf};

use crate::declaring::{attribute, declaration, part_inside};
use crate::numbers::Numbers;
use crate::simple::simple_named;
use crate::typed::Typed;
use dfdl_components::{ComponentKind, Named, Schema, Site};
use dfdl_constructs::{Qualified, Role};
use dfdl_forms::Simple;
use std::alloc::AllocError;

// A simple type of XML Schema's.
fn built_in(simple: Option<Simple>) -> Typed
    ensures { result ≡ derivation.built_in simple }
{
    match simple {
        Some(simple) => Typed::Carried(simple),
        None => Typed::NotCarried,
    }
}

/// The type that is named by a text.
pub(crate) fn typed_by(text: &str, named: Option<Named>) -> Typed
    ensures { result ≡ derivation.typed_by text.now named }
{
    match named {
        Some(Named::Component(site)) => Typed::Defined(site),
        Some(Named::Carried) => built_in(simple_named(Qualified::of(text).local)),
        Some(Named::NotCarried) => Typed::NotCarried,
        None => Typed::NotCarried,
    }
}

// The type that is named at an element by a text, where there is one.
fn type_named(schema: &Schema, site: Site, text: Option<&str>) -> Typed
    requires { IsSite schema.now site }
    ensures { result ≡ derivation.type_named schema.now site (option_copied text.entry) }
{
    match text {
        Some(text) => typed_by(text, schema.resolve(site, ComponentKind::Type, text)),
        None => Typed::NotCarried,
    }
}

// The type that an element gives.
fn find_given(schema: &Schema, site: Site) -> Typed
    requires { IsSite schema.now site }
    ensures { result ≡ derivation.given_type schema.now site }
{
    match part_inside(schema, site) {
        Some(inside) => Typed::Defined(inside),
        None => type_named(schema, site, attribute(schema, site, "type")),
    }
}

// The type that an element gives.
#[tactic(auto, using(crate::proofs::Within::given_within))]
fn given_type(schema: &Schema, site: Site) -> Typed
    requires { IsSite schema.now site }
    ensures typed { result ≡ derivation.given_type schema.now site }
    ensures within { IsTypeOf schema.now result }
{
    find_given(schema, site)
}

// The type that a simple type restricts.
fn find_base(schema: &Schema, site: Site) -> Typed
    requires { IsSite schema.now site }
    ensures { result ≡ derivation.base_type schema.now site }
{
    match part_inside(schema, site) {
        Some(restriction) => type_named(
            schema,
            restriction,
            attribute(schema, restriction, "base"),
        ),
        None => Typed::NotCarried,
    }
}

// The type that a simple type restricts.
#[tactic(auto, using(crate::proofs::Within::base_within))]
fn base_type(schema: &Schema, site: Site) -> Typed
    requires { IsSite schema.now site }
    ensures typed { result ≡ derivation.base_type schema.now site }
    ensures within { IsTypeOf schema.now result }
{
    find_base(schema, site)
}

// A simple type that a document defines.
fn is_simple_type(role: Role) -> bool
    ensures { result ≡ derivation.is_simple_type role }
{
    match role {
        Role::GlobalSimpleType | Role::LocalSimpleType => true,
        _ => false,
    }
}

// The simple type, where a document defines it.
#[tactic(auto, using(crate::proofs::Within::simple_within))]
fn simple_type(schema: &Schema, typed: Typed) -> Option<Site>
    requires { IsTypeOf schema.now typed }
    ensures simple { result ≡ derivation.simple_type schema.now typed }
    ensures within { IfSome result (IsSite schema.now) }
{
    match typed {
        Typed::Carried(_) => None,
        Typed::NotCarried => None,
        Typed::Defined(site) => {
            if is_simple_type(schema.role(site)) {
                Some(site)
            } else {
                None
            }
        }
    }
}

/// What a type comes to after at most so many restrictions.
pub(crate) fn primitive(schema: &Schema, typed: Typed, most: u32) -> Typed
    requires { IsTypeOf schema.now typed }
    ensures typed { result ≡ derivation.primitive_within most schema.now typed }
    ensures within { IsTypeOf schema.now result }
{
    let mut last = typed;
    for step in 0..most {
        let Some(site) = simple_type(schema, last) else {
            return last;
        };
        last = base_type(schema, site);
    }
    last
}

/// The type of an element, a reference having that of its declaration: a simple type of XML Schema's, or
/// a complex type.
#[tactic(auto, unfolding(crate::specs::Derivation::type_of))]
pub fn type_of(schema: &Schema, numbers: &Numbers, site: Site) -> Typed
    requires site { IsSite schema.now site }
    requires numbers { AreNumbers schema.now numbers.now }
    ensures typed { result ≡ derivation.type_of schema.now site }
    ensures within { IsTypeOf schema.now result }
{
    let typed = given_type(schema, declaration(schema, site));
    primitive(schema, typed, numbers.count())
}

/// Adds the simple types that documents define, from a type down to the last that it comes of, at most
/// so many.
pub(crate) fn push_derived(
    schema: &Schema,
    typed: Typed,
    most: u32,
    chain: &mut Vec<Site>,
) -> Result<(), AllocError>
    requires { IsTypeOf schema.now typed }
    ensures { OnOk result (chain.new.items ≡ chain.old.items ++ derivation.derived_within most schema.now typed) }
{
    let mut last = typed;
    for step in 0..most {
        let Some(site) = simple_type(schema, last) else {
            return Ok(());
        };
        chain.push(site)?;
        last = base_type(schema, site);
    }
    Ok(())
}

// Adds the simple types that an element's type comes of, as far as documents define them.
#[tactic(auto, unfolding(crate::specs::Derivation::simple_types_of))]
pub(crate) fn push_simple_types(
    schema: &Schema,
    numbers: &Numbers,
    site: Site,
    chain: &mut Vec<Site>,
) -> Result<(), AllocError>
    requires site { IsSite schema.now site }
    requires numbers { AreNumbers schema.now numbers.now }
    ensures { OnOk result (chain.new.items ≡ chain.old.items ++ derivation.simple_types_of schema.now site) }
{
    let typed = given_type(schema, declaration(schema, site));
    push_derived(schema, typed, numbers.count(), chain)
}
