// The type of a length prefix, by its name.
ghost use Rattle.std.specs.Prelude.{◌≡◌, All, IfOk, IfSome, Some, option_map};
ghost use Rattle.dfdl_components.specs.declared.kind.ComponentKind.TheVariants as kind;
ghost use Rattle.dfdl_components.specs.Naming.{resolved};
ghost use Rattle.dfdl_components.specs.Sites.{IsSite};
ghost use Rattle.dfdl_chains.specs.Derivation as derivation;
ghost use Rattle.dfdl_chains.specs.NamedShown.{named_shown};
ghost use Rattle.dfdl_chains.specs.Prefixes as prefixes;
ghost use Rattle.dfdl_chains.specs.Shown.{AreNumbers, IsTypeOf};

use crate::derivation::{primitive, push_derived, typed_by};
use crate::named_type::NamedType;
use crate::numbers::Numbers;
use crate::typed::Typed;
use dfdl_components::{ComponentKind, Schema, Site};
use dfdl_forms::Simple;
use std::alloc::{AllocError, Global};

// The simple type of XML Schema's, where it is carried.
fn carried_by(typed: Typed) -> Option<Simple>
    ensures { result ≡ prefixes.carried_by typed }
{
    match typed {
        Typed::Carried(simple) => Some(simple),
        Typed::NotCarried => None,
        Typed::Defined(_) => None,
    }
}

// The type that a text names at an element, if it names one.
fn find_written(schema: &Schema, writer: Site, text: &str) -> Option<Typed>
    requires { IsSite schema.now writer }
    ensures { result ≡ option_map (λ named. derivation.typed_by text.now (Some named)) (resolved schema.now writer kind.Type text.now) }
{
    match schema.resolve(writer, ComponentKind::Type, text) {
        Some(named) => Some(typed_by(text, Some(named))),
        None => None,
    }
}

// The same, which is one of the documents'.
fn written(schema: &Schema, writer: Site, text: &str) -> Option<Typed>
    requires { IsSite schema.now writer }
    ensures typed { result ≡ option_map (λ named. derivation.typed_by text.now (Some named)) (resolved schema.now writer kind.Type text.now) }
    ensures within { IfSome result (IsTypeOf schema.now) }
{
    find_written(schema, writer, text)
}

// The simple type that a type comes to, and the simple types that it comes of.
#[tactic(auto, using(crate::proofs::Naming::sites_within))]
fn named_type(
    alloc: Global,
    schema: &Schema,
    numbers: &Numbers,
    typed: Typed,
) -> Result<NamedType, AllocError>
    requires typed { IsTypeOf schema.now typed }
    requires numbers { AreNumbers schema.now numbers.now }
    ensures named { IfOk result (λ named. named_shown named ≡ prefixes.named_type schema.now typed) }
    ensures within { IfOk result (λ named. All (IsSite schema.now) named.sites.items) }
{
    let mut sites = Vec::new(alloc);
    push_derived(schema, typed, numbers.count(), &mut sites)?;
    let simple = carried_by(primitive(schema, typed, numbers.count()));
    Ok(NamedType { simple, sites })
}

/// The type of a length prefix that a text names which is written at an element, if it names one: the simple type that it
/// comes to, and the simple types that it comes of.
#[tactic(auto, unfolding(crate::specs::Prefixes::prefix_type))]
pub fn prefix_type(
    alloc: Global,
    schema: &Schema,
    numbers: &Numbers,
    writer: Site,
    text: &str,
) -> Result<Option<NamedType>, AllocError>
    requires site { IsSite schema.now writer }
    requires numbers { AreNumbers schema.now numbers.now }
    ensures prefix { IfOk result (λ named. option_map named_shown named ≡ prefixes.prefix_type schema.now writer text.now) }
    ensures within { IfOk result (λ named. IfSome named (λ n. All (IsSite schema.now) n.sites.items)) }
{
    match written(schema, writer, text) {
        Some(typed) => Ok(Some(named_type(alloc, schema, numbers, typed)?)),
        None => Ok(None),
    }
}
