// The type of a component's length prefix, with what its properties are asked of.
ghost use Rattle.std.specs.Prelude.{◌≡◌, All, IfOk, codes, option_map};
ghost use Rattle.dfdl_checks.specs.JudgedShown.{prefix_judged_of};
ghost use Rattle.dfdl_checks.specs.Subjects.{is_word};
ghost use Rattle.dfdl_chains.specs.Chains.{chain_sites};
ghost use Rattle.dfdl_chains.specs.NamedShown.{named_shown};
ghost use Rattle.dfdl_components.specs.Sites.{IsSite};
ghost use Rattle.dfdl_scope.specs.Scoping.{told};
ghost use Rattle.dfdl_scope.specs.Shown.{chain_of, lent_text};
ghost use Rattle.dfdl_scope.specs.Told.{told_by};
ghost use Rattle.dfdl_breaches.specs.KeptShown.{AreKept};
ghost use Rattle.dfdl_breaches.specs.Prefixes as prefixes;
ghost use Rattle.dfdl_breaches.specs.PrefixesShown as shown;
ghost use Rattle.dfdl_breaches.specs.Roots as roots;

use crate::chain::{built_in_chain, chain_at};
use crate::kept::Kept;
use crate::schemes::{scheme_by_default, scheme_of};
use dfdl_chains::{NamedType, prefix_type};
use dfdl_checks::PrefixType;
use dfdl_components::{Schema, Site};
use dfdl_escape_schemes::NamedScheme;
use dfdl_forms::Simple;
use dfdl_references::writer;
use dfdl_report::Place;
use dfdl_scope::{Asked, Component, is_expression, literal, property};
use std::alloc::{AllocError, Global};

/// The type of a component's length prefix.
#[derive(Drop)]
pub(crate) struct Prefix<'e, 's> {
    /// The simple type that it comes to, if that is carried.
    pub(crate) simple: Option<Simple>,
    /// Its start tag, or that of the component for a type of XML Schema's.
    pub(crate) place: Place,
    /// What its properties are asked of.
    pub(crate) chain: Component<'e, 's>,
    /// What its property escapeSchemeRef names.
    pub(crate) scheme: NamedScheme,
}

/// The same, lent.
pub(crate) fn lent<'p, 'e, 's>(prefix: &'p Option<Prefix<'e, 's>>) -> Option<PrefixType<'p, 'e, 's>>
    ensures { prefix_judged_of result ≡ option_map shown.prefix_seen prefix.now }
{
    match prefix {
        Some(prefix) => Some(PrefixType {
            simple: prefix.simple,
            place: prefix.place,
            chain: &prefix.chain,
            scheme: &prefix.scheme,
        }),
        None => None,
    }
}

// Whether a chain tells that the length is prefixed.
fn is_prefixed(chain: &Component<'_, '_>) -> bool
    ensures { result ≡ is_word (codes "prefixed") (told (chain_of chain.now) (codes "lengthKind")) }
{
    match property(chain, "lengthKind") {
        Asked::Given(written) => literal(written) == "prefixed",
        Asked::Absent => false,
        Asked::Twice { .. } => false,
    }
}

// The name that is told, by no expression.
fn name_in<'c>(told: Asked<'c>) -> Option<&'c str>
    ensures { lent_text result ≡ shown.name_in (told_by told.entry) }
{
    match told {
        Asked::Given(written) => {
            if is_expression(written) {
                None
            } else {
                Some(literal(written))
            }
        }
        Asked::Absent => None,
        Asked::Twice { .. } => None,
    }
}

// The name of the type of a prefix, where a chain tells that the length is prefixed.
fn type_told<'c>(chain: &Component<'_, 'c>) -> Option<&'c str>
    ensures { lent_text result ≡ shown.type_told (chain_of chain.now) }
{
    if is_prefixed(chain) {
        name_in(property(chain, "prefixLengthType"))
    } else {
        None
    }
}

// A type that comes of these simple types, as that of a prefix.
fn defined_type<'e, 's>(
    alloc: Global,
    kept: &Kept<'e, 's>,
    schema: &Schema,
    simple: Option<Simple>,
    own: Site,
    types: &[Site],
) -> Result<Prefix<'e, 's>, AllocError>
    requires kept { AreKept schema.now kept.now }
    requires own { IsSite schema.now own }
    requires types { All (IsSite schema.now) types.now }
    ensures { IfOk result (λ prefix. shown.prefix_seen prefix ≡ prefixes.defined_type schema.now own simple types.now) }
{
    let chain = chain_at(alloc, kept, schema, types)?;
    let scheme = scheme_of(alloc, schema, types, &chain)?;
    Ok(Prefix {
        simple,
        place: schema.place(own),
        chain,
        scheme,
    })
}

// A type of XML Schema's, as that of the prefix of a component whose chain has these elements.
fn built_in_type<'e, 's>(
    alloc: Global,
    kept: &Kept<'e, 's>,
    schema: &Schema,
    simple: Option<Simple>,
    site: Site,
    sites: &[Site],
) -> Result<Prefix<'e, 's>, AllocError>
    requires kept { AreKept schema.now kept.now }
    requires site { IsSite schema.now site }
    requires chain { sites.now ≡ chain_sites schema.now site }
    requires within { All (IsSite schema.now) sites.now }
    ensures { IfOk result (λ prefix. shown.prefix_seen prefix ≡ prefixes.built_in_type schema.now site simple) }
{
    let chain = built_in_chain(alloc, kept, schema, sites)?;
    let scheme = scheme_by_default(alloc, schema, sites, &chain)?;
    Ok(Prefix {
        simple,
        place: schema.place(site),
        chain,
        scheme,
    })
}

// The type of the prefix of a component whose chain has these elements, by what its name names.
fn judged_type<'e, 's>(
    alloc: Global,
    kept: &Kept<'e, 's>,
    schema: &Schema,
    site: Site,
    sites: &[Site],
    named: &NamedType,
) -> Result<Prefix<'e, 's>, AllocError>
    requires kept { AreKept schema.now kept.now }
    requires site { IsSite schema.now site }
    requires chain { sites.now ≡ chain_sites schema.now site }
    requires within { All (IsSite schema.now) sites.now }
    requires named { All (IsSite schema.now) named.now.sites.items }
    ensures { IfOk result (λ prefix. shown.prefix_seen prefix ≡ prefixes.judged_named schema.now site (named_shown named.now)) }
{
    let types = named.sites.as_slice();
    match types {
        [own, ..] => defined_type(alloc, kept, schema, named.simple, *own, types),
        [] => built_in_type(alloc, kept, schema, named.simple, site, sites),
    }
}

// The type of the prefix of a component whose chain has these elements, by its name and where that is written.
fn judged_written<'e, 's>(
    alloc: Global,
    kept: &Kept<'e, 's>,
    schema: &Schema,
    site: Site,
    sites: &[Site],
    writer: Site,
    text: &str,
) -> Result<Option<Prefix<'e, 's>>, AllocError>
    requires kept { AreKept schema.now kept.now }
    requires site { IsSite schema.now site }
    requires chain { sites.now ≡ chain_sites schema.now site }
    requires within { All (IsSite schema.now) sites.now }
    requires writer { IsSite schema.now writer }
    ensures { IfOk result (λ prefix. option_map shown.prefix_seen prefix ≡ prefixes.judged_written schema.now site text.now writer) }
{
    match prefix_type(alloc, schema, &kept.sites.numbers, writer, text)? {
        Some(named) => {
            let prefix = judged_type(alloc, kept, schema, site, sites, &named)?;
            Ok(Some(prefix))
        }
        None => Ok(None),
    }
}

/// The type of the length prefix of a component with this chain, where its length is prefixed. The name of the type is one
/// where the property is written.
pub(crate) fn prefix_at<'e, 's>(
    alloc: Global,
    kept: &Kept<'e, 's>,
    schema: &Schema,
    site: Site,
    sites: &[Site],
    chain: &Component<'e, 's>,
) -> Result<Option<Prefix<'e, 's>>, AllocError>
    requires kept { AreKept schema.now kept.now }
    requires site { IsSite schema.now site }
    requires sites { sites.now ≡ chain_sites schema.now site }
    requires within { All (IsSite schema.now) sites.now }
    requires chain { chain_of chain.now ≡ roots.chain_at schema.now site }
    ensures { IfOk result (λ prefix. option_map shown.prefix_seen prefix ≡ prefixes.prefix_at schema.now site) }
{
    let Some(text) = type_told(chain) else {
        return Ok(None);
    };
    let Some(writer) = writer(schema, sites, "prefixLengthType") else {
        return Ok(None);
    };
    judged_written(alloc, kept, schema, site, sites, writer, text)
}
