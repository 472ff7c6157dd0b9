// The escape schemes that components name.
ghost use Rattle.std.specs.Prelude.{◌≡◌, All, IfOk, IfSome, codes};
ghost use Rattle.dfdl_components.specs.Sites.{IsSite};
ghost use Rattle.dfdl_references.specs.Writers.{by_default_writer, writer_of};
ghost use Rattle.dfdl_scope.specs.Scoping.{told};
ghost use Rattle.dfdl_scope.specs.Shown.{chain_of, lent_text};
ghost use Rattle.dfdl_scope.specs.Told.{told_by};
ghost use Rattle.dfdl_breaches.specs.Schemes as spec;

use dfdl_components::{Schema, Site};
use dfdl_escape_schemes::NamedScheme;
use dfdl_references::{by_default_writer, named_scheme, writer};
use dfdl_scope::{Asked, Component, is_expression, literal, property};
use std::alloc::{AllocError, Global};

// A text, where it isn't empty.
fn text_or_none(text: &str) -> Option<&str>
    ensures { lent_text result ≡ spec.text_or_none text.now }
{
    if text.is_empty() { None } else { Some(text) }
}

// The name of a scheme that is told, by no expression.
fn scheme_name<'c>(told: Asked<'c>) -> Option<&'c str>
    ensures { lent_text result ≡ spec.scheme_name (told_by told.entry) }
{
    match told {
        Asked::Given(written) => {
            if is_expression(written) {
                None
            } else {
                text_or_none(literal(written))
            }
        }
        Asked::Absent => None,
        Asked::Twice { .. } => None,
    }
}

// The name of a scheme that a chain tells.
fn name_told<'c>(chain: &Component<'_, 'c>) -> Option<&'c str>
    ensures { lent_text result ≡ spec.scheme_name (told (chain_of chain.now) (codes "escapeSchemeRef")) }
{
    scheme_name(property(chain, "escapeSchemeRef"))
}

// The scheme of a name, which is one where it is written.
fn scheme_written(
    alloc: Global,
    schema: &Schema,
    text: &str,
    writer: Option<Site>,
) -> Result<NamedScheme, AllocError>
    requires { IfSome writer (IsSite schema.now) }
    ensures { IfOk result (λ scheme. scheme ≡ spec.scheme_written schema.now text.now writer) }
{
    match writer {
        Some(writer) => named_scheme(alloc, schema, writer, text),
        None => Ok(NamedScheme::NoName),
    }
}

/// The scheme that the chain of these elements names.
pub(crate) fn scheme_of(
    alloc: Global,
    schema: &Schema,
    sites: &[Site],
    chain: &Component<'_, '_>,
) -> Result<NamedScheme, AllocError>
    requires { All (IsSite schema.now) sites.now }
    ensures { IfOk result (λ scheme. scheme
        ≡ spec.scheme_told schema.now (writer_of schema.now sites.now (codes "escapeSchemeRef")) (chain_of chain.now)) }
{
    let Some(text) = name_told(chain) else {
        return Ok(NamedScheme::NoName);
    };
    scheme_written(
        alloc,
        schema,
        text,
        writer(schema, sites, "escapeSchemeRef"),
    )
}

/// The scheme that a chain names which gives by the default formats of the documents of these elements alone.
pub(crate) fn scheme_by_default(
    alloc: Global,
    schema: &Schema,
    sites: &[Site],
    chain: &Component<'_, '_>,
) -> Result<NamedScheme, AllocError>
    requires { All (IsSite schema.now) sites.now }
    ensures { IfOk result (λ scheme. scheme
        ≡ spec.scheme_told schema.now (by_default_writer schema.now sites.now (codes "escapeSchemeRef")) (chain_of chain.now)) }
{
    let Some(text) = name_told(chain) else {
        return Ok(NamedScheme::NoName);
    };
    scheme_written(
        alloc,
        schema,
        text,
        by_default_writer(schema, sites, "escapeSchemeRef"),
    )
}
