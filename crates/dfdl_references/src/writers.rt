// Where the property of a component is written.
ghost use Rattle.std.specs.Prelude.{◌≡◌, All, IfSome, option_map};
ghost use Rattle.std.specs.Option.{option_and_then};
ghost use Rattle.dfdl_components.specs.Globals.{site};
ghost use Rattle.dfdl_components.specs.Recursion.{count_of};
ghost use Rattle.dfdl_components.specs.Sites.{IsSite, nodes_of};
ghost use Rattle.dfdl_references.specs.References.{first_found};
ghost use Rattle.dfdl_references.specs.Writers as spec;

use crate::referring::{default_of, format_after, format_of};
use crate::writing::{own_writer, writer_in};
use dfdl_components::{Schema, Site};

// How many elements the documents have.
fn count(schema: &Schema) -> u64
    ensures { result ≡ count_of schema.now }
{
    let mut count: u64 = 0;
    for document in 0..schema.count() {
        count += schema.tree(document).count() as u64;
    }
    count
}

// Where a format writes a property by itself.
fn format_own_writer(schema: &Schema, format: Site, name: &str) -> Option<Site>
    requires { IsSite schema.now format }
    ensures { result ≡ spec.format_own_writer schema.now name.now format }
{
    let document = format.document;
    let tree = schema.tree(document);
    let element = writer_in(tree, schema.roles(document), format.element, name)?;
    Some(Site { document, element })
}

// Where a format writes a property: by itself, or by a format that it leads to.
fn format_writer(schema: &Schema, format: Site, name: &str) -> Option<Site>
    requires { IsSite schema.now format }
    ensures { result ≡ spec.format_writer schema.now name.now format }
{
    let mut current = format;
    for step in 0..count(schema) {
        if let Some(writer) = format_own_writer(schema, current, name) {
            return Some(writer);
        }
        current = format_after(schema, current)?;
    }
    None
}

// Where a format that may be lacking writes a property.
fn writer_by(schema: &Schema, format: Option<Site>, name: &str) -> Option<Site>
    requires { IfSome format (IsSite schema.now) }
    ensures { result ≡ option_and_then (spec.format_writer schema.now name.now) format }
{
    match format {
        Some(format) => format_writer(schema, format, name),
        None => None,
    }
}

// Where a component writes a property by itself.
fn component_writer(schema: &Schema, own: Site, name: &str) -> Option<Site>
    requires { IsSite schema.now own }
    ensures { result ≡ option_map (site own.document) (spec.own_writer (nodes_of schema.now own.document) name.now own.element) }
{
    let document = own.document;
    let tree = schema.tree(document);
    let element = own_writer(tree, schema.roles(document), own.element, name)?;
    Some(Site { document, element })
}

// Where a component writes a property explicitly.
fn explicit_writer(schema: &Schema, own: Site, name: &str) -> Option<Site>
    requires { IsSite schema.now own }
    ensures { result ≡ spec.explicit_writer schema.now name.now own }
{
    match component_writer(schema, own, name) {
        Some(writer) => Some(writer),
        None => writer_by(schema, format_of(schema, own), name),
    }
}

// Where a component writes a property by default.
fn default_writer(schema: &Schema, own: Site, name: &str) -> Option<Site>
    requires { IsSite schema.now own }
    ensures { result ≡ spec.default_writer schema.now name.now own }
{
    writer_by(schema, default_of(schema, own.document), name)
}

// Where the first of some components that does so writes a property explicitly.
fn first_explicit(schema: &Schema, chain: &[Site], name: &str) -> Option<Site>
    requires { All (IsSite schema.now) chain.now }
    ensures { result ≡ first_found (spec.explicit_writer schema.now name.now) chain.now }
{
    for own in chain {
        if let Some(writer) = explicit_writer(schema, *own, name) {
            return Some(writer);
        }
    }
    None
}

// Where the first of some components that does so writes a property by default.
fn first_by_default(schema: &Schema, chain: &[Site], name: &str) -> Option<Site>
    requires { All (IsSite schema.now) chain.now }
    ensures { result ≡ first_found (spec.default_writer schema.now name.now) chain.now }
{
    for own in chain {
        if let Some(writer) = default_writer(schema, *own, name) {
            return Some(writer);
        }
    }
    None
}

// Where the property of components is written by default.
fn find_default_writer(schema: &Schema, chain: &[Site], name: &str) -> Option<Site>
    requires { All (IsSite schema.now) chain.now }
    ensures { result ≡ spec.by_default_writer schema.now chain.now name.now }
{
    first_by_default(schema, chain, name)
}

/// Where the property of a chain is written by default: by the first default format of the documents of these elements that
/// does.
#[tactic(auto, using(crate::proofs::There::default_writer_there))]
pub fn by_default_writer(schema: &Schema, chain: &[Site], name: &str) -> Option<Site>
    requires { All (IsSite schema.now) chain.now }
    ensures writer { result ≡ spec.by_default_writer schema.now chain.now name.now }
    ensures within { IfSome result (IsSite schema.now) }
{
    find_default_writer(schema, chain, name)
}

// Where the property of a chain is written.
fn find_writer(schema: &Schema, chain: &[Site], name: &str) -> Option<Site>
    requires { All (IsSite schema.now) chain.now }
    ensures { result ≡ spec.writer_of schema.now chain.now name.now }
{
    match first_explicit(schema, chain, name) {
        Some(writer) => Some(writer),
        None => first_by_default(schema, chain, name),
    }
}

/// Where the property of a component is written: the element in whose scope the names in its value are resolved. The chain
/// is that of the component, as an element, the one that it refers to and the simple types that it stands on.
#[tactic(auto, using(crate::proofs::There::writer_there))]
pub fn writer(schema: &Schema, chain: &[Site], name: &str) -> Option<Site>
    requires { All (IsSite schema.now) chain.now }
    ensures writer { result ≡ spec.writer_of schema.now chain.now name.now }
    ensures within { IfSome result (IsSite schema.now) }
{
    find_writer(schema, chain, name)
}
