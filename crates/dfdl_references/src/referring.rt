// The formats that components and formats refer to.
ghost use Rattle.std.specs.Prelude.{◌≡◌, ◌<◌, length, option_map, IfSome, Some};
ghost use Rattle.dfdl_components.specs.Globals.{site};
ghost use Rattle.dfdl_components.specs.Sites.{IsSite, nodes_of};
ghost use Rattle.dfdl_constructs.specs.Roles.{AreRoles};
ghost use Rattle.dfdl_markup.specs.Trees.{node_at};
ghost use Rattle.dfdl_references.specs.References as spec;

use crate::kinds::{
    is_annotation, is_component_properties, is_defined_format, is_dfdl_information,
};
use dfdl_components::{ComponentKind, Named, Schema, Site};
use dfdl_constructs::{Roles, dfdl, plain};
use dfdl_properties::default_format;
use dfdl_xml_tree::Tree;

// The format in a definition.
fn format_in(tree: &Tree, roles: &Roles, definition: u32) -> Option<u32>
    requires roles { AreRoles tree.now roles.now }
    requires within { definition < length tree.now }
    ensures { result ≡ spec.format_in tree.now definition }
{
    for child in tree.children(definition) {
        if is_defined_format(tree, roles, *child) {
            return Some(*child);
        }
    }
    None
}

// The format in a definition of a schema's.
fn format_in_definition(schema: &Schema, definition: Site) -> Option<Site>
    ensures { result ≡ option_map (site definition.document)
        (spec.format_in (nodes_of schema.now definition.document) definition.element) }
{
    let document = definition.document;
    if document >= schema.count() {
        return None;
    }
    let tree = schema.tree(document);
    if definition.element >= tree.count() {
        return None;
    }
    let element = format_in(tree, schema.roles(document), definition.element)?;
    Some(Site { document, element })
}

// The format that a text names which is written at an element.
fn format_named(schema: &Schema, own: Site, text: &str) -> Option<Site>
    requires { IsSite schema.now own }
    ensures { result ≡ spec.format_named schema.now own (Some text.now) }
{
    match schema.resolve(own, ComponentKind::Format, text) {
        Some(Named::Component(definition)) => format_in_definition(schema, definition),
        _ => None,
    }
}

// The format that a format, or an annotation element, refers to by its `ref`.
fn find_after(schema: &Schema, own: Site) -> Option<Site>
    requires { IsSite schema.now own }
    ensures { result ≡ spec.format_after schema.now own }
{
    match plain(schema.tree(own.document), own.element, "ref") {
        Some(text) => format_named(schema, own, text),
        None => None,
    }
}

/// The format that a format, or an annotation element, refers to by its `ref`.
#[tactic(auto, using(crate::proofs::Found::after_within))]
pub fn format_after(schema: &Schema, own: Site) -> Option<Site>
    requires { IsSite schema.now own }
    ensures format { result ≡ spec.format_after schema.now own }
    ensures within { IfSome result (IsSite schema.now) }
{
    find_after(schema, own)
}

// The format that a component refers to in short form.
fn format_in_short(schema: &Schema, own: Site) -> Option<Site>
    requires { IsSite schema.now own }
    ensures { result ≡ spec.format_in_short schema.now own }
{
    match dfdl(schema.tree(own.document), own.element, "ref") {
        Some(text) => format_named(schema, own, text),
        None => None,
    }
}

// The first format that an annotation element in an `xs:appinfo` refers to.
fn format_in_information(schema: &Schema, own: Site) -> Option<Site>
    requires { IsSite schema.now own }
    ensures { result ≡ spec.format_in_information schema.now own.document own.element }
{
    let document = own.document;
    let tree = schema.tree(document);
    for child in tree.children(own.element) {
        if is_component_properties(tree, schema.roles(document), *child) {
            let element = *child;
            if let Some(format) = find_after(schema, Site { document, element }) {
                return Some(format);
            }
        }
    }
    None
}

// The first format that an annotation element in an `xs:annotation` refers to.
fn format_in_annotation(schema: &Schema, own: Site) -> Option<Site>
    requires { IsSite schema.now own }
    ensures { result ≡ spec.format_in_annotation schema.now own.document own.element }
{
    let document = own.document;
    let tree = schema.tree(document);
    for child in tree.children(own.element) {
        if is_dfdl_information(tree, schema.roles(document), *child) {
            let element = *child;
            if let Some(format) = format_in_information(schema, Site { document, element }) {
                return Some(format);
            }
        }
    }
    None
}

// The first format that an annotation element of a component refers to.
fn format_in_annotations(schema: &Schema, own: Site) -> Option<Site>
    requires { IsSite schema.now own }
    ensures { result ≡ spec.format_in_annotations schema.now own }
{
    let document = own.document;
    let tree = schema.tree(document);
    for child in tree.children(own.element) {
        if is_annotation(tree, schema.roles(document), *child) {
            let element = *child;
            if let Some(format) = format_in_annotation(schema, Site { document, element }) {
                return Some(format);
            }
        }
    }
    None
}

/// The format that a component refers to.
#[tactic(auto, using(crate::proofs::Found::of_within))]
pub fn format_of(schema: &Schema, own: Site) -> Option<Site>
    requires { IsSite schema.now own }
    ensures format { result ≡ spec.format_of schema.now own }
    ensures within { IfSome result (IsSite schema.now) }
{
    find_format(schema, own)
}

// The format that a component refers to.
fn find_format(schema: &Schema, own: Site) -> Option<Site>
    requires { IsSite schema.now own }
    ensures { result ≡ spec.format_of schema.now own }
{
    match format_in_short(schema, own) {
        Some(format) => Some(format),
        None => format_in_annotations(schema, own),
    }
}

/// The default format of a document.
#[tactic(auto, using(crate::proofs::Found::default_within))]
pub fn default_of(schema: &Schema, document: u32) -> Option<Site>
    requires { document < length schema.now }
    ensures format { result ≡ spec.default_of schema.now document }
    ensures within { IfSome result (IsSite schema.now) }
{
    find_default(schema, document)
}

// The default format of a document.
fn find_default(schema: &Schema, document: u32) -> Option<Site>
    requires { document < length schema.now }
    ensures { result ≡ spec.default_of schema.now document }
{
    let element = default_format(schema.tree(document), schema.roles(document))?;
    Some(Site { document, element })
}
