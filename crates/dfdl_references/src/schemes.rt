// The escape schemes that names name.
ghost use Rattle.std.specs.Prelude.{◌≡◌, ◌<◌, length, option_copied, option_map, IfOk, IfSome, IsTrue};
ghost use Rattle.dfdl_components.specs.Sites.{IsSite, nodes_of};
ghost use Rattle.dfdl_constructs.specs.Roles.{AreRoles};
ghost use Rattle.dfdl_escape_schemes.specs.Shown.{told_of};
ghost use Rattle.dfdl_properties.specs.Forms.{is_one};
ghost use Rattle.dfdl_references.specs.Schemes as spec;
ghost use Rattle.dfdl_references.specs.Writers.{property_in};

use crate::writing::property_in;
use dfdl_components::{ComponentKind, Named, Schema, Site};
use dfdl_constructs::{Role, Roles, plain};
use dfdl_escape_schemes::{NamedScheme, SchemeProperties, escape_scheme};
use dfdl_properties::trimmed;
use dfdl_xml_tree::Tree;
use std::alloc::{AllocError, Global};

// Whether a child is a `dfdl:escapeScheme`.
fn is_escape_scheme(tree: &Tree, roles: &Roles, child: u32) -> bool
    requires { AreRoles tree.now roles.now }
    ensures value { result ≡ is_one tree.now spec.is_escape_scheme child }
    ensures within { IsTrue result → child < length tree.now }
{
    child < tree.count() && matches!(roles.of(child), Role::EscapeScheme)
}

// The scheme in a definition.
fn scheme_in(tree: &Tree, roles: &Roles, definition: u32) -> Option<u32>
    requires roles { AreRoles tree.now roles.now }
    requires within { definition < length tree.now }
    ensures scheme { result ≡ spec.scheme_in tree.now definition }
    ensures within { IfSome result (λ scheme. scheme < length tree.now) }
{
    for child in tree.children(definition) {
        if is_escape_scheme(tree, roles, *child) {
            return Some(*child);
        }
    }
    None
}

// The value of the property of a scheme that is written in element form.
fn in_element_form<'t>(tree: &'t Tree, roles: &Roles, scheme: u32, name: &str) -> Option<&'t str>
    requires roles { AreRoles tree.now roles.now }
    requires within { scheme < length tree.now }
    ensures { option_copied result ≡ option_map (spec.text_of tree.now) (property_in tree.now name.now scheme) }
{
    match property_in(tree, roles, scheme, name) {
        Some(property) => Some(trimmed(tree.text(property))),
        None => None,
    }
}

// The value of a property of a scheme.
fn scheme_property<'t>(tree: &'t Tree, roles: &Roles, scheme: u32, name: &str) -> Option<&'t str>
    requires roles { AreRoles tree.now roles.now }
    requires within { scheme < length tree.now }
    ensures { option_copied result ≡ spec.scheme_property tree.now scheme name.now }
{
    match plain(tree, scheme, name) {
        Some(value) => Some(value),
        None => in_element_form(tree, roles, scheme, name),
    }
}

// The properties of a scheme.
fn scheme_told<'t>(tree: &'t Tree, roles: &Roles, scheme: u32) -> SchemeProperties<'t>
    requires roles { AreRoles tree.now roles.now }
    requires within { scheme < length tree.now }
    ensures { told_of result ≡ spec.scheme_told tree.now scheme }
{
    SchemeProperties {
        kind: scheme_property(tree, roles, scheme, "escapeKind"),
        escape: scheme_property(tree, roles, scheme, "escapeCharacter"),
        escape_escape: scheme_property(tree, roles, scheme, "escapeEscapeCharacter"),
        start: scheme_property(tree, roles, scheme, "escapeBlockStart"),
        end: scheme_property(tree, roles, scheme, "escapeBlockEnd"),
        extra: scheme_property(tree, roles, scheme, "extraEscapedCharacters"),
        generation: scheme_property(tree, roles, scheme, "generateEscapeBlock"),
    }
}

// The scheme that a definition defines.
fn scheme_at(
    alloc: Global,
    tree: &Tree,
    roles: &Roles,
    definition: u32,
) -> Result<NamedScheme, AllocError>
    requires roles { AreRoles tree.now roles.now }
    requires within { definition < length tree.now }
    ensures { IfOk result (λ named. named ≡ spec.scheme_at tree.now definition) }
{
    let Some(scheme) = scheme_in(tree, roles, definition) else {
        return Ok(NamedScheme::Unknown);
    };
    let named = escape_scheme(alloc, &scheme_told(tree, roles, scheme))?;
    Ok(NamedScheme::of(named))
}

// The scheme that a definition of a schema's defines.
fn scheme_of(alloc: Global, schema: &Schema, definition: Site) -> Result<NamedScheme, AllocError>
    ensures { IfOk result (λ named. named ≡ spec.scheme_at (nodes_of schema.now definition.document) definition.element) }
{
    let document = definition.document;
    if document >= schema.count() {
        return Ok(NamedScheme::Unknown);
    }
    let tree = schema.tree(document);
    if definition.element >= tree.count() {
        return Ok(NamedScheme::Unknown);
    }
    scheme_at(alloc, tree, schema.roles(document), definition.element)
}

/// The escape scheme that a text names which is written at an element ('Simple Types', on escapeSchemeRef), or that it is malformed, or that
/// the text names none.
#[tactic(auto, unfolding(crate::specs::Schemes::named_scheme))]
pub fn named_scheme(
    alloc: Global,
    schema: &Schema,
    writer: Site,
    text: &str,
) -> Result<NamedScheme, AllocError>
    requires { IsSite schema.now writer }
    ensures { IfOk result (λ named. named ≡ spec.named_scheme schema.now writer text.now) }
{
    match schema.resolve(writer, ComponentKind::EscapeScheme, text) {
        Some(Named::Component(definition)) => scheme_of(alloc, schema, definition),
        _ => Ok(NamedScheme::Unknown),
    }
}
