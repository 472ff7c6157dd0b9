// Where the elements of one document write properties.
ghost use Rattle.std.specs.Prelude.{◌≡◌, ◌<◌, length, IfSome};
ghost use Rattle.dfdl_constructs.specs.Roles.{AreRoles};
ghost use Rattle.dfdl_references.specs.Writers as spec;

use crate::kinds::{
    is_annotation, is_component_properties, is_dfdl_information, is_written_property,
};
use dfdl_constructs::{Roles, dfdl, plain};
use dfdl_xml_tree::Tree;

// Whether the `name` of an element is this one.
fn is_called(tree: &Tree, element: u32, name: &str) -> bool
    requires { element < length tree.now }
    ensures { result ≡ spec.is_called tree.now name.now element }
{
    match plain(tree, element, "name") {
        Some(text) => text == name,
        None => false,
    }
}

/// The first `dfdl:property` in an element that has this name.
pub(crate) fn property_in(tree: &Tree, roles: &Roles, element: u32, name: &str) -> Option<u32>
    requires roles { AreRoles tree.now roles.now }
    requires within { element < length tree.now }
    ensures property { result ≡ spec.property_in tree.now name.now element }
    ensures within { IfSome result (λ child. child < length tree.now) }
{
    for child in tree.children(element) {
        if is_written_property(tree, roles, *child) && is_called(tree, *child, name) {
            return Some(*child);
        }
    }
    None
}

/// Where an annotation element, or a format, writes a property.
pub(crate) fn writer_in(tree: &Tree, roles: &Roles, element: u32, name: &str) -> Option<u32>
    requires roles { AreRoles tree.now roles.now }
    requires within { element < length tree.now }
    ensures { result ≡ spec.writer_in tree.now name.now element }
{
    if plain(tree, element, name).is_some() {
        return Some(element);
    }
    property_in(tree, roles, element, name)
}

// Where the annotation elements in an `xs:appinfo` write a property.
fn writer_in_information(tree: &Tree, roles: &Roles, information: u32, name: &str) -> Option<u32>
    requires roles { AreRoles tree.now roles.now }
    requires within { information < length tree.now }
    ensures { result ≡ spec.writer_in_information tree.now name.now information }
{
    for child in tree.children(information) {
        if is_component_properties(tree, roles, *child) {
            if let Some(writer) = writer_in(tree, roles, *child, name) {
                return Some(writer);
            }
        }
    }
    None
}

// Where the annotation elements in an `xs:annotation` write a property.
fn writer_in_annotation(tree: &Tree, roles: &Roles, annotation: u32, name: &str) -> Option<u32>
    requires roles { AreRoles tree.now roles.now }
    requires within { annotation < length tree.now }
    ensures { result ≡ spec.writer_in_annotation tree.now name.now annotation }
{
    for child in tree.children(annotation) {
        if is_dfdl_information(tree, roles, *child) {
            if let Some(writer) = writer_in_information(tree, roles, *child, name) {
                return Some(writer);
            }
        }
    }
    None
}

// Where the annotation elements of a component write a property.
fn writer_in_annotations(tree: &Tree, roles: &Roles, component: u32, name: &str) -> Option<u32>
    requires roles { AreRoles tree.now roles.now }
    requires within { component < length tree.now }
    ensures { result ≡ spec.writer_in_annotations tree.now name.now component }
{
    for child in tree.children(component) {
        if is_annotation(tree, roles, *child) {
            if let Some(writer) = writer_in_annotation(tree, roles, *child, name) {
                return Some(writer);
            }
        }
    }
    None
}

/// Where a component writes a property by itself.
pub(crate) fn own_writer(tree: &Tree, roles: &Roles, component: u32, name: &str) -> Option<u32>
    requires roles { AreRoles tree.now roles.now }
    requires within { component < length tree.now }
    ensures { result ≡ spec.own_writer tree.now name.now component }
{
    if dfdl(tree, component, name).is_some() {
        return Some(component);
    }
    writer_in_annotations(tree, roles, component, name)
}
