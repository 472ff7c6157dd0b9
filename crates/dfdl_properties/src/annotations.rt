// Properties in the annotations of components.
ghost use Rattle.std.specs.Prelude.{◌≡◌, ◌<◌, length, OnOk, IsTrue};
ghost use Rattle.dfdl_constructs.specs.Roles.{AreRoles};
ghost use Rattle.dfdl_properties.specs.Forms.{by_element, element_form, is_one, is_written_property, written_in};
ghost use Rattle.dfdl_properties.specs.Own.{in_annotation, in_annotations, in_information};
ghost use Rattle.dfdl_properties.specs.Own.{is_annotation, is_component_properties, is_dfdl_information};
ghost use Rattle.dfdl_properties.specs.Shown.{IsWith};

use crate::attributes::add_attribute_form;
use crate::trim::trimmed;
use dfdl_constructs::{Role, Roles, plain};
use dfdl_scope::{Properties, is_property};
use dfdl_xml_tree::Tree;
use std::alloc::AllocError;

// Whether a child is a `dfdl:property`.
fn is_written_property(tree: &Tree, roles: &Roles, child: u32) -> bool
    requires { AreRoles tree.now roles.now }
    ensures value { result ≡ is_one tree.now is_written_property child }
    ensures within { IsTrue result → child < length tree.now }
{
    child < tree.count() && matches!(roles.of(child), Role::Property)
}

// Whether a child holds the properties of a component.
fn is_component_properties(tree: &Tree, roles: &Roles, child: u32) -> bool
    requires { AreRoles tree.now roles.now }
    ensures value { result ≡ is_one tree.now is_component_properties child }
    ensures within { IsTrue result → child < length tree.now }
{
    child < tree.count() && matches!(roles.of(child), Role::ComponentProperties)
}

/// Whether a child is an `xs:appinfo` with DFDL's annotations.
pub(crate) fn is_dfdl_information(tree: &Tree, roles: &Roles, child: u32) -> bool
    requires { AreRoles tree.now roles.now }
    ensures value { result ≡ is_one tree.now is_dfdl_information child }
    ensures within { IsTrue result → child < length tree.now }
{
    child < tree.count() && matches!(roles.of(child), Role::Annotations(_))
}

/// Whether a child is an `xs:annotation`.
pub(crate) fn is_annotation(tree: &Tree, roles: &Roles, child: u32) -> bool
    requires { AreRoles tree.now roles.now }
    ensures value { result ≡ is_one tree.now is_annotation child }
    ensures within { IsTrue result → child < length tree.now }
{
    child < tree.count() && matches!(roles.of(child), Role::Annotation(_))
}

// Adds the property that a `dfdl:property` writes.
fn add_element<'t>(
    own: &mut Properties<'t>,
    tree: &'t Tree,
    property: u32,
) -> Result<(), AllocError>
    requires { property < length tree.now }
    ensures { OnOk result (IsWith own.old (by_element tree.now property) own.new) }
{
    let Some(name) = plain(tree, property, "name") else {
        return Ok(());
    };
    if !is_property(name) {
        return Ok(());
    }
    own.add(name, trimmed(tree.text(property)))
}

// Adds the properties in element form in an annotation element.
fn add_element_form<'t>(
    own: &mut Properties<'t>,
    tree: &'t Tree,
    roles: &Roles,
    element: u32,
) -> Result<(), AllocError>
    requires roles { AreRoles tree.now roles.now }
    requires within { element < length tree.now }
    ensures { OnOk result (IsWith own.old (element_form tree.now element) own.new) }
{
    for child in tree.children(element) {
        if is_written_property(tree, roles, *child) {
            add_element(own, tree, *child)?;
        }
    }
    Ok(())
}

/// Adds the properties that are written in an annotation element.
pub(crate) fn add_written_in<'t>(
    own: &mut Properties<'t>,
    tree: &'t Tree,
    roles: &Roles,
    element: u32,
) -> Result<(), AllocError>
    requires roles { AreRoles tree.now roles.now }
    requires within { element < length tree.now }
    ensures { OnOk result (IsWith own.old (written_in tree.now element) own.new) }
{
    add_attribute_form(own, tree, element)?;
    add_element_form(own, tree, roles, element)?;
    Ok(())
}

// Adds the properties that are written in an `xs:appinfo` of a component.
fn add_information<'t>(
    own: &mut Properties<'t>,
    tree: &'t Tree,
    roles: &Roles,
    information: u32,
) -> Result<(), AllocError>
    requires roles { AreRoles tree.now roles.now }
    requires within { information < length tree.now }
    ensures { OnOk result (IsWith own.old (in_information tree.now information) own.new) }
{
    for child in tree.children(information) {
        if is_component_properties(tree, roles, *child) {
            add_written_in(own, tree, roles, *child)?;
        }
    }
    Ok(())
}

// Adds the properties that are written in an `xs:annotation` of a component.
fn add_annotation<'t>(
    own: &mut Properties<'t>,
    tree: &'t Tree,
    roles: &Roles,
    annotation: u32,
) -> Result<(), AllocError>
    requires roles { AreRoles tree.now roles.now }
    requires within { annotation < length tree.now }
    ensures { OnOk result (IsWith own.old (in_annotation tree.now annotation) own.new) }
{
    for child in tree.children(annotation) {
        if is_dfdl_information(tree, roles, *child) {
            add_information(own, tree, roles, *child)?;
        }
    }
    Ok(())
}

/// Adds the properties that are written in the annotations of a component.
pub(crate) fn add_annotations<'t>(
    own: &mut Properties<'t>,
    tree: &'t Tree,
    roles: &Roles,
    component: u32,
) -> Result<(), AllocError>
    requires roles { AreRoles tree.now roles.now }
    requires within { component < length tree.now }
    ensures { OnOk result (IsWith own.old (in_annotations tree.now component) own.new) }
{
    for child in tree.children(component) {
        if is_annotation(tree, roles, *child) {
            add_annotation(own, tree, roles, *child)?;
        }
    }
    Ok(())
}
