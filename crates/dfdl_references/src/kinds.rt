// What the children of annotations are.
ghost use Rattle.std.specs.Prelude.{◌≡◌, ◌<◌, length, IsTrue};
ghost use Rattle.dfdl_constructs.specs.Roles.{AreRoles};
ghost use Rattle.dfdl_properties.specs.Forms.{is_one, is_written_property};
ghost use Rattle.dfdl_properties.specs.Own.{is_annotation, is_component_properties, is_dfdl_information};
ghost use Rattle.dfdl_references.specs.References.{is_defined_format};

use dfdl_constructs::{Role, Roles};
use dfdl_xml_tree::Tree;

/// Whether a child is a format that is defined with a name.
pub(crate) fn is_defined_format(tree: &Tree, roles: &Roles, child: u32) -> bool
    requires { AreRoles tree.now roles.now }
    ensures { result ≡ is_one tree.now is_defined_format child }
{
    child < tree.count() && matches!(roles.of(child), Role::DefinedFormat)
}

/// Whether a child holds the properties of a component.
pub(crate) fn is_component_properties(tree: &Tree, roles: &Roles, child: u32) -> bool
    requires { AreRoles tree.now roles.now }
    ensures { result ≡ is_one tree.now is_component_properties child }
{
    child < tree.count() && matches!(roles.of(child), Role::ComponentProperties)
}

/// Whether a child is an `xs:appinfo` with DFDL's annotations.
pub(crate) fn is_dfdl_information(tree: &Tree, roles: &Roles, child: u32) -> bool
    requires { AreRoles tree.now roles.now }
    ensures { result ≡ is_one tree.now is_dfdl_information child }
{
    child < tree.count() && matches!(roles.of(child), Role::Annotations(_))
}

/// Whether a child is an `xs:annotation`.
pub(crate) fn is_annotation(tree: &Tree, roles: &Roles, child: u32) -> bool
    requires { AreRoles tree.now roles.now }
    ensures { result ≡ is_one tree.now is_annotation child }
{
    child < tree.count() && matches!(roles.of(child), Role::Annotation(_))
}

/// Whether a child is a `dfdl:property`.
pub(crate) fn is_written_property(tree: &Tree, roles: &Roles, child: u32) -> bool
    requires { AreRoles tree.now roles.now }
    ensures value { result ≡ is_one tree.now is_written_property child }
    ensures within { IsTrue result → child < length tree.now }
{
    child < tree.count() && matches!(roles.of(child), Role::Property)
}
