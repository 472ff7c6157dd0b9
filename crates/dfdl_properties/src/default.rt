// The default format of a document.
ghost use Rattle.std.specs.Prelude.{◌≡◌, ◌<◌, length, IsTrue, filter};
ghost use Rattle.dfdl_markup.specs.Trees.{node_at};
ghost use Rattle.dfdl_constructs.specs.Roles.{AreRoles};
ghost use Rattle.dfdl_properties.specs.Forms.{children_of, is_one};
ghost use Rattle.dfdl_properties.specs.Own.{default_format_of, first, formats_in, is_default_format};

use crate::annotations::{is_annotation, is_dfdl_information};
use dfdl_constructs::{Role, Roles};
use dfdl_xml_tree::Tree;

// Whether a child is a default format.
fn is_default_format(tree: &Tree, roles: &Roles, child: u32) -> bool
    requires { AreRoles tree.now roles.now }
    ensures value { result ≡ is_one tree.now is_default_format child }
{
    child < tree.count() && matches!(roles.of(child), Role::DefaultFormat)
}

// The first default format in an `xs:appinfo`.
fn first_in_information(tree: &Tree, roles: &Roles, information: u32) -> Option<u32>
    requires roles { AreRoles tree.now roles.now }
    requires within { information < length tree.now }
    ensures { result ≡ first (children_of tree.now is_default_format information) }
{
    for child in tree.children(information) {
        if is_default_format(tree, roles, *child) {
            return Some(*child);
        }
    }
    None
}

// The first default format in an `xs:annotation`.
fn first_in_annotation(tree: &Tree, roles: &Roles, annotation: u32) -> Option<u32>
    requires roles { AreRoles tree.now roles.now }
    requires within { annotation < length tree.now }
    ensures { result ≡ first (formats_in tree.now annotation) }
{
    for child in tree.children(annotation) {
        if is_dfdl_information(tree, roles, *child) {
            if let Some(format) = first_in_information(tree, roles, *child) {
                return Some(format);
            }
        }
    }
    None
}

/// The default format of a document: the first `dfdl:format` directly in the annotations of its
/// schema. A document without elements has none.
pub fn default_format(tree: &Tree, roles: &Roles) -> Option<u32>
    requires { AreRoles tree.now roles.now }
    ensures { result ≡ default_format_of tree.now }
{
    if tree.count() == 0 {
        return None;
    }
    for child in tree.children(0) {
        if is_annotation(tree, roles, *child) {
            if let Some(format) = first_in_annotation(tree, roles, *child) {
                return Some(format);
            }
        }
    }
    None
}
