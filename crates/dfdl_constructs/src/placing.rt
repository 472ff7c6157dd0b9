// What an element stands for in another one.
ghost use Rattle.std.specs.Prelude.{◌≡◌, ◌<◌, length, map};
ghost use Rattle.dfdl_constructs.specs.Parts.{otherwise_in, part_named};
ghost use Rattle.dfdl_constructs.specs.Roles.{by_reference, is_dfdl_source, is_schema_element};
ghost use Rattle.dfdl_constructs.specs.Roles.{is_single_at, part_at, point_of, role_in};
ghost use Rattle.dfdl_constructs.specs.Roles.{role_in_annotation, role_of_part, root_role, single_in};
ghost use Rattle.dfdl_constructs.specs.Shown.{part_if, part_shown};

use crate::elements::{has, plain, schema_namespace};
use crate::part::Part;
use crate::parts::{namespace_in, otherwise_in, parts_in};
use crate::role::{AnnotationPoint, Role};
use dfdl_xml_tree::Tree;

// The part of this name.
fn part_named(parts: &'static [Part], name: &str) -> Option<&'static Part>
    ensures { part_if result ≡ part_named (map part_shown parts.now) name.now }
{
    for part in parts {
        if part.name() == name {
            return Some(part);
        }
    }
    None
}

// The part that an element is, in an element of this role.
pub(crate) fn part_at(tree: &Tree, role: Role, element: u32) -> Option<&'static Part>
    requires { element < length tree.now }
    ensures { part_if result ≡ part_at tree.now role element }
{
    let part = part_named(parts_in(role), tree.name(element))?;
    if tree.namespace(element) == namespace_in(role) {
        Some(part)
    } else {
        None
    }
}

// There is such an element, and it is a part that stands only once.
fn is_single(tree: &Tree, role: Role, element: u32) -> bool
    ensures { result ≡ is_single_at tree.now role element }
{
    if element >= tree.count() {
        return false;
    }
    match part_at(tree, role, element) {
        Some(Part::Single(..)) => true,
        _ => false,
    }
}

/// The part that stands only once in an element of this role: the type of an element, the group of a
/// complex type or of a global group, the restriction of a simple type, the format or escape scheme of
/// a definition.
pub fn single_of(tree: &Tree, role: Role, element: u32) -> Option<u32>
    requires { element < length tree.now }
    ensures { result ≡ single_in tree.now role element }
{
    for child in tree.children(element) {
        if is_single(tree, role, *child) {
            return Some(*child);
        }
    }
    None
}

// A local element with a `ref` is a reference.
fn by_reference(tree: &Tree, element: u32, role: Role) -> Role
    requires { element < length tree.now }
    ensures { result ≡ by_reference tree.now element role }
{
    match role {
        Role::LocalElement if has(tree, element, "ref") => Role::ElementReference,
        _ => role,
    }
}

// The element is XML Schema's of this name.
fn is_schema_element(tree: &Tree, element: u32, name: &str) -> bool
    requires { element < length tree.now }
    ensures { result ≡ is_schema_element tree.now element name.now }
{
    tree.name(element) == name && tree.namespace(element) == schema_namespace()
}

// The source is that of DFDL's annotations.
fn is_dfdl_source(tree: &Tree, element: u32) -> bool
    requires { element < length tree.now }
    ensures { result ≡ is_dfdl_source tree.now element }
{
    match plain(tree, element, "source") {
        Some(source) => {
            source == "http://www.ogf.org/dfdl/" || source == "http://www.ogf.org/dfdl"
        }
        None => false,
    }
}

// The role of an element in an annotation.
fn role_in_annotation(tree: &Tree, at: AnnotationPoint, element: u32) -> Role
    requires { element < length tree.now }
    ensures { result ≡ role_in_annotation tree.now at element }
{
    if is_schema_element(tree, element, "documentation") {
        return Role::Information;
    }
    if !is_schema_element(tree, element, "appinfo") {
        return Role::OutsideSubset;
    }
    if is_dfdl_source(tree, element) {
        Role::Annotations(at)
    } else {
        Role::Information
    }
}

// The role of an element that is a part, or none, of an element of this role.
fn role_in_parts(tree: &Tree, role: Role, single: Option<u32>, element: u32) -> Role
    requires { element < length tree.now }
    ensures { result ≡ role_of_part tree.now element single (otherwise_in role) (part_at tree.now role element) }
{
    match part_at(tree, role, element) {
        Some(Part::Many(_, part)) => by_reference(tree, element, *part),
        Some(Part::Single(_, part)) if single == Some(element) => by_reference(
            tree, element, *part,
        ),
        _ => otherwise_in(role),
    }
}

// The annotation point of an annotation.
fn point_of(role: Role) -> Option<AnnotationPoint>
    ensures { result ≡ point_of role }
{
    match role {
        Role::Annotation(at) => Some(at),
        _ => None,
    }
}

// The role of an element in an element of this role, with this part that stands once in it.
pub(crate) fn role_in(tree: &Tree, role: Role, single: Option<u32>, element: u32) -> Role
    requires { element < length tree.now }
    ensures { result ≡ role_in tree.now role single element }
{
    match point_of(role) {
        Some(at) => role_in_annotation(tree, at, element),
        None => role_in_parts(tree, role, single, element),
    }
}

// The role of an element that stands in no other.
pub(crate) fn root_role(tree: &Tree, element: u32) -> Role
    requires { element < length tree.now }
    ensures { result ≡ root_role tree.now element }
{
    if is_schema_element(tree, element, "schema") {
        Role::Schema
    } else {
        Role::OutsideSubset
    }
}
