// Which constructs are outside the subset, or lack what they need.
ghost use Rattle.std.specs.Prelude.{◌≡◌, ◌<◌, length, map, get_or};
ghost use Rattle.dfdl_constructs.specs.OutsideSubset.{excluded, has_type, is_outside_subset, needed, needs_content};
ghost use Rattle.dfdl_constructs.specs.OutsideSubset.{has_not_one_type, has_one, lacks_one, lacks_content, is_content, has_content};
ghost use Rattle.dfdl_constructs.specs.Roles.{AreRoles};

use crate::elements::has;
use crate::part::Part;
use crate::placing::{part_at, single_of};
use crate::role::Role;
use crate::roles::Roles;
use dfdl_xml_tree::Tree;

// The attributes that a construct needs.
#[tactic(auto, unfolding(crate::specs::OutsideSubset::needed))]
fn needed(role: Role) -> &'static [&'static str]
    ensures { map (λ name. name.now) result.now ≡ needed role }
{
    match role {
        Role::GlobalElement
        | Role::LocalElement
        | Role::GlobalComplexType
        | Role::GlobalSimpleType
        | Role::GlobalGroup
        | Role::DefineFormat
        | Role::DefineEscapeScheme
        | Role::DefineVariable
        | Role::Property => &["name"],
        Role::GroupReference | Role::SetVariable | Role::NewVariableInstance => &["ref"],
        Role::Restriction => &["base"],
        Role::Include => &["schemaLocation"],
        Role::MinLength | Role::MaxLength => &["value"],
        _ => &[],
    }
}

// The attributes that must not stand at a construct.
#[tactic(auto, unfolding(crate::specs::OutsideSubset::excluded))]
fn excluded(role: Role) -> &'static [&'static str]
    ensures { map (λ name. name.now) result.now ≡ excluded role }
{
    match role {
        Role::GlobalElement | Role::GlobalGroup => &["ref"],
        Role::ElementReference => &["name", "type"],
        Role::GroupReference => &["name"],
        _ => &[],
    }
}

// The construct has a content besides annotations.
fn needs_content(role: Role) -> bool
    ensures { result ≡ needs_content role }
{
    matches!(
        role,
        Role::GlobalSimpleType
            | Role::LocalSimpleType
            | Role::GlobalGroup
            | Role::DefineFormat
            | Role::DefineEscapeScheme
    )
}

// The construct has one type, as an attribute or inside of it.
fn has_type(role: Role) -> bool
    ensures { result ≡ has_type role }
{
    matches!(role, Role::GlobalElement | Role::LocalElement)
}

// An attribute of these is missing.
fn lacks_one(tree: &Tree, element: u32, names: &[&str]) -> bool
    requires { element < length tree.now }
    ensures { result ≡ lacks_one tree.now element (map (λ name. name.now) names.now) }
{
    for name in names {
        if !has(tree, element, name) {
            return true;
        }
    }
    false
}

// An attribute of these is there.
fn has_one(tree: &Tree, element: u32, names: &[&str]) -> bool
    requires { element < length tree.now }
    ensures { result ≡ has_one tree.now element (map (λ name. name.now) names.now) }
{
    for name in names {
        if has(tree, element, name) {
            return true;
        }
    }
    false
}

// The child is the part that stands once, or what stands in its place.
fn is_content(tree: &Tree, role: Role, child: u32) -> bool
    ensures { result ≡ is_content tree.now role child }
{
    if child >= tree.count() {
        return false;
    }
    match part_at(tree, role, child) {
        Some(Part::Many(..)) => false,
        _ => true,
    }
}

// A child is.
fn has_content(tree: &Tree, role: Role, element: u32) -> bool
    requires { element < length tree.now }
    ensures { result ≡ has_content tree.now role element }
{
    for child in tree.children(element) {
        if is_content(tree, role, *child) {
            return true;
        }
    }
    false
}

// It needs a content, and has none.
fn lacks_content(tree: &Tree, role: Role, element: u32) -> bool
    requires { element < length tree.now }
    ensures { result ≡ lacks_content tree.now role element }
{
    needs_content(role) && !has_content(tree, role, element)
}

// An element has both an attribute `type` and a type inside of it, or neither.
fn has_not_one_type(tree: &Tree, role: Role, element: u32) -> bool
    requires { element < length tree.now }
    ensures { result ≡ has_not_one_type tree.now role element }
{
    if !has_type(role) {
        return false;
    }
    let inline = single_of(tree, role, element);
    if has(tree, element, "type") {
        inline.is_some()
    } else {
        inline.is_none()
    }
}

/// Whether a construct is outside the subset, lacks what it needs, or has what excludes another.
pub fn is_outside_subset(tree: &Tree, roles: &Roles, element: u32) -> bool
    requires roles { AreRoles tree.now roles.now }
    requires element { element < length tree.now }
    ensures { result ≡ is_outside_subset tree.now element }
{
    let role = roles.of(element);
    role == Role::OutsideSubset
        || lacks_one(tree, element, needed(role))
        || has_one(tree, element, excluded(role))
        || lacks_content(tree, role, element)
        || has_not_one_type(tree, role, element)
}
