// Which values the attributes of a construct can have.
ghost use Rattle.std.specs.Prelude.{◌≡◌, ◌<◌, length, map, get_or, option_copied};
ghost use Rattle.std.specs.List.{list_any};
ghost use Rattle.dfdl_constructs.specs.ValuesAllowed.{are_bounds_turned, is_occurring, is_other};
ghost use Rattle.dfdl_constructs.specs.ValuesAllowed.{is_refused, is_value_not_allowed, or_one};
ghost use Rattle.dfdl_constructs.specs.Elements.{plain_of};
ghost use Rattle.dfdl_constructs.specs.Roles.{AreRoles};
ghost use Rattle.dfdl_constructs.specs.Shown.{known_shown};

use crate::attributes::{Known, attributes_of};
use crate::digits::is_above;
use crate::elements::{dfdl, plain};
use crate::role::Role;
use crate::roles::Roles;
use crate::value::ValueForm;
use dfdl_xml_tree::Tree;

// The value is there and not of the form.
fn is_other(form: ValueForm, value: Option<&str>) -> bool
    ensures { result ≡ is_other form (option_copied value.entry) }
{
    match value {
        Some(value) => !form.allows(value),
        None => false,
    }
}

// The element has the attribute with a value that it can't have.
fn is_refused(tree: &Tree, element: u32, known: &Known) -> bool
    requires { element < length tree.now }
    ensures { result ≡ is_refused tree.now element (known_shown known.now) }
{
    match known {
        Known::Plain(name, form) => is_other(*form, plain(tree, element, name)),
        Known::FormatReference => is_other(ValueForm::QName, dfdl(tree, element, "ref")),
    }
}

// The element has one of the attributes with a value that it can't have.
fn is_any_refused(tree: &Tree, element: u32, attributes: &[Known]) -> bool
    requires { element < length tree.now }
    ensures { result ≡ list_any (is_refused tree.now element) (map known_shown attributes.now) }
{
    for known in attributes {
        if is_refused(tree, element, known) {
            return true;
        }
    }
    false
}

// The construct occurs as often as its bounds say.
fn is_occurring(role: Role) -> bool
    ensures { result ≡ is_occurring role }
{
    matches!(role, Role::LocalElement | Role::ElementReference)
}

// A bound, 1 where it is absent.
fn bound<'t>(tree: &'t Tree, element: u32, name: &str) -> &'t str
    requires { element < length tree.now }
    ensures { result.now ≡ or_one (plain_of tree.now element name.now) }
{
    match plain(tree, element, name) {
        Some(value) => value,
        None => "1",
    }
}

// The least number of occurrences is above the greatest.
fn are_bounds_turned(tree: &Tree, element: u32) -> bool
    requires { element < length tree.now }
    ensures { result ≡ are_bounds_turned tree.now element }
{
    is_above(
        bound(tree, element, "minOccurs"),
        bound(tree, element, "maxOccurs"),
    )
}

/// Whether an attribute of a construct has a value that it can't have, or an element occurs at least
/// more often than at most.
pub fn is_value_not_allowed(tree: &Tree, roles: &Roles, element: u32) -> bool
    requires roles { AreRoles tree.now roles.now }
    requires element { element < length tree.now }
    ensures { result ≡ is_value_not_allowed tree.now element }
{
    let role = roles.of(element);
    is_any_refused(tree, element, attributes_of(role))
        || (is_occurring(role) && are_bounds_turned(tree, element))
}
