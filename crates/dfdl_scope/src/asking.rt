// What a component's chain answers for a property.
ghost use Rattle.std.specs.Prelude.{◌≡◌, map};
ghost use Rattle.dfdl_scope.specs.Scoping.{told, alone, default_value, is_again, is_explicit};
ghost use Rattle.dfdl_scope.specs.Shown.{chain_of, element_of, lent_text};
ghost use Rattle.dfdl_scope.specs.Told.{told_by};

use crate::component::{Component, Element, value_in};
use dfdl_report::Place;

/// What a property is at a component.
#[derive(Debug, Clone, Copy, PartialEq, Eq)]
pub enum Asked<'c> {
    /// Its value, explicit at one element of the chain or taken from a default format.
    Given(&'c str),
    /// No element and no default format gives it.
    Absent,
    /// It is explicit at two elements of the chain, or twice at one.
    Twice {
        /// The first of them.
        place: Place,
    },
}

/// Asks a component for a property. Takes no memory.
pub fn property<'c>(component: &Component<'_, 'c>, name: &str) -> Asked<'c>
    ensures { told_by result ≡ told (chain_of component.now) name.now }
{
    let chain = component.chain.as_slice();
    for (at, element) in chain.iter().enumerate() {
        if let Some(value) = element.explicit(name) {
            return alone(value, element, &chain[at + 1..], name);
        }
    }
    match in_default(chain, name) {
        Some(value) => Asked::Given(value),
        None => Asked::Absent,
    }
}

/// The answer where an element gives a value explicitly, with these elements behind it.
fn alone<'c>(
    value: &'c str,
    element: &Element<'_, 'c>,
    behind: &[Element<'_, 'c>],
    name: &str,
) -> Asked<'c>
    ensures { told_by result ≡ alone value.now (element_of element.now) (map element_of behind.now) name.now }
{
    if is_again(element, behind, name) {
        Asked::Twice {
            place: element.place,
        }
    } else {
        Asked::Given(value)
    }
}

/// Whether an element gives the property twice, or one of these behind it gives it too.
pub(crate) fn is_again(element: &Element<'_, '_>, behind: &[Element<'_, '_>], name: &str) -> bool
    ensures { result ≡ is_again (element_of element.now) (map element_of behind.now) name.now }
{
    element.own.is_twice(name) || is_explicit(behind, name)
}

/// Whether some of these elements gives the property explicitly.
fn is_explicit(chain: &[Element<'_, '_>], name: &str) -> bool
    ensures { result ≡ is_explicit (map element_of chain.now) name.now }
{
    for element in chain {
        if element.explicit(name).is_some() {
            return true;
        }
    }
    false
}

/// The value in the first default format that gives the property.
fn in_default<'c>(chain: &[Element<'_, 'c>], name: &str) -> Option<&'c str>
    ensures { lent_text result ≡ default_value (map element_of chain.now) name.now }
{
    for element in chain {
        if let Some(value) = value_in(element.default, name) {
            return Some(value);
        }
    }
    None
}
