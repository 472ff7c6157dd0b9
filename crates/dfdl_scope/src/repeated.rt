// Properties that are given explicitly twice in a chain.
ghost use Rattle.std.specs.Prelude.{◌≡◌, map};
ghost use Rattle.std.specs.List.{list_any};
ghost use Rattle.dfdl_scope.specs.Scoping.{is_repeated, repeated_at};
ghost use Rattle.dfdl_scope.specs.Shown.{chain_of, element_of};
ghost use Rattle.dfdl_scope.specs.Table.{names_of, property_table};
ghost use Rattle.dfdl_scope.specs.TableShown.{row_shown};

use crate::asking::is_again;
use crate::component::{Component, Element};
use crate::row::PropertyRow;
use crate::table::property_rows;
use dfdl_report::Place;

/// Where the first element of a component's chain stands that gives a property of the profile
/// explicitly which it, or one behind it, gives again. Takes no memory.
pub fn first_repeated(component: &Component<'_, '_>) -> Option<Place>
    ensures { result ≡ repeated_at (chain_of component.now) (names_of property_table) }
{
    repeated_among(component.chain.as_slice(), property_rows())
}

/// The same, for these properties.
fn repeated_among(chain: &[Element<'_, '_>], rows: &[PropertyRow]) -> Option<Place>
    ensures { result ≡ repeated_at (map element_of chain.now) (names_of (map row_shown rows.now)) }
{
    for (at, element) in chain.iter().enumerate() {
        if has_repeated(element, &chain[at + 1..], rows) {
            return Some(element.place);
        }
    }
    None
}

/// Whether an element gives one of these properties explicitly which is given again.
fn has_repeated(element: &Element<'_, '_>, behind: &[Element<'_, '_>], rows: &[PropertyRow]) -> bool
    ensures { result ≡ list_any (is_repeated (element_of element.now) (map element_of behind.now))
        (names_of (map row_shown rows.now)) }
{
    for row in rows {
        if is_repeated(element, behind, row.name) {
            return true;
        }
    }
    false
}

/// Whether an element gives a property explicitly which is given again.
#[tactic(auto, unfolding(crate::specs::Scoping::is_repeated))]
fn is_repeated(element: &Element<'_, '_>, behind: &[Element<'_, '_>], name: &str) -> bool
    ensures { result ≡ is_repeated (element_of element.now) (map element_of behind.now) name.now }
{
    element.explicit(name).is_some() && is_again(element, behind, name)
}
