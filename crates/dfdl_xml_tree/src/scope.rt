// Which namespace a prefix stands for.
ghost use Rattle.std.specs.Prelude.{◌≡◌, map, chars};
ghost use Rattle.dfdl_markup.specs.Values.{found};
ghost use Rattle.dfdl_markup.specs.Trees.{scope_from};
ghost use Rattle.dfdl_xml_names.specs.Shown.{attribute_of, lent_text};
ghost use Rattle.dfdl_xml_tree.specs.Shown.{node_of};
ghost use Rattle.dfdl_xml_tree.specs.Texts.{declared_in};

use crate::element::Element;
use dfdl_xml_names::fixed_namespace;

// The namespace that an element declares for a prefix.
fn declared<'t>(element: &'t Element, prefix: &str) -> Option<&'t str>
    ensures { lent_text result ≡ declared_in (map attribute_of element.now.attributes.items) (chars prefix.now) }
{
    element.declared.find(prefix)
}

// The namespace that a prefix stands for inside of an element, or of those that it stands in, at
// most so many up.
#[tactic(auto, using(crate::proofs::Scopes::beyond_found, crate::proofs::Scopes::none_found))]
pub(crate) fn find_from<'t>(
    elements: &'t [Element],
    most: u32,
    element: Option<u32>,
    prefix: &str,
) -> Option<&'t str>
    ensures { lent_text result ≡ found (scope_from most (map node_of elements.now) element) (chars prefix.now) }
{
    let Some(number) = element else {
        return fixed_namespace(prefix);
    };
    if most == 0 {
        return fixed_namespace(prefix);
    }
    if number as usize >= elements.len() {
        return fixed_namespace(prefix);
    }
    let found = &elements[number as usize];
    match declared(found, prefix) {
        Some(namespace) => Some(namespace),
        None => find_from(elements, most - 1, found.parent, prefix),
    }
}
