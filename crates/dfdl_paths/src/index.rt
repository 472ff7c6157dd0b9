// The places of elements among those of their names.
ghost use Rattle.std.specs.Prelude.{◌≡◌, ◌<◌, ◌^◌, ◌&&◌, ℕ, length, option_map, true};
ghost use Rattle.dfdl_expressions.specs.declared.path.Step.TheVariants.{Down};
ghost use Rattle.dfdl_paths.specs.declared.place.Place.{Place as PlaceOf};
ghost use Rattle.dfdl_paths.specs.Elements.{around, place_among};
ghost use Rattle.dfdl_paths.specs.Leads.{after, only_at};

use super::place::Place;
use super::tree::{around, inside_of, is_child, one_if};
use dfdl_region::Node;
use dfdl_terms::NameNumbers;

/// The place of an element, counted from 1, among those of a name that stand where it stands.
pub(crate) fn place_among(names: &NameNumbers, nodes: &[Node], name: u32, number: u32) -> u64
    requires few { length nodes.now < 2 ^ 32 }
    requires there { number < length nodes.now }
    ensures { result ≡ place_among names.now nodes.now name number }
{
    let outer = around(nodes, number);
    let mut place = 0;
    for other in inside_of(nodes, outer).from..number + 1 {
        place += one_if(is_child(names, nodes, name, outer, other));
    }
    place
}

/// The element that has a place, counted from 1, among those of a name that stand at another place.
pub(crate) fn child_at(
    names: &NameNumbers,
    nodes: &[Node],
    outer: Place,
    name: u32,
    index: u64,
) -> Option<Place>
    requires few { length nodes.now < 2 ^ 32 }
    ensures { (q : PlaceOf) → after names.now nodes.now (Down name true) index (only_at (Some outer)) q ≡ only_at result q }
{
    let span = inside_of(nodes, outer);
    let mut seen = 0;
    for number in span.from..span.end {
        if is_child(names, nodes, name, outer, number) {
            seen += 1;
            if seen == index {
                return Some(Place::At(number));
            }
        }
    }
    None
}
