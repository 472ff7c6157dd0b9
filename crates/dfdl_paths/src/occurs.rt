// The number of the innermost occurrence.
ghost use Rattle.std.specs.Prelude.{◌≡◌, ◌<◌, ◌^◌, ℕ, length, slice_get};
ghost use Rattle.dfdl_paths.specs.Elements.{around, place_of, same_row, stand_together};
ghost use Rattle.dfdl_paths.specs.Values.{index_of, is_item_by};

use super::place::Place;
use super::tree::{around, inside_of, one_if};
use dfdl_region::Node;
use dfdl_terms::Items;

/// The place in its array, counted from 1, of the innermost item of an array that an element is or stands in; 1 where there is
/// none.
pub fn occurs_index(items: &Items, nodes: &[Node], inside: u32) -> u64
    requires few { length nodes.now < 2 ^ 32 }
    ensures { result ≡ index_of items.now nodes.now inside }
{
    let mut number = inside;
    let mut left = inside as u64 + 1;
    while left > 0 {
        if is_item(items, nodes, number) {
            return place_of(nodes, number);
        }
        match around(nodes, number) {
            Place::Above => return 1,
            Place::At(outer) => number = outer,
            Place::Inside(_) => return 1,
        }
        left -= 1;
    }
    1
}

// Whether an element is an item of an array.
fn is_item(items: &Items, nodes: &[Node], number: u32) -> bool
    ensures { result ≡ is_item_by items.now (slice_get nodes.now number) }
{
    match nodes.get(number as usize) {
        Some(node) => items.has(node.element),
        None => false,
    }
}

// The place of an item in its array, counted from 1.
fn place_of(nodes: &[Node], number: u32) -> u64
    requires few { length nodes.now < 2 ^ 32 }
    requires there { number < length nodes.now }
    ensures { result ≡ place_of nodes.now number }
{
    let outer = around(nodes, number);
    let mut place = 0;
    for other in inside_of(nodes, outer).from..number + 1 {
        place += one_if(stand_together(nodes, number, outer, other));
    }
    place
}

// Whether two elements are of one row and stand at one place, which is that of the first.
fn stand_together(nodes: &[Node], number: u32, outer: Place, other: u32) -> bool
    requires { outer ≡ around nodes.now number }
    ensures { result ≡ stand_together nodes.now number other }
{
    same_row(nodes, number, other) && outer.is(around(nodes, other))
}

fn same_row(nodes: &[Node], number: u32, other: u32) -> bool
    ensures { result ≡ same_row (slice_get nodes.now number) (slice_get nodes.now other) }
{
    let Some(one) = nodes.get(number as usize) else {
        return false;
    };
    match nodes.get(other as usize) {
        Some(other) => one.element.number() == other.element.number(),
        None => false,
    }
}
