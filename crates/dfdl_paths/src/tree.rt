// What is known of one element: its name, and where it stands.
ghost use Rattle.std.specs.Prelude.{◌≡◌, ◌<◌, ◌≤◌, ◌^◌, ℕ, length, Some};
ghost use Rattle.dfdl_paths.specs.Numbers.{count_if};
ghost use Rattle.dfdl_paths.specs.Spans.{IsAround};
ghost use Rattle.dfdl_paths.specs.Elements.{around, around_of, is_child, is_named, is_number};

use super::place::Place;
use dfdl_region::Node;
use dfdl_terms::NameNumbers;

/// Where an element stands.
pub(crate) fn around(nodes: &[Node], number: u32) -> Place
    ensures { result ≡ around nodes.now number }
{
    match nodes.get(number as usize) {
        Some(node) => around_node(number, node),
        None => Place::Above,
    }
}

fn around_node(number: u32, node: &Node) -> Place
    ensures { result ≡ around_of number (Some node.now) }
{
    if node.parent < number {
        Place::At(node.parent)
    } else {
        Place::Above
    }
}

/// Whether an element has the name of a number.
pub(crate) fn is_named(names: &NameNumbers, nodes: &[Node], name: u32, number: u32) -> bool
    ensures { result ≡ is_named names.now nodes.now name number }
{
    match nodes.get(number as usize) {
        Some(node) => is_number(names.number(node.element), name),
        None => false,
    }
}

fn is_number(number: Option<usize>, name: u32) -> bool
    ensures { result ≡ is_number number name }
{
    match number {
        Some(number) => number == name as usize,
        None => false,
    }
}

/// Whether an element has the name of a number and stands at a place.
pub(crate) fn is_child(
    names: &NameNumbers,
    nodes: &[Node],
    name: u32,
    place: Place,
    number: u32,
) -> bool
    ensures { result ≡ is_child names.now nodes.now name place number }
{
    is_named(names, nodes, name, number) && place.is(around(nodes, number))
}

/// 1 where a test passes.
pub(crate) fn one_if(passes: bool) -> u64
    ensures { result ≡ count_if passes }
{
    if passes { 1 } else { 0 }
}

/// Numbers of elements, from one on and up to another, which isn't one of them.
#[derive(Debug, Clone, Copy, PartialEq, Eq)]
pub(crate) struct Span {
    pub(crate) from: u32,
    pub(crate) end: u32,
}

/// A span in which all elements are that stand somewhere inside of a place. Nothing else knows where they are.
pub(crate) fn inside_of(nodes: &[Node], place: Place) -> Span
    requires { length nodes.now < 2 ^ 32 }
    ensures { IsAround nodes.now place result.from result.end }
{
    let end = nodes.len() as u32;
    match place {
        Place::Above => Span { from: 0, end },
        Place::Inside(_) => Span { from: 0, end },
        Place::At(number) => Span {
            from: number.min(end),
            end,
        },
    }
}
