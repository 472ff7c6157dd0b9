// The path of an element, from the innermost name outwards.
ghost use Rattle.std.specs.Prelude.{◌≡◌, ◌<◌, ◌≤◌, ◌++◌, ℕ, List, length, IfOk, IfSome, OnOk, Some, codes, slice_get, string_bytes};
ghost use Rattle.dfdl_terms.specs.Rows.{Table};
ghost use Rattle.dfdl_terms.specs.Arrays.{MarksItems};
ghost use Rattle.dfdl_grammar.specs.Paths.{node_name, outer_of, path_of, path_within, place_of, place_text, stand_together, step_to};
ghost use Rattle.dfdl_parse.specs.Named.{named};

use dfdl_region::Node;
use dfdl_terms::{Items, Row, Terms};
use std::alloc::{AllocError, Global};

/// The path of the element of this number: the names from the root element down to it, each behind a `/`, and behind the name
/// of an item its place in its array, counted from 1, in brackets.
pub(crate) fn path_of(
    alloc: Global,
    terms: &Terms,
    nodes: &[Node],
    number: u32,
) -> Result<String, AllocError>
    ensures { IfOk result (λ text. string_bytes text ≡ path_of terms.now nodes.now number) }
{
    let mut numbers = Vec::new(alloc);
    let mut inner = number;
    let mut left = number;
    while inner > 0 && left > 0 {
        numbers.push(inner)?;
        inner = outer_of(nodes, inner);
        left -= 1;
    }
    numbers.push(inner)?;
    let items = Items::of(alloc, terms)?;
    written(alloc, terms, &items, nodes, numbers)
}

// The steps of a path to the elements of these numbers, from the last one on.
fn written(
    alloc: Global,
    terms: &Terms,
    items: &Items,
    nodes: &[Node],
    numbers: Vec<u32>,
) -> Result<String, AllocError>
    requires { MarksItems terms.now.rows items.now }
    ensures { IfOk result (λ text. string_bytes text ≡ named terms.now nodes.now numbers.items) }
{
    let mut numbers = numbers;
    let mut text = String::new(alloc);
    'names: loop {
        match numbers.pop() {
            None => return Ok(text),
            Some(number) => {
                text.push_str("/")?;
                push_name(&mut text, terms, nodes, number)?;
                push_place(alloc, &mut text, items, nodes, number)?;
            }
        }
    }
}

// Puts the name of an element behind a text.
fn push_name(
    text: &mut String,
    terms: &Terms,
    nodes: &[Node],
    number: u32,
) -> Result<(), AllocError>
    ensures { OnOk result (string_bytes text.new ≡ string_bytes text.old ++ node_name terms.now (slice_get nodes.now number)) }
{
    let Some(node) = nodes.get(number as usize) else {
        return Ok(());
    };
    if node.element.number() >= terms.rows() {
        return Ok(());
    }
    match terms.row(node.element) {
        Row::Elem { name, .. } => {
            text.push_str(name.as_str())?;
            Ok(())
        }
        Row::Leaf { .. } => Ok(()),
        Row::Group { .. } => Ok(()),
        Row::Skip { .. } => Ok(()),
        Row::Align { .. } => Ok(()),
        Row::Initiator { .. } => Ok(()),
        Row::Terminator { .. } => Ok(()),
        Row::Separator => Ok(()),
        Row::Scope { .. } => Ok(()),
        Row::Boxed { .. } => Ok(()),
        Row::PrefixedLeaf { .. } => Ok(()),
        Row::PrefixedBox { .. } => Ok(()),
        Row::MeasuredLeaf { .. } => Ok(()),
        Row::MeasuredBox { .. } => Ok(()),
        Row::Repeat { .. } => Ok(()),
        Row::Counted { .. } => Ok(()),
        Row::Optional { .. } => Ok(()),
        Row::Choice { .. } => Ok(()),
        Row::Dispatch { .. } => Ok(()),
        Row::Statement { .. } => Ok(()),
        Row::Concluded { .. } => Ok(()),
        Row::Hidden { .. } => Ok(()),
        Row::Spanned { .. } => Ok(()),
        Row::Instance { .. } => Ok(()),
        Row::Separated { .. } => Ok(()),
    }
}

// Puts the place of an item in its array behind a text, in brackets; of no other element.
fn push_place(
    alloc: Global,
    text: &mut String,
    items: &Items,
    nodes: &[Node],
    number: u32,
) -> Result<(), AllocError>
    ensures { OnOk result ((t : Table) → MarksItems t.rows items.now
        → string_bytes text.new ≡ string_bytes text.old ++ place_text t nodes.now number (slice_get nodes.now number)) }
{
    let Some(node) = nodes.get(number as usize) else {
        return Ok(());
    };
    if items.has(node.element) {
        text.push_str("[")?;
        text.push_str(place_of(nodes, number, node).to_string(alloc)?.as_str())?;
        text.push_str("]")?;
    }
    Ok(())
}

// How many elements of an element's row there are in the element that it stands in, up to and with it.
fn place_of(nodes: &[Node], number: u32, node: &Node) -> u64
    requires { number < length nodes.now }
    ensures { result ≡ place_of nodes.now number node.now }
{
    let mut place = 0;
    for at in 0..number as usize + 1 {
        if stand_together(node, &nodes[at]) {
            place += 1;
        }
    }
    place
}

// Whether two elements are of the same row, in the same element.
fn stand_together(one: &Node, other: &Node) -> bool
    ensures { result ≡ stand_together one.now other.now }
{
    one.element.number() == other.element.number() && one.parent == other.parent
}

// The number of the element that an element stands in.
fn outer_of(nodes: &[Node], number: u32) -> u32
    ensures { result ≡ outer_of (slice_get nodes.now number) }
{
    match nodes.get(number as usize) {
        Some(node) => node.parent,
        None => 0,
    }
}
