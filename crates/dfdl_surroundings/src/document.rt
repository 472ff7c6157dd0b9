// What is seen of a document from where an expression stands.
ghost use Rattle.std.specs.Prelude.{◌≡◌, ◌<◌, ◌^◌, IfOk, length};
ghost use Rattle.dfdl_paths.specs.Values.{found_of, found_value, index_of};
ghost use Rattle.dfdl_surroundings.specs.Answers.{element_of, found_length, items_of, told, whole};

use super::lengths::{found_length, whole};
use dfdl_expression_eval::{Evaluated, OutOfMemory};
use dfdl_expressions::{Extent, Path};
use dfdl_paths::{
    Items, NameNumbers, Node, Start, count_items, occurs_index, only_item, value_of_item,
};
use dfdl_value::Value;
use std::alloc::Global;
use std::marker::Model;

/// The elements of a document that have begun, with what is known of them, and what has the expression.
#[derive(Drop)]
pub struct Document<'a> {
    names: &'a NameNumbers,
    nodes: &'a [Node],
    text: &'a [u8],
    items: &'a Items,
    start: Start,
}

impl<'a> Model for Document<'a> {
    ghost use Rattle.std.specs.Prelude.{◌<◌, ◌^◌, length};
    ghost use Rattle.dfdl_surroundings.specs.Around.{Seen};

    ghost Value = { Seen };

    ghost view = { λ d. record {
      names = d.names.now;
      nodes = d.nodes.now;
      text = d.text.now;
      marks = d.items.now;
      start = d.start;
    } };

    ghost invariant = { λ d. length d.nodes.now < 2 ^ 32 };
}

impl<'a> Document<'a> {
    /// `text` has the bytes of the elements' texts.
    pub fn new(
        names: &'a NameNumbers,
        nodes: &'a [Node],
        text: &'a [u8],
        items: &'a Items,
        start: Start,
    ) -> Document<'a>
        requires { length nodes.now < 2 ^ 32 }
        ensures { result ≡ record {
          names = names.now;
          nodes = nodes.now;
          text = text.now;
          marks = items.now;
          start = start;
        } }
    {
        Document {
            names,
            nodes,
            text,
            items,
            start,
        }
    }

    /// The value of the only item of a path.
    pub(crate) fn item(
        &self,
        alloc: Global,
        path: &Path,
        places: &[u64],
    ) -> Result<Evaluated, OutOfMemory>
        ensures { IfOk result (λ e. e
            ≡ told (found_value self.now.nodes self.now.text (found_of (items_of self.now path.now places.now)))) }
    {
        let value = value_of_item(
            alloc, self.names, self.nodes, self.text, self.start, path, places,
        );
        match value {
            Ok(found) => Ok(told(found)),
            Err(_) => Err(OutOfMemory),
        }
    }

    /// How many items a path leads to.
    pub(crate) fn count(&self, path: &Path, places: &[u64]) -> Evaluated
        ensures { result ≡ whole (length (items_of self.now path.now places.now)) }
    {
        whole(count_items(self.names, self.nodes, self.start, path, places))
    }

    /// The length of the only item of a path.
    pub(crate) fn length(&self, path: &Path, places: &[u64], extent: Extent) -> Evaluated
        ensures { result ≡ found_length self.now.nodes extent (found_of (items_of self.now path.now places.now)) }
    {
        let found = only_item(self.names, self.nodes, self.start, path, places);
        found_length(self.nodes, extent, found)
    }

    /// The number of the innermost occurrence.
    pub(crate) fn occurs_index(&self) -> Evaluated
        ensures { result ≡ whole (index_of self.now.marks self.now.nodes (element_of self.now.start)) }
    {
        whole(occurs_index(self.items, self.nodes, element_of(self.start)))
    }
}

// The element that has the expression, or in which the group stands that has it.
fn element_of(start: Start) -> u32
    ensures { result ≡ element_of start }
{
    match start {
        Start::At(number) => number,
        Start::Inside(number) => number,
    }
}

// A value, or the fault in its place.
fn told(found: Result<Value, u8>) -> Evaluated
    ensures { result ≡ told found }
{
    match found {
        Ok(value) => Evaluated::Known(value),
        Err(cause) => Evaluated::Fault(cause),
    }
}
