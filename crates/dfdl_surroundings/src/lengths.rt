// How long elements are.
ghost use Rattle.std.specs.Prelude.{◌≡◌, slice_get};
ghost use Rattle.dfdl_surroundings.specs.Answers.{found_length, length_in, length_told, lengths_of, whole};

use dfdl_expression_eval::Evaluated;
use dfdl_expressions::Extent;
use dfdl_paths::{Found, Node};
use dfdl_region::Lengths;
use dfdl_value::Value;

/// A whole number, as the value that carries it.
pub(crate) fn whole(number: u64) -> Evaluated
    ensures { result ≡ whole number }
{
    Evaluated::Known(Value::Int(number as i128))
}

fn length_in(extent: Extent, lengths: Lengths) -> u64
    ensures { result ≡ length_in extent lengths }
{
    match extent {
        Extent::Value => lengths.value,
        Extent::Content => lengths.content,
    }
}

// The lengths of the element of a number, if they are known yet.
fn lengths_at(nodes: &[Node], number: u32) -> Option<Lengths>
    ensures { result ≡ lengths_of (slice_get nodes.now number) }
{
    match nodes.get(number as usize) {
        Some(node) => node.lengths,
        None => None,
    }
}

fn length_told(extent: Extent, lengths: Option<Lengths>) -> Evaluated
    ensures { result ≡ length_told extent lengths }
{
    match lengths {
        None => Evaluated::Fault(1),
        Some(lengths) => whole(length_in(extent, lengths)),
    }
}

/// The length of what is found.
pub(crate) fn found_length(nodes: &[Node], extent: Extent, found: Found) -> Evaluated
    ensures { result ≡ found_length nodes.now extent found }
{
    match found {
        Found::None => Evaluated::Fault(1),
        Found::One(number) => length_told(extent, lengths_at(nodes, number)),
        Found::Several => Evaluated::Fault(2),
    }
}
