// Which way `and`, `or` and `if` go.
ghost use Rattle.std.specs.Prelude.{◌≡◌};
ghost use Rattle.dfdl_expression_eval.specs.Machine.{and_turn, if_turn, or_turn, truth_of, turn_of};

use dfdl_expressions::Node;
use dfdl_value::Value;

/// Which way a node goes behind the value of an operand.
#[derive(Clone, Copy, Debug, PartialEq, Eq)]
pub(crate) enum Turn {
    /// on to the next operand
    On,
    /// it has this truth
    Settled(bool),
    /// it is what this operand is
    To(u32),
    /// the value is no truth
    Wrong,
}

/// The truth that a value is.
pub(crate) fn truth_in(value: &Value) -> Option<bool>
    ensures { result ≡ truth_of value.now }
{
    match value {
        Value::Truth(truth) => Some(*truth),
        Value::Int(_) | Value::Uns(_) | Value::Dec(_) | Value::Text(_) | Value::Bytes(_) => None,
    }
}

fn and_turn(truth: Option<bool>) -> Turn
    ensures { result ≡ and_turn truth }
{
    match truth {
        Some(true) => Turn::On,
        Some(false) => Turn::Settled(false),
        None => Turn::Wrong,
    }
}

fn or_turn(truth: Option<bool>) -> Turn
    ensures { result ≡ or_turn truth }
{
    match truth {
        Some(true) => Turn::Settled(true),
        Some(false) => Turn::On,
        None => Turn::Wrong,
    }
}

fn if_turn(holds: u32, fails: u32, truth: Option<bool>) -> Turn
    ensures { result ≡ if_turn holds fails truth }
{
    match truth {
        Some(true) => Turn::To(holds),
        Some(false) => Turn::To(fails),
        None => Turn::Wrong,
    }
}

/// Which way a node goes behind the value of its first operand.
fn first_turn(node: &Node, value: &Value) -> Turn
    ensures { result ≡ turn_of node.now 0 value.now }
{
    match node {
        Node::And(_, _) => and_turn(truth_in(value)),
        Node::Or(_, _) => or_turn(truth_in(value)),
        Node::If { holds, fails, .. } => if_turn(*holds, *fails, truth_in(value)),
        Node::Constant(_)
        | Node::PastRange
        | Node::Variable(_)
        | Node::OccursIndex
        | Node::Path { .. }
        | Node::Unary(_, _)
        | Node::Binary(_, _, _)
        | Node::Substring(_, _, _)
        | Node::Concat(_) => Turn::On,
    }
}

/// Which way a node goes behind the value of an operand, where so many values came before.
pub(crate) fn turn_behind(node: &Node, known: usize, value: &Value) -> Turn
    ensures { result ≡ turn_of node.now known value.now }
{
    if known == 0 {
        first_turn(node, value)
    } else {
        Turn::On
    }
}
