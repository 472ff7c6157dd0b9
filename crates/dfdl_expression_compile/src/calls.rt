// The nodes of calls.
ghost use Rattle.std.specs.Prelude.{◌≡◌, IfOk};
ghost use Rattle.dfdl_expression_compile.specs.Calls as calls;
ghost use Rattle.dfdl_expression_compile.specs.Lists as lists;

use crate::memory::OutOfMemory;
use crate::operand::{OperandList, push, settle_all};
use dfdl_expression_types::Callee;
use dfdl_expressions::{BinaryOperator, Extent, Node, Operands, Question, UnaryOperator, Unit};
use dfdl_value::Value;
use std::alloc::Global;

/// The number at a place.
fn at(numbers: &[u32], place: usize) -> u32
    ensures { result ≡ calls.at numbers.now place }
{
    match numbers.get(place) {
        Some(number) => *number,
        None => 0,
    }
}

fn unary(operator: UnaryOperator, numbers: &[u32]) -> Node
    ensures { result ≡ calls.unary_of operator numbers.now }
{
    Node::Unary(operator, at(numbers, 0))
}

fn binary(operator: BinaryOperator, numbers: &[u32]) -> Node
    ensures { result ≡ calls.binary_of operator numbers.now }
{
    Node::Binary(operator, at(numbers, 0), at(numbers, 1))
}

fn part_of_text(numbers: &[u32]) -> Node
    ensures { result ≡ calls.part_of_text numbers.now }
{
    if numbers.len() > 2 {
        Node::Substring(at(numbers, 0), at(numbers, 1), at(numbers, 2))
    } else {
        binary(BinaryOperator::SubstringFrom, numbers)
    }
}

/// The node of a function of values, whose nodes have these numbers.
fn value_node(function: Callee, numbers: Vec<u32>) -> Node
    ensures { result ≡ calls.value_node function numbers.items }
{
    match function {
        Callee::Not => unary(UnaryOperator::Not, &numbers),
        Callee::StringLength => unary(UnaryOperator::StringLength, &numbers),
        Callee::Absolute => unary(UnaryOperator::Absolute, &numbers),
        Callee::Floor => unary(UnaryOperator::Floor, &numbers),
        Callee::Ceiling => unary(UnaryOperator::Ceiling, &numbers),
        Callee::Construct(simple) => unary(UnaryOperator::Construct(simple), &numbers),
        Callee::Contains => binary(BinaryOperator::Contains, &numbers),
        Callee::StartsWith => binary(BinaryOperator::StartsWith, &numbers),
        Callee::EndsWith => binary(BinaryOperator::EndsWith, &numbers),
        Callee::Substring => part_of_text(&numbers),
        Callee::Concat => Node::Concat(Operands::from_vec(numbers)),
        Callee::True
        | Callee::False
        | Callee::OccursIndex
        | Callee::Count
        | Callee::Exists
        | Callee::Empty
        | Callee::ValueLength
        | Callee::ContentLength => Node::PastRange,
    }
}

/// Whether a function asks something of a path.
fn asks_path(function: Callee) -> bool
    ensures { result ≡ calls.asks_path function }
{
    match function {
        Callee::Count
        | Callee::Exists
        | Callee::Empty
        | Callee::ValueLength
        | Callee::ContentLength => true,
        _ => false,
    }
}

/// What a function asks of a path, where its second argument is this unit.
fn question_of(function: Callee, unit: Unit) -> Question
    ensures { result ≡ calls.question_of function unit }
{
    match function {
        Callee::Count => Question::Count,
        Callee::Exists => Question::Exists,
        Callee::Empty => Question::Empty,
        Callee::ValueLength => Question::Length(Extent::Value, unit),
        Callee::ContentLength => Question::Length(Extent::Content, unit),
        _ => Question::Item,
    }
}

/// The node of a function without arguments.
fn plain_node(function: Callee) -> Option<Node>
    ensures { result ≡ calls.plain_node function }
{
    match function {
        Callee::True => Some(Node::Constant(Value::Truth(true))),
        Callee::False => Some(Node::Constant(Value::Truth(false))),
        Callee::OccursIndex => Some(Node::OccursIndex),
        _ => None,
    }
}

/// A call of a function that asks something of a path.
fn path_call(
    alloc: Global,
    function: Callee,
    operands: OperandList,
    nodes: &mut Vec<Node>,
) -> Result<u32, OutOfMemory>
    ensures { IfOk result (λ n. lists.numbered n nodes.new.items ≡ calls.path_call function operands nodes.old.items) }
{
    let mut left = operands;
    let route = left.pop().into_route(alloc);
    let unit = left.pop().unit();
    push(nodes, route.into_node(question_of(function, unit)))
}

/// A call of a function of values.
fn value_call(
    alloc: Global,
    function: Callee,
    operands: OperandList,
    nodes: &mut Vec<Node>,
) -> Result<u32, OutOfMemory>
    ensures { IfOk result (λ n. lists.numbered n nodes.new.items ≡ calls.value_call function operands nodes.old.items) }
{
    let numbers = settle_all(alloc, operands, nodes)?;
    push(nodes, value_node(function, numbers))
}

/// A call of a function with arguments.
fn call_with(
    alloc: Global,
    function: Callee,
    operands: OperandList,
    nodes: &mut Vec<Node>,
) -> Result<u32, OutOfMemory>
    ensures { IfOk result (λ n. lists.numbered n nodes.new.items ≡ calls.call_with function operands nodes.old.items) }
{
    if asks_path(function) {
        path_call(alloc, function, operands, nodes)
    } else {
        value_call(alloc, function, operands, nodes)
    }
}

/// A call with these arguments; a name of no function is in no sound expression.
pub(crate) fn call(
    alloc: Global,
    function: Option<Callee>,
    operands: OperandList,
    nodes: &mut Vec<Node>,
) -> Result<u32, OutOfMemory>
    ensures { IfOk result (λ n. lists.numbered n nodes.new.items ≡ calls.called function operands nodes.old.items) }
{
    match function {
        None => push(nodes, Node::PastRange),
        Some(function) => match plain_node(function) {
            Some(node) => push(nodes, node),
            None => call_with(alloc, function, operands, nodes),
        },
    }
}
