// Compiles a tree, by one pass over its nodes.
ghost use Rattle.std.specs.Prelude.{◌≡◌, ◌∷◌, [], IfOk};
ghost use Rattle.std.specs.VecDeque.{deque_items};
ghost use Rattle.dfdl_expression_compile.specs.Compiling as compiling;
ghost use Rattle.dfdl_expression_compile.specs.Running as running;

use crate::calls::call;
use crate::literals::{number_node, text_node, unit_named};
use crate::memory::OutOfMemory;
use crate::operand::{Item, Operand, OperandList, push};
use crate::operators::operator_node;
use crate::route::Route;
use dfdl_expression_tree::{Binary, Leaf, Node as TreeNode, Operator, Unary};
use dfdl_expression_types::{
    Statics, Variable, callee_of, local_of, name_number, variable_named, word,
};
use dfdl_expressions::{Node, Step, UnaryOperator};
use std::alloc::Global;
use std::collections::VecDeque;

fn number_or_zero(number: Option<u32>) -> u32
    ensures { result ≡ compiling.number_or_zero number }
{
    match number {
        Some(number) => number,
        None => 0,
    }
}

fn variable_number(variable: Option<Variable>) -> u32
    ensures { result ≡ compiling.variable_number variable }
{
    match variable {
        Some(variable) => variable.number,
        None => 0,
    }
}

/// The node of the variable of a name.
fn variable_node(statics: &Statics<'_>, name: &[u8]) -> Node
    ensures { result ≡ compiling.variable_node statics.now name.now }
{
    Node::Variable(variable_number(variable_named(statics, local_of(name))))
}

/// A step by this name.
fn down(statics: &Statics<'_>, name: &[u8]) -> Step
    ensures { result ≡ compiling.down statics.now name.now }
{
    Step::Down {
        name: number_or_zero(name_number(statics, local_of(name))),
        indexed: false,
    }
}

/// A value of this node.
fn value(nodes: &mut Vec<Node>, node: Node) -> Result<Item, OutOfMemory>
    ensures { IfOk result (λ i. compiling.built i nodes.new.items ≡ compiling.value_built node nodes.old.items) }
{
    let number = push(nodes, node)?;
    Ok(Item::One(Operand::Value(number)))
}

/// A text in quotes.
fn text_item(alloc: Global, text: &[u8], nodes: &mut Vec<Node>) -> Result<Item, OutOfMemory>
    ensures { IfOk result (λ i. compiling.built i nodes.new.items ≡ compiling.quoted_built text.now nodes.old.items) }
{
    match unit_named(text) {
        Some(unit) => Ok(Item::One(Operand::Unit(unit))),
        None => {
            let node = text_node(alloc, text)?;
            value(nodes, node)
        }
    }
}

fn number_item(alloc: Global, text: &[u8], nodes: &mut Vec<Node>) -> Result<Item, OutOfMemory>
    ensures { IfOk result (λ i. compiling.built i nodes.new.items ≡ compiling.number_built text.now nodes.old.items) }
{
    let node = number_node(alloc, text)?;
    value(nodes, node)
}

/// What is made of a part without operands.
fn leaf_item(
    alloc: Global,
    statics: &Statics<'_>,
    text: &[u8],
    leaf: Leaf,
    nodes: &mut Vec<Node>,
) -> Result<Item, OutOfMemory>
    ensures { IfOk result (λ i. compiling.built i nodes.new.items ≡ compiling.leaf_built statics.now text.now leaf nodes.old.items) }
{
    match leaf {
        Leaf::Number(span) => number_item(alloc, word(text, span), nodes),
        Leaf::Text(span) => text_item(alloc, word(text, span), nodes),
        Leaf::Variable(span) => value(nodes, variable_node(statics, word(text, span))),
        Leaf::Context => Ok(Item::One(Operand::Route(Route::begin(alloc, false)))),
        Leaf::Root => Ok(Item::One(Operand::Route(Route::begin(alloc, true)))),
        Leaf::NoArguments => Ok(Item::Many(OperandList::new(alloc))),
    }
}

/// A path with one step more.
fn step_item(alloc: Global, step: Step, operand: Operand) -> Result<Item, OutOfMemory>
    ensures { IfOk result (λ i. i ≡ compiling.step_item step operand) }
{
    let route = operand.into_route(alloc).with_step(step)?;
    Ok(Item::One(Operand::Route(route)))
}

/// A value with its sign changed.
fn negative_item(
    alloc: Global,
    operand: Operand,
    nodes: &mut Vec<Node>,
) -> Result<Item, OutOfMemory>
    ensures { IfOk result (λ i. compiling.built i nodes.new.items ≡ compiling.negative_built operand nodes.old.items) }
{
    let number = operand.settle(alloc, nodes)?;
    value(nodes, Node::Unary(UnaryOperator::Negative, number))
}

/// A call of the function of a name.
fn call_item(
    alloc: Global,
    statics: &Statics<'_>,
    name: &[u8],
    operands: OperandList,
    nodes: &mut Vec<Node>,
) -> Result<Item, OutOfMemory>
    ensures { IfOk result (λ i. compiling.built i nodes.new.items ≡ compiling.call_built statics.now name.now operands nodes.old.items) }
{
    let number = call(alloc, callee_of(statics, name), operands, nodes)?;
    Ok(Item::One(Operand::Value(number)))
}

/// What is made of a part with one operand.
fn unary_item(
    alloc: Global,
    statics: &Statics<'_>,
    text: &[u8],
    unary: Unary,
    operand: Item,
    nodes: &mut Vec<Node>,
) -> Result<Item, OutOfMemory>
    ensures { IfOk result (λ i. compiling.built i nodes.new.items
        ≡ compiling.unary_built statics.now text.now unary (compiling.built operand nodes.old.items)) }
{
    match unary {
        Unary::Here => step_item(alloc, Step::Here, operand.into_operand()),
        Unary::Parent => step_item(alloc, Step::Up, operand.into_operand()),
        Unary::Child(span) => {
            let step = down(statics, word(text, span));
            step_item(alloc, step, operand.into_operand())
        }
        Unary::Call(span) => {
            let operands = operand.into_operands(alloc);
            call_item(alloc, statics, word(text, span), operands, nodes)
        }
        Unary::Negative => negative_item(alloc, operand.into_operand(), nodes),
    }
}

/// An operation.
fn operation_item(
    alloc: Global,
    operator: Operator,
    left: Operand,
    right: Operand,
    nodes: &mut Vec<Node>,
) -> Result<Item, OutOfMemory>
    ensures { IfOk result (λ i. compiling.built i nodes.new.items ≡ compiling.operation_built operator left right nodes.old.items) }
{
    let first = left.settle(alloc, nodes)?;
    let second = right.settle(alloc, nodes)?;
    value(nodes, operator_node(operator, first, second))
}

/// A path with an index behind its last step.
fn index_item(
    alloc: Global,
    path: Operand,
    index: Operand,
    nodes: &mut Vec<Node>,
) -> Result<Item, OutOfMemory>
    ensures { IfOk result (λ i. compiling.built i nodes.new.items ≡ compiling.index_built path index nodes.old.items) }
{
    let number = index.settle(alloc, nodes)?;
    let route = path.into_route(alloc).with_index(number)?;
    Ok(Item::One(Operand::Route(route)))
}

/// What is made of a part with two operands.
fn binary_item(
    alloc: Global,
    binary: Binary,
    left: Item,
    right: Item,
    nodes: &mut Vec<Node>,
) -> Result<Item, OutOfMemory>
    ensures { IfOk result (λ i. compiling.built i nodes.new.items
        ≡ compiling.binary_built binary left (compiling.built right nodes.old.items)) }
{
    match binary {
        Binary::Operation(operator) => {
            operation_item(
                alloc,
                operator,
                left.into_operand(),
                right.into_operand(),
                nodes,
            )
        }
        Binary::Argument => {
            let operands = left.into_operands(alloc).with(right.into_operand())?;
            Ok(Item::Many(operands))
        }
        Binary::Item => index_item(alloc, left.into_operand(), right.into_operand(), nodes),
    }
}

/// What is made of a conditional.
fn choice_item(
    alloc: Global,
    test: Operand,
    first: Operand,
    second: Operand,
    nodes: &mut Vec<Node>,
) -> Result<Item, OutOfMemory>
    ensures { IfOk result (λ i. compiling.built i nodes.new.items ≡ compiling.choice_of test first second nodes.old.items) }
{
    let condition = test.settle(alloc, nodes)?;
    let holds = first.settle(alloc, nodes)?;
    let fails = second.settle(alloc, nodes)?;
    value(
        nodes,
        Node::If {
            condition,
            holds,
            fails,
        },
    )
}

/// Takes off what was made last.
fn pop(items: &mut VecDeque<Item>) -> Item
    ensures first { result ≡ running.first_item (deque_items items.old) }
    ensures rest { deque_items items.new ≡ running.rest_items (deque_items items.old) }
{
    match items.pop_front() {
        Some(item) => item,
        None => Item::One(Operand::Value(0)),
    }
}

/// What is made of a node, whose operands are taken off.
fn item_of(
    alloc: Global,
    statics: &Statics<'_>,
    text: &[u8],
    node: TreeNode,
    items: &mut VecDeque<Item>,
    nodes: &mut Vec<Node>,
) -> Result<Item, OutOfMemory>
    ensures { IfOk result (λ i. running.pass (i ∷ deque_items items.new) nodes.new.items
        ≡ running.step statics.now text.now node (running.pass (deque_items items.old) nodes.old.items)) }
{
    match node {
        TreeNode::Leaf(leaf) => leaf_item(alloc, statics, text, leaf, nodes),
        TreeNode::Unary(unary, _) => {
            let operand = pop(items);
            unary_item(alloc, statics, text, unary, operand, nodes)
        }
        TreeNode::Binary(binary, _, _) => {
            let right = pop(items);
            let left = pop(items);
            binary_item(alloc, binary, left, right, nodes)
        }
        TreeNode::Choice(_, _, _) => {
            let second = pop(items).into_operand();
            let first = pop(items).into_operand();
            let test = pop(items).into_operand();
            choice_item(alloc, test, first, second, nodes)
        }
    }
}

/// What is made of a tree's nodes.
fn last_item(
    alloc: Global,
    statics: &Statics<'_>,
    text: &[u8],
    tree: &[TreeNode],
    nodes: &mut Vec<Node>,
) -> Result<Item, OutOfMemory>
    ensures { IfOk result (λ i. compiling.built i nodes.new.items
        ≡ running.last (running.run statics.now text.now tree.now (running.pass [] nodes.old.items))) }
{
    let mut items = VecDeque::new(alloc);
    for node in tree {
        let item = item_of(alloc, statics, text, *node, &mut items, nodes)?;
        items.push_front(item)?;
    }
    Ok(pop(&mut items))
}

/// The nodes of a tree.
pub(crate) fn nodes_of(
    alloc: Global,
    statics: &Statics<'_>,
    text: &[u8],
    tree: &[TreeNode],
) -> Result<Vec<Node>, OutOfMemory>
    ensures { IfOk result (λ nodes. nodes.items ≡ running.all_nodes statics.now text.now tree.now) }
{
    let mut nodes = Vec::new(alloc);
    let item = last_item(alloc, statics, text, tree, &mut nodes)?;
    item.into_operand().settle(alloc, &mut nodes)?;
    Ok(nodes)
}
