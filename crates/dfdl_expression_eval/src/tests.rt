// What expressions come to in an environment in memory, by the rules of the expression language.
use crate::{Evaluated, Listing, OutOfMemory, Scratch, eval};
use dfdl_expressions::{
    BinaryOperator, Extent, Node, Operands, Path, Question, Relation, Step, StepList, Unit, build,
};
use dfdl_value::{CellId, TextValue, Value};
use std::alloc::Global;
use std::test::Fail;

// Numbers as items, of 12 bits each.
fn listing(alloc: Global, numbers: &[i128], complete: bool) -> Result<Listing, OutOfMemory> {
    Ok(Listing {
        items: Vec::from_slice(alloc, numbers).map_err(|_| OutOfMemory)?,
        complete,
        bits: 12,
        variable: Some(3),
        was_read: false,
    })
}

// A question to the path `../item`, or `../item[..]` with the operand 0.
fn asked(alloc: Global, question: Question, indexed: bool) -> Result<Node, OutOfMemory> {
    let steps = [Step::Up, Step::Down { name: 0, indexed }];
    let steps = Vec::from_slice(alloc, &steps).map_err(|_| OutOfMemory)?;
    let indexes: &[u32] = if indexed { &[0] } else { &[] };
    let indexes = Vec::from_slice(alloc, indexes).map_err(|_| OutOfMemory)?;
    Ok(Node::Path {
        question,
        path: Path {
            absolute: false,
            steps: StepList::from_vec(steps),
        },
        indexes: Operands::from_vec(indexes),
    })
}

fn number(value: i128) -> Node {
    Node::Constant(Value::Int(value))
}

// What a node comes to, whose operands are the two before it.
fn comes(
    alloc: Global,
    first: Node,
    second: Node,
    whole: Node,
    env: &mut Listing,
) -> Result<Evaluated, OutOfMemory> {
    let mut nodes = Vec::new(alloc);
    nodes.push(first).map_err(|_| OutOfMemory)?;
    nodes.push(second).map_err(|_| OutOfMemory)?;
    nodes.push(whole).map_err(|_| OutOfMemory)?;
    let mut scratch = Scratch::open(alloc, nodes.len())?;
    match build(nodes) {
        Some(expression) => eval(alloc, &expression, &mut scratch, env),
        None => Ok(Evaluated::Fault(0)),
    }
}

fn on_numbers(
    alloc: Global,
    operator: BinaryOperator,
    left: i128,
    right: i128,
) -> Result<Evaluated, OutOfMemory> {
    let mut env = listing(alloc, &[], true)?;
    let whole = Node::Binary(operator, 0, 1);
    comes(alloc, number(left), number(right), whole, &mut env)
}

// A question to `../item[2]`, or to `../item`, over these items.
fn on_items(
    alloc: Global,
    numbers: &[i128],
    question: Question,
    indexed: bool,
) -> Result<Evaluated, OutOfMemory> {
    let mut env = listing(alloc, numbers, true)?;
    let whole = asked(alloc, question, indexed)?;
    comes(alloc, number(2), number(0), whole, &mut env)
}

// An operand, and then an item that isn't there yet.
fn before_a_wait(alloc: Global, first: Node, whole: Node) -> Result<Evaluated, OutOfMemory> {
    let mut env = listing(alloc, &[], false)?;
    let item = asked(alloc, Question::Item, false)?;
    comes(alloc, first, item, whole, &mut env)
}

fn is_known(found: Result<Evaluated, OutOfMemory>, value: Value) -> bool {
    match found {
        Ok(evaluated) => evaluated == Evaluated::Known(value),
        Err(_) => false,
    }
}

fn is(found: Result<Evaluated, OutOfMemory>, expected: Evaluated) -> bool {
    match found {
        Ok(evaluated) => evaluated == expected,
        Err(_) => false,
    }
}

// `-7 mod 2`, `1 div 3`, `7 > 2`.
#[test]
fn operators_on_numbers(rt: HostRuntime) {
    let alloc = rt.alloc();
    let rest = on_numbers(alloc, BinaryOperator::Modulo, -7, 2);
    assert!(rt; is_known(rest, Value::Int(-1)));
    let third = on_numbers(alloc, BinaryOperator::Divide, 1, 3);
    assert!(rt; is(third, Evaluated::Fault(5)));
    let above = on_numbers(alloc, BinaryOperator::Compare(Relation::Above), 7, 2);
    assert!(rt; is_known(above, Value::Truth(true)));
}

// `../item[2]` of two items and of one, `../item` of two, `fn:count(../item)`, and 12 bits in bytes.
#[test]
fn questions_of_paths(rt: HostRuntime) {
    let alloc = rt.alloc();
    let second = on_items(alloc, &[5, 8], Question::Item, true);
    assert!(rt; is_known(second, Value::Int(8)));
    let none = on_items(alloc, &[5], Question::Item, true);
    assert!(rt; is(none, Evaluated::Fault(1)));
    let several = on_items(alloc, &[5, 8], Question::Item, false);
    assert!(rt; is(several, Evaluated::Fault(2)));
    let count = on_items(alloc, &[5, 8], Question::Count, false);
    assert!(rt; is_known(count, Value::Int(2)));
    let bytes = Question::Length(Extent::Value, Unit::Bytes);
    assert!(rt; is(on_items(alloc, &[5], bytes, false), Evaluated::Fault(5)));
}

// `false and ../item`, `true and ../item`, and a number past the range before `../item`, which waits.
#[test]
fn operands_come_from_left_to_right(rt: HostRuntime) {
    let alloc = rt.alloc();
    let settled = before_a_wait(alloc, Node::Constant(Value::Truth(false)), Node::And(0, 1));
    assert!(rt; is_known(settled, Value::Truth(false)));
    let waits = before_a_wait(alloc, Node::Constant(Value::Truth(true)), Node::And(0, 1));
    assert!(rt; is(waits, Evaluated::Wait(CellId::new(0))));
    let sum = Node::Binary(BinaryOperator::Add, 0, 1);
    let first = before_a_wait(alloc, Node::PastRange, sum);
    assert!(rt; is(first, Evaluated::Fault(4)));
}

// The value of a variable, which is then read, and `'a'` behind it as a text in a sum.
#[test]
fn a_variable_is_read(rt: HostRuntime) -> Result<(), Fail> {
    let alloc = rt.alloc();
    let mut env = listing(alloc, &[], true)?;
    let text = Value::Text(TextValue::from_str(alloc, "a")?);
    let sum = Node::Binary(BinaryOperator::Add, 0, 1);
    let found = comes(
        alloc,
        Node::Variable(0),
        Node::Constant(text),
        sum,
        &mut env,
    );
    assert!(rt; is(found, Evaluated::Fault(6)));
    assert!(rt; env.was_read);
    Ok(())
}
