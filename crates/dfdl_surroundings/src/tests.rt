// An expression over a document without elements: the sum of a variable and a number.
use crate::*;
use dfdl_expression_eval::{Evaluated, Scratch};
use dfdl_expressions::{BinaryOperator, Expression, Node, build};
use dfdl_forms::Simple;
use dfdl_paths::{Items, NameNumbers, Start};
use dfdl_terms::{Row, RowList, Tables, Terms};
use dfdl_value::{TextValue, Value};
use dfdl_vars::{VarDef, VarValues, Vars};
use std::alloc::{AllocError, Global};
use std::test::Fail;

// No rows of items.
fn no_items(alloc: Global) -> Result<Items, AllocError> {
    let children = RowList::new(Vec::new(alloc));
    let mut rows = Vec::new(alloc);
    rows.push(Row::Group { children })?;
    let names = NameNumbers::from_vec(Vec::new(alloc));
    let tables = Tables::new(
        Vec::new(alloc),
        Vec::new(alloc),
        Vec::new(alloc),
        names,
        Vec::new(alloc),
    );
    match Terms::build(alloc, rows, tables) {
        Ok(terms) => Items::of(alloc, &terms),
        Err(_) => Err(AllocError),
    }
}

// One variable, which begins with 5.
fn variables(alloc: Global) -> Result<Vars, AllocError> {
    let mut definitions = Vec::new(alloc);
    definitions.push(VarDef {
        name: TextValue::from_str(alloc, "size")?,
        kind: Simple::Int,
        start: Some(Value::Int(5)),
        external: false,
    })?;
    Vars::open(alloc, definitions.as_slice(), &VarValues::new(alloc), 0)
}

// `$size + 250`
fn sum(alloc: Global) -> Result<Option<Expression>, AllocError> {
    let mut nodes = Vec::new(alloc);
    nodes.push(Node::Variable(0))?;
    nodes.push(Node::Constant(Value::Int(250)))?;
    nodes.push(Node::Binary(BinaryOperator::Add, 0, 1))?;
    Ok(build(nodes))
}

#[test]
fn a_variable_is_asked_for(rt: HostRuntime) -> Result<(), Fail> {
    let alloc = rt.alloc();
    let items = no_items(alloc)?;
    let names = NameNumbers::from_vec(Vec::new(alloc));
    let mut variables = variables(alloc)?;
    let expression = sum(alloc)?;
    assert!(rt; expression.is_some());
    if let Some(expression) = expression {
        let mut scratch = Scratch::open(alloc, 3)?;
        let document = Document::new(&names, &[], &[], &items, Start::Inside(0));
        let given = evaluate(alloc, &expression, &mut scratch, document, &mut variables)?;
        assert!(rt; given == Evaluated::Known(Value::Int(255)));
        // A byte ends at 127.
        assert!(rt; take(alloc, Simple::Byte, given) == Err(4));
        assert_eq!(rt; variables.count(), 1);
    }
    Ok(())
}

#[test]
fn counts_and_keys_are_taken(rt: HostRuntime) -> Result<(), Fail> {
    let alloc = rt.alloc();
    assert!(rt; take_count(alloc, Evaluated::Known(Value::Int(7))) == Ok(Some(7)));
    assert!(rt; take_count(alloc, Evaluated::Known(Value::Int(-7))) == Ok(None));
    assert!(rt; take_count(alloc, Evaluated::Known(Value::Truth(true))) == Err(6));
    let key = take_text(alloc, Evaluated::Known(Value::Int(-7)))?;
    assert!(rt; matches!(&key, Ok(text) if text.as_str() == "-7"));
    Ok(())
}
