// Trees of expressions. A tree is told by its nodes, where a node names its operands by their numbers.
#![tactic(auto)]

use crate::{
    Binary, Form, Kind, Leaf, Node, Operator, Span, Token, Unary, parse, tokens, unquoted,
};
use std::alloc::Global;
use std::test::Fail;

fn span(from: usize, to: usize) -> Span {
    Span { from, to }
}

fn number(from: usize, to: usize) -> Node {
    Node::Leaf(Leaf::Number(span(from, to)))
}

fn context() -> Node {
    Node::Leaf(Leaf::Context)
}

fn child(from: usize, to: usize, path: usize) -> Node {
    Node::Unary(Unary::Child(span(from, to)), path)
}

fn operation(operator: Operator, left: usize, right: usize) -> Node {
    Node::Binary(Binary::Operation(operator), left, right)
}

fn argument(before: usize, value: usize) -> Node {
    Node::Binary(Binary::Argument, before, value)
}

/// Whether the text has these nodes.
fn has_nodes(alloc: Global, text: &str, nodes: &[Node]) -> bool {
    match parse(alloc, text) {
        Ok(tree) => tree.nodes.as_slice() == nodes,
        Err(_) => false,
    }
}

#[test]
fn strengths_and_sides(rt: HostRuntime) -> Result<(), Fail> {
    // 1 - 2 - 3 is (1 - 2) - 3
    let left = [
        number(0, 1),
        number(4, 5),
        operation(Operator::Minus, 0, 1),
        number(8, 9),
        operation(Operator::Minus, 2, 3),
    ];
    assert!(&rt; has_nodes(rt.alloc(), "1 - 2 - 3", &left));
    // 1 or 2 and 3 = 4 + 5 div 6 is 1 or (2 and (3 = (4 + (5 div 6))))
    let strong = [
        number(0, 1),
        number(5, 6),
        number(11, 12),
        number(15, 16),
        number(19, 20),
        number(25, 26),
        operation(Operator::Divide, 4, 5),
        operation(Operator::Plus, 3, 6),
        operation(Operator::Equal, 2, 7),
        operation(Operator::And, 1, 8),
        operation(Operator::Or, 0, 9),
    ];
    assert!(&rt; has_nodes(rt.alloc(), "1 or 2 and 3 = 4 + 5 div 6", &strong));
    // 1 * (2 + 3) idiv 4
    let grouped = [
        number(0, 1),
        number(5, 6),
        number(9, 10),
        operation(Operator::Plus, 1, 2),
        operation(Operator::Times, 0, 3),
        number(17, 18),
        operation(Operator::WholeDivide, 4, 5),
    ];
    assert!(&rt; has_nodes(rt.alloc(), "1 * (2 + 3) idiv 4", &grouped));
    Ok(())
}

#[test]
fn signs_and_conditionals(rt: HostRuntime) -> Result<(), Fail> {
    // -1 * -2 is (-1) * (-2)
    let signs = [
        number(1, 2),
        Node::Unary(Unary::Negative, 0),
        number(6, 7),
        Node::Unary(Unary::Negative, 2),
        operation(Operator::Times, 1, 3),
    ];
    assert!(&rt; has_nodes(rt.alloc(), "-1 * -2", &signs));
    // the last branch goes as far as it can
    let choice = [
        number(4, 5),
        number(12, 13),
        number(19, 20),
        number(23, 24),
        operation(Operator::Plus, 2, 3),
        Node::Choice(0, 1, 4),
    ];
    assert!(&rt; has_nodes(rt.alloc(), "if (1) then 2 else 3 + 4", &choice));
    Ok(())
}

#[test]
fn paths_and_calls(rt: HostRuntime) -> Result<(), Fail> {
    // an index is behind its step; `div` is a name where an operand begins
    let path = [
        Node::Leaf(Leaf::Root),
        child(1, 2, 0),
        context(),
        child(3, 6, 2),
        number(9, 10),
        operation(Operator::Plus, 3, 4),
        Node::Binary(Binary::Item, 1, 5),
        Node::Unary(Unary::Parent, 6),
    ];
    assert!(&rt; has_nodes(rt.alloc(), "/a[div + 1]/..", &path));
    let call = [
        Node::Leaf(Leaf::NoArguments),
        Node::Leaf(Leaf::NoArguments),
        Node::Leaf(Leaf::Variable(span(8, 11))),
        argument(1, 2),
        Node::Unary(Unary::Call(span(5, 6)), 3),
        argument(0, 4),
        Node::Leaf(Leaf::Text(span(14, 21))),
        argument(5, 6),
        Node::Unary(Unary::Call(span(0, 4)), 7),
    ];
    assert!(&rt; has_nodes(rt.alloc(), "fn:f(g($p:v), 'it''s')", &call));
    let empty = [
        Node::Leaf(Leaf::NoArguments),
        Node::Unary(Unary::Call(span(0, 4)), 0),
    ];
    assert!(&rt; has_nodes(rt.alloc(), "true()", &empty));
    let named_if = [context(), child(0, 2, 0), Node::Unary(Unary::Here, 1)];
    assert!(&rt; has_nodes(rt.alloc(), "if/.", &named_if));
    Ok(())
}

#[test]
fn tokens_of_a_text(rt: HostRuntime) -> Result<(), Fail> {
    let expected = [
        Token {
            kind: Kind::Name,
            form: Form::Plain,
            span: span(1, 5),
        },
        Token {
            kind: Kind::Comparison,
            form: Form::Operation(Operator::LessOrEqual),
            span: span(6, 8),
        },
        Token {
            kind: Kind::Literal,
            form: Form::Number,
            span: span(9, 12),
        },
    ];
    let found = tokens(rt.alloc(), " \u{e9}:a le 1.5")?;
    assert!(&rt; found.as_slice() == expected.as_slice());
    Ok(())
}

#[test]
fn texts_without_their_quotes(rt: HostRuntime) -> Result<(), Fail> {
    let single = unquoted(rt.alloc(), "'it''s \"\u{e9}\"'")?;
    assert!(&rt; single.as_str() == "it's \"\u{e9}\"");
    let double = unquoted(rt.alloc(), "\"\"\"\"\"\"")?;
    assert!(&rt; double.as_str() == "\"\"");
    Ok(())
}
