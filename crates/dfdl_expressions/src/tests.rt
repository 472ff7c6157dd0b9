// Which nodes are an expression.
use crate::*;
use std::test::Fail;

// Operands stand before their node, and there is one.
#[test]
fn operands_stand_before_their_nodes(rt: HostRuntime) -> Result<(), Fail> {
    let alloc = rt.alloc();
    assert!(rt; build(Vec::new(alloc)).is_none());
    let mut nodes = Vec::new(alloc);
    nodes.push(Node::OccursIndex)?;
    nodes.push(Node::Unary(UnaryOperator::Negative, 0))?;
    let found = build(nodes);
    assert!(rt; found.is_some());
    let mut nodes = Vec::new(alloc);
    nodes.push(Node::Unary(UnaryOperator::Negative, 0))?;
    assert!(rt; build(nodes).is_none());
    Ok(())
}
