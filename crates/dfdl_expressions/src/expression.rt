// Expressions as lists of nodes.
ghost use Rattle.std.specs.Prelude.{◌≡◌, ◌-◌, ◌^◌, ◌<◌, ◌≤◌, ◌↔◌, length, IfSome, IfNone, IsSome, IsTrue, Some, None};
ghost use Rattle.std.specs.List.{slice_get};
ghost use Rattle.dfdl_expressions.specs.Nodes.{AreBelow, IsExpression};

use super::node::Node;
use std::marker::Model;

/// An expression. Each node's operands stand before it, and the last node is the whole. A contract
/// sees the list of its nodes.
#[derive(Debug, Drop)]
pub struct Expression {
    nodes: Vec<Node>,
}

impl Model for Expression {
    ghost use Rattle.std.specs.Prelude.{List};
    ghost use Rattle.dfdl_expressions.specs.Nodes.{IsExpression};
    ghost use Rattle.dfdl_expressions.specs.declared.node.Node.{Node as NodeOf};

    ghost Value = { List NodeOf };

    ghost view = { λ e. e.nodes.items };

    ghost invariant = { λ e. IsExpression e.nodes.items };
}

// Each node's operands stand before it.
fn have_operands_below(nodes: &[Node]) -> bool
    requires { length nodes.now < 2 ^ 32 }
    ensures { IsTrue result ↔ AreBelow nodes.now }
{
    for (number, node) in nodes.iter().enumerate() {
        if !node.has_operands_below(number as u32) {
            return false;
        }
    }
    true
}

/// The expression of some nodes, if they are one.
pub fn build(nodes: Vec<Node>) -> Option<Expression>
    ensures some { IfSome result (λ e. e ≡ nodes.items) }
    ensures sound { IsSome result ↔ IsExpression nodes.items }
{
    if nodes.is_empty() || nodes.len() > u32::MAX as usize {
        return None;
    }
    if !have_operands_below(&nodes) {
        return None;
    }
    Some(Expression { nodes })
}

impl Expression {
    /// The number of the node that is the whole.
    pub fn root(&self) -> u32
        ensures root { result ≡ length self.now - 1 }
        ensures sound { IsExpression self.now }
    {
        (self.nodes.len() - 1) as u32
    }

    /// How many nodes there are.
    pub fn count(&self) -> u32
        ensures { result ≡ length self.now }
    {
        self.nodes.len() as u32
    }

    /// The node of a number, if there is one.
    pub fn node(&self, number: u32) -> Option<&Node>
        ensures some { IfSome result (λ n. slice_get self.now number ≡ Some n.now) }
        ensures none { IfNone result (slice_get self.now number ≡ None) }
    {
        self.nodes.get(number as usize)
    }
}
