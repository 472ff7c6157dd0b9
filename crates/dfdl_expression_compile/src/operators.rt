// The nodes of operators.
ghost use Rattle.std.specs.Prelude.{◌≡◌};
ghost use Rattle.dfdl_expression_compile.specs.Compiling as compiling;

use dfdl_expression_tree::Operator;
use dfdl_expressions::{BinaryOperator, Node, Relation};

fn compared(relation: Relation, left: u32, right: u32) -> Node
    ensures { result ≡ compiling.compared relation left right }
{
    Node::Binary(BinaryOperator::Compare(relation), left, right)
}

/// The node of an operator.
pub(crate) fn operator_node(operator: Operator, left: u32, right: u32) -> Node
    ensures { result ≡ compiling.operator_node operator left right }
{
    match operator {
        Operator::Or => Node::Or(left, right),
        Operator::And => Node::And(left, right),
        Operator::Equal => compared(Relation::Same, left, right),
        Operator::NotEqual => compared(Relation::Other, left, right),
        Operator::Less => compared(Relation::Below, left, right),
        Operator::LessOrEqual => compared(Relation::NotAbove, left, right),
        Operator::Greater => compared(Relation::Above, left, right),
        Operator::GreaterOrEqual => compared(Relation::NotBelow, left, right),
        Operator::Plus => Node::Binary(BinaryOperator::Add, left, right),
        Operator::Minus => Node::Binary(BinaryOperator::Subtract, left, right),
        Operator::Times => Node::Binary(BinaryOperator::Multiply, left, right),
        Operator::Divide => Node::Binary(BinaryOperator::Divide, left, right),
        Operator::WholeDivide => Node::Binary(BinaryOperator::IntegerDivide, left, right),
        Operator::Remainder => Node::Binary(BinaryOperator::Modulo, left, right),
    }
}
