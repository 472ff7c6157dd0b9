// The nodes of expressions.
ghost use Rattle.std.specs.Prelude.{◌≡◌};
ghost use Rattle.std.specs.List.{slice_get};
ghost use Rattle.dfdl_expressions.specs.Nodes.{are_below, operands_of};

use super::operands::{Operands, are_below, number_at};
use super::operator::{BinaryOperator, Question, UnaryOperator};
use super::path::Path;
use dfdl_value::Value;

/// One node of an expression. It names its operands by their numbers.
#[derive(Debug, Drop)]
pub enum Node {
    /// a number, a text, `true()` or `false()`
    Constant(Value),
    /// a number that no value carries, which is a fault (E4) when it is evaluated
    PastRange,
    /// the value of the variable of this number
    Variable(u32),
    /// `occursIndex()`
    OccursIndex,
    /// a path, with an operand for each step that has an index
    Path {
        question: Question,
        path: Path,
        indexes: Operands,
    },
    Unary(UnaryOperator, u32),
    Binary(BinaryOperator, u32, u32),
    /// `substring` of a text, from a place on, with so many characters
    Substring(u32, u32, u32),
    Concat(Operands),
    And(u32, u32),
    Or(u32, u32),
    /// `if`: its condition, and what it stands for where this holds and where it doesn't
    If {
        condition: u32,
        holds: u32,
        fails: u32,
    },
}

impl Node {
    /// The number of the operand at a place, from 0 on, if the node has so many.
    pub fn operand(&self, place: usize) -> Option<u32>
        ensures { result ≡ slice_get (operands_of self.now) place }
    {
        match self {
            Node::Constant(_) | Node::PastRange | Node::Variable(_) | Node::OccursIndex => None,
            Node::Path { indexes, .. } => number_at(indexes.as_slice(), place),
            Node::Concat(parts) => number_at(parts.as_slice(), place),
            Node::Unary(_, only) => number_at(&[*only], place),
            Node::Binary(_, left, right) => number_at(&[*left, *right], place),
            Node::And(left, right) => number_at(&[*left, *right], place),
            Node::Or(left, right) => number_at(&[*left, *right], place),
            Node::Substring(text, first, count) => number_at(&[*text, *first, *count], place),
            Node::If {
                condition,
                holds,
                fails,
            } => number_at(&[*condition, *holds, *fails], place),
        }
    }

    /// Whether each operand is below a bound.
    pub(crate) fn has_operands_below(&self, bound: u32) -> bool
        ensures { result ≡ are_below bound (operands_of self.now) }
    {
        match self {
            Node::Constant(_) | Node::PastRange | Node::Variable(_) | Node::OccursIndex => true,
            Node::Path { indexes, .. } => are_below(indexes.as_slice(), bound),
            Node::Concat(parts) => are_below(parts.as_slice(), bound),
            Node::Unary(_, only) => are_below(&[*only], bound),
            Node::Binary(_, left, right) => are_below(&[*left, *right], bound),
            Node::And(left, right) => are_below(&[*left, *right], bound),
            Node::Or(left, right) => are_below(&[*left, *right], bound),
            Node::Substring(text, first, count) => are_below(&[*text, *first, *count], bound),
            Node::If {
                condition,
                holds,
                fails,
            } => are_below(&[*condition, *holds, *fails], bound),
        }
    }
}
