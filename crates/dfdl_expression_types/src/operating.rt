// What operators and conditionals make of the types of their operands.
ghost use Rattle.std.specs.Prelude.{◌≡◌};
ghost use Rattle.dfdl_expression_types.specs.Notes as notes;

use crate::note::{Faults, Note, Shape};
use crate::types::{Types, ValueType};
use dfdl_expression_tree::Operator;

/// A value of a type, where both operands have to have it.
fn calculated(kind: ValueType, left: Types, right: Types, faults: Faults) -> Note
    ensures { result ≡ notes.calculated kind left right faults }
{
    let wanted = Types::only(kind);
    let wrong = left.is_apart(wanted) || right.is_apart(wanted);
    Note {
        shape: Shape::Value(wanted),
        faults: faults.or_types(wrong),
    }
}

/// A truth, where both operands have to have one type.
fn compared(left: Types, right: Types, faults: Faults) -> Note
    ensures { result ≡ notes.compared left right faults }
{
    Note {
        shape: Shape::Value(Types::only(ValueType::Truth)),
        faults: faults.or_types(left.is_apart(right)),
    }
}

/// An operation on values of these types.
pub(crate) fn operation_note(operator: Operator, left: Types, right: Types, faults: Faults) -> Note
    ensures { result ≡ notes.operation_note operator left right faults }
{
    match operator {
        Operator::Or | Operator::And => calculated(ValueType::Truth, left, right, faults),
        Operator::Equal
        | Operator::NotEqual
        | Operator::Less
        | Operator::LessOrEqual
        | Operator::Greater
        | Operator::GreaterOrEqual => compared(left, right, faults),
        Operator::Plus
        | Operator::Minus
        | Operator::Times
        | Operator::Divide
        | Operator::WholeDivide
        | Operator::Remainder => calculated(ValueType::Number, left, right, faults),
    }
}

/// A conditional with these types of its test and its branches.
pub(crate) fn conditional(test: Types, first: Types, second: Types, faults: Faults) -> Note
    ensures { result ≡ notes.conditional test first second faults }
{
    let wrong = test.is_apart(Types::only(ValueType::Truth)) || first.is_apart(second);
    Note {
        shape: Shape::Value(first.both(second)),
        faults: faults.or_types(wrong),
    }
}
