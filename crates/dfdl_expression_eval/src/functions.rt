// What the operators and functions of expressions answer by the values of their operands.
ghost use Rattle.std.specs.Prelude.{◌≡◌, IfOk, IsOk, IsUtf8, Ok, Err, pos};
ghost use Rattle.dfdl_value.specs.Types.{IsPlain};
ghost use Rattle.dfdl_operators.specs.Comparisons.{comparison};
ghost use Rattle.dfdl_operators.specs.Constructors.{IsAnswer};
ghost use Rattle.dfdl_operators.specs.Numbers.{Answer, number_of, on_numbers};
ghost use Rattle.dfdl_operators.specs.Operators.{quotient_answer};
ghost use Rattle.dfdl_expression_eval.specs.Functions.{binary_answer, length_answer, negation, question_answer, relation_answer, substring_answer, truth_answer, unary_answer, whole_answer};
ghost use Rattle.dfdl_expression_eval.specs.Machine.{computed, evaluated_of, last_truth, of_one, of_two, part_of};
ghost use Rattle.dfdl_expression_eval.specs.Rooms.{HasMemory, IsLeanBinary, IsLeanNode, IsLeanUnary};

use super::env::{Evaluated, OutOfMemory};
use dfdl_expressions::{BinaryOperator, Node, Question, Relation, UnaryOperator, Unit};
use dfdl_operators::{
    FunctionFault, OperatorFault, absolute, add, ceiling, compare, concat, construct, contains,
    divide, ends_with, floor, integer_divide, modulo, multiply, negate, starts_with, string_length,
    substring, substring_from, subtract, text_in,
};
use dfdl_value::{TextValue, Value};
use std::alloc::Global;

/// What the answer of a function comes to.
pub(crate) fn given(answer: Result<Value, FunctionFault>) -> Result<Evaluated, OutOfMemory>
    ensures answer { IfOk result (λ e. (a : Answer) → IsAnswer a answer → e ≡ evaluated_of a) }
    ensures memory { HasMemory answer → IsOk result }
{
    match answer {
        Ok(value) => Ok(Evaluated::Known(value)),
        Err(FunctionFault::Fault(why)) => Ok(Evaluated::Fault(why.number())),
        Err(FunctionFault::OutOfMemory) => Err(OutOfMemory),
    }
}

/// The answer of an operator that takes no memory.
fn plain(answer: Result<Value, OperatorFault>) -> Result<Value, FunctionFault>
    ensures answer { IsAnswer answer result }
    ensures memory { HasMemory result }
{
    match answer {
        Ok(value) => Ok(value),
        Err(why) => Err(FunctionFault::Fault(why)),
    }
}

fn negation(value: &Value) -> Result<Value, OperatorFault>
    ensures { result ≡ negation value.now }
{
    match value {
        Value::Truth(truth) => Ok(Value::Truth(!*truth)),
        Value::Int(_) | Value::Uns(_) | Value::Dec(_) | Value::Text(_) | Value::Bytes(_) => {
            Err(OperatorFault::WrongType)
        }
    }
}

fn length_of_text(value: &Value) -> Result<Value, OperatorFault>
    ensures { result ≡ unary_answer UnaryOperator.StringLength value.now }
{
    match text_in(value) {
        Ok(text) => Ok(Value::Int(string_length(text) as i128)),
        Err(why) => Err(why),
    }
}

fn unary(alloc: Global, operator: UnaryOperator, value: &Value) -> Result<Value, FunctionFault>
    ensures answer { IsAnswer (unary_answer operator value.now) result }
    ensures memory { IsLeanUnary operator → HasMemory result }
{
    match operator {
        UnaryOperator::Negative => plain(negate(value)),
        UnaryOperator::Not => plain(negation(value)),
        UnaryOperator::Absolute => plain(absolute(value)),
        UnaryOperator::Floor => plain(floor(value)),
        UnaryOperator::Ceiling => plain(ceiling(value)),
        UnaryOperator::StringLength => plain(length_of_text(value)),
        UnaryOperator::Construct(kind) => construct(alloc, kind, value),
    }
}

fn relation(relation: Relation, left: &Value, right: &Value) -> Result<Value, OperatorFault>
    ensures { result ≡ relation_answer relation (comparison left.now right.now) }
{
    match compare(left, right) {
        Ok(order) => Ok(Value::Truth(relation.holds(order))),
        Err(why) => Err(why),
    }
}

fn has_part(left: &Value, right: &Value) -> Result<Value, OperatorFault>
    ensures { result ≡ binary_answer BinaryOperator.Contains left.now right.now }
{
    match (text_in(left), text_in(right)) {
        (Ok(text), Ok(part)) => Ok(Value::Truth(contains(text, part))),
        _ => Err(OperatorFault::WrongType),
    }
}

fn has_front(left: &Value, right: &Value) -> Result<Value, OperatorFault>
    ensures { result ≡ binary_answer BinaryOperator.StartsWith left.now right.now }
{
    match (text_in(left), text_in(right)) {
        (Ok(text), Ok(front)) => Ok(Value::Truth(starts_with(text, front))),
        _ => Err(OperatorFault::WrongType),
    }
}

fn has_end(left: &Value, right: &Value) -> Result<Value, OperatorFault>
    ensures { result ≡ binary_answer BinaryOperator.EndsWith left.now right.now }
{
    match (text_in(left), text_in(right)) {
        (Ok(text), Ok(end)) => Ok(Value::Truth(ends_with(text, end))),
        _ => Err(OperatorFault::WrongType),
    }
}

fn text_copy(alloc: Global, text: &str) -> Result<Value, FunctionFault>
    ensures answer { IsAnswer (Ok (Value.Text text.now)) result }
    ensures utf8 { IsUtf8 text.now }
{
    match TextValue::from_str(alloc, text) {
        Ok(copy) => Ok(Value::Text(copy)),
        Err(_) => Err(FunctionFault::OutOfMemory),
    }
}

fn part_from(alloc: Global, left: &Value, right: &Value) -> Result<Value, FunctionFault>
    ensures { IsAnswer (binary_answer BinaryOperator.SubstringFrom left.now right.now) result }
{
    match text_in(left) {
        Ok(text) => match substring_from(text, right) {
            Ok(part) => text_copy(alloc, part),
            Err(why) => Err(FunctionFault::Fault(why)),
        },
        Err(why) => Err(FunctionFault::Fault(why)),
    }
}

fn part_of_text(
    alloc: Global,
    text: &Value,
    first: &Value,
    count: &Value,
) -> Result<Value, FunctionFault>
    ensures { IsAnswer (substring_answer text.now first.now count.now) result }
{
    match text_in(text) {
        Ok(text) => match substring(text, first, count) {
            Ok(part) => text_copy(alloc, part),
            Err(why) => Err(FunctionFault::Fault(why)),
        },
        Err(why) => Err(FunctionFault::Fault(why)),
    }
}

fn binary(
    alloc: Global,
    operator: BinaryOperator,
    left: &Value,
    right: &Value,
) -> Result<Value, FunctionFault>
    ensures answer { IsAnswer (binary_answer operator left.now right.now) result }
    ensures memory { IsLeanBinary operator → HasMemory result }
{
    match operator {
        BinaryOperator::Add => plain(add(left, right)),
        BinaryOperator::Subtract => plain(subtract(left, right)),
        BinaryOperator::Multiply => plain(multiply(left, right)),
        BinaryOperator::Divide => plain(divide(left, right)),
        BinaryOperator::IntegerDivide => plain(integer_divide(left, right)),
        BinaryOperator::Modulo => plain(modulo(left, right)),
        BinaryOperator::Compare(kind) => plain(relation(kind, left, right)),
        BinaryOperator::Contains => plain(has_part(left, right)),
        BinaryOperator::StartsWith => plain(has_front(left, right)),
        BinaryOperator::EndsWith => plain(has_end(left, right)),
        BinaryOperator::SubstringFrom => part_from(alloc, left, right),
    }
}

/// The answer where a node has not as many values as operands, which doesn't come in an expression.
fn no_operands() -> Result<Value, FunctionFault>
    ensures { result ≡ Err (FunctionFault.Fault OperatorFault.WrongType) }
{
    Err(FunctionFault::Fault(OperatorFault::WrongType))
}

fn of_one(alloc: Global, operator: UnaryOperator, values: &[Value]) -> Result<Value, FunctionFault>
    ensures answer { IsAnswer (of_one operator values.now) result }
    ensures memory { IsLeanUnary operator → HasMemory result }
{
    match values {
        [only] => unary(alloc, operator, only),
        _ => no_operands(),
    }
}

fn of_two(alloc: Global, operator: BinaryOperator, values: &[Value]) -> Result<Value, FunctionFault>
    ensures answer { IsAnswer (of_two operator values.now) result }
    ensures memory { IsLeanBinary operator → HasMemory result }
{
    match values {
        [left, right] => binary(alloc, operator, left, right),
        _ => no_operands(),
    }
}

fn part_of(alloc: Global, values: &[Value]) -> Result<Value, FunctionFault>
    ensures { IsAnswer (part_of values.now) result }
{
    match values {
        [text, first, count] => part_of_text(alloc, text, first, count),
        _ => no_operands(),
    }
}

fn truth_again(value: &Value) -> Result<Value, FunctionFault>
    ensures answer { IsAnswer (truth_answer value.now) result }
    ensures memory { HasMemory result }
{
    match value {
        Value::Truth(truth) => Ok(Value::Truth(*truth)),
        Value::Int(_) | Value::Uns(_) | Value::Dec(_) | Value::Text(_) | Value::Bytes(_) => {
            Err(FunctionFault::Fault(OperatorFault::WrongType))
        }
    }
}

fn last_truth(values: &[Value]) -> Result<Value, FunctionFault>
    ensures answer { IsAnswer (last_truth values.now) result }
    ensures memory { HasMemory result }
{
    match values {
        [_, last] => truth_again(last),
        _ => no_operands(),
    }
}

fn copy(alloc: Global, value: &Value) -> Result<Value, FunctionFault>
    ensures answer { IsAnswer (Ok value.now) result }
    ensures memory { IsPlain value.now → HasMemory result }
{
    value.copy(alloc).map_err(|_| FunctionFault::OutOfMemory)
}

/// What a node that asks nothing answers by the values of its operands.
pub(crate) fn compute(alloc: Global, node: &Node, values: &[Value]) -> Result<Value, FunctionFault>
    ensures answer { IsAnswer (computed node.now values.now) result }
    ensures memory { IsLeanNode node.now → HasMemory result }
{
    match node {
        Node::Constant(value) => copy(alloc, value),
        Node::PastRange => Err(FunctionFault::Fault(OperatorFault::PastRange)),
        Node::Unary(operator, _) => of_one(alloc, *operator, values),
        Node::Binary(operator, _, _) => of_two(alloc, *operator, values),
        Node::Substring(_, _, _) => part_of(alloc, values),
        Node::Concat(_) => concat(alloc, values),
        Node::And(_, _) | Node::Or(_, _) => last_truth(values),
        Node::Variable(_) | Node::OccursIndex | Node::Path { .. } | Node::If { .. } =>
            no_operands(),
    }
}

/// The length of whole bytes, of so many bits.
fn in_bytes(bits: &Value) -> Result<Value, OperatorFault>
    ensures { result ≡ whole_answer (on_numbers quotient_answer (number_of bits.now) (number_of (Value.Int (pos 8)))) }
{
    match divide(bits, &Value::Int(8)) {
        Ok(Value::Dec(_)) => Err(OperatorFault::NoQuotient),
        answer => answer,
    }
}

fn in_unit(unit: Unit, bits: Value) -> Result<Value, OperatorFault>
    ensures { result ≡ length_answer unit bits }
{
    match unit {
        Unit::Bits => Ok(bits),
        Unit::Bytes => in_bytes(&bits),
    }
}

/// What a question of a path answers by the value that was found for it.
pub(crate) fn answer(question: Question, found: Value) -> Result<Value, FunctionFault>
    ensures answer { IsAnswer (question_answer question found) result }
    ensures memory { HasMemory result }
{
    match question {
        Question::Item | Question::Count => Ok(found),
        Question::Exists => plain(relation(Relation::Other, &found, &Value::Int(0))),
        Question::Empty => plain(relation(Relation::Same, &found, &Value::Int(0))),
        Question::Length(_, unit) => plain(in_unit(unit, found)),
    }
}
