// What a node does with the values of its operands.
ghost use Rattle.std.specs.Prelude.{◌≡◌, ◌≤◌, true, length, vec_capacity, IfOk, IsOk};
ghost use Rattle.dfdl_value.specs.declared.value.Value.{Value as ValueOf};
ghost use Rattle.dfdl_expression_eval.specs.Asks.{Asks};
ghost use Rattle.dfdl_expression_eval.specs.Machine.{acted, judged_by};
ghost use Rattle.dfdl_expression_eval.specs.Meanings.{path_course, query_of};
ghost use Rattle.dfdl_expression_eval.specs.Rooms.{IsLeanNode};
ghost use Rattle.dfdl_expression_eval.specs.Runs.{run, told};

use super::env::{Env, Evaluated, OutOfMemory};
use super::functions::{answer, compute, given};
use super::places::gather;
use dfdl_expressions::{Node, Path, Question};
use dfdl_operators::OperatorFault;
use dfdl_value::Value;
use std::alloc::Global;

/// What the environment answers to a path's question.
fn found<E: Env>(
    alloc: Global,
    question: Question,
    path: &Path,
    places: &[u64],
    env: &mut E,
) -> Result<Evaluated, OutOfMemory>
    ensures answer { IfOk result (λ e. e ≡ E.answers env.old (query_of question path.now places.now)) }
    ensures same { IfOk result (λ e. env.new ≡ env.old) }
    ensures lean { E.is_lean env.old ≡ true → IsOk result }
{
    match question {
        Question::Item => env.item(alloc, path, places),
        Question::Count | Question::Exists | Question::Empty => env.count(alloc, path, places),
        Question::Length(extent, _) => env.length(alloc, path, places, extent),
    }
}

/// What a question comes to by what was found for it.
fn judged(question: Question, found: Evaluated) -> Result<Evaluated, OutOfMemory>
    ensures answer { IfOk result (λ e. e ≡ judged_by question found) }
    ensures memory { IsOk result }
{
    match found {
        Evaluated::Known(value) => given(answer(question, value)),
        Evaluated::Wait(unknown) => Ok(Evaluated::Wait(unknown)),
        Evaluated::Fault(cause) => Ok(Evaluated::Fault(cause)),
    }
}

/// What a path comes to by the values of its indexes.
fn ask<E: Env>(
    alloc: Global,
    question: Question,
    path: &Path,
    values: &[Value],
    places: &mut Vec<u64>,
    env: &mut E,
) -> Result<Evaluated, OutOfMemory>
    ensures comes { IfOk result (λ e. (go : ValueOf → Asks) → run E.answers E.read (path_course question path.now values.now go) env.old
        ≡ told e env.new (λ v t. run E.answers E.read (go v) t)) }
    ensures memory { length values.now ≤ vec_capacity places.old → E.is_lean env.old ≡ true → IsOk result }
    ensures stays { IfOk result (λ e. E.is_lean env.new ≡ E.is_lean env.old) }
    ensures capacity { vec_capacity places.old ≤ vec_capacity places.new }
{
    if !gather(values, places)? {
        return Ok(Evaluated::Fault(OperatorFault::WrongType.number()));
    }
    let found = found(alloc, question, path, places, env)?;
    judged(question, found)
}

/// What a node comes to by the values of its operands.
pub(crate) fn act<E: Env>(
    alloc: Global,
    node: &Node,
    values: &[Value],
    places: &mut Vec<u64>,
    env: &mut E,
) -> Result<Evaluated, OutOfMemory>
    ensures comes { IfOk result (λ e. (go : ValueOf → Asks) → run E.answers E.read (acted node.now values.now go) env.old
        ≡ told e env.new (λ v t. run E.answers E.read (go v) t)) }
    ensures memory { IsLeanNode node.now → length values.now ≤ vec_capacity places.old → E.is_lean env.old ≡ true → IsOk result }
    ensures stays { IfOk result (λ e. E.is_lean env.new ≡ E.is_lean env.old) }
    ensures capacity { vec_capacity places.old ≤ vec_capacity places.new }
{
    match node {
        Node::Variable(number) => env.variable(alloc, *number),
        Node::OccursIndex => env.occurs_index(alloc),
        Node::Path { question, path, .. } => ask(alloc, *question, path, values, places, env),
        Node::Constant(_)
        | Node::PastRange
        | Node::Unary(_, _)
        | Node::Binary(_, _, _)
        | Node::Substring(_, _, _)
        | Node::Concat(_)
        | Node::And(_, _)
        | Node::Or(_, _)
        | Node::If { .. } => given(compute(alloc, node, values)),
    }
}
