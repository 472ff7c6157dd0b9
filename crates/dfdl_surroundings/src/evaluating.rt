// The evaluation of an expression while data is parsed.
ghost use Rattle.std.specs.Prelude.{◌≡◌, ℕ, IfOk};
ghost use Rattle.dfdl_expression_eval.specs.Asks.{IsSettled, gives};
ghost use Rattle.dfdl_expression_eval.specs.Meanings.{meaning};
ghost use Rattle.dfdl_expression_eval.specs.Rooms.{HasRoom};
ghost use Rattle.dfdl_expression_eval.specs.Runs.{left_by};
ghost use Rattle.dfdl_surroundings.specs.Answers.{answer_in, around, read_in};

use super::document::Document;
use super::surroundings::Surroundings;
use dfdl_expression_eval::{Evaluated, OutOfMemory, Scratch, eval};
use dfdl_expressions::Expression;
use dfdl_vars::Vars;
use std::alloc::Global;
use std::mem;

/// The value of an expression over a document, or the number of its fault. It never waits. The variables that it asks for are read.
/// Where memory is wanting, `variables` may be any.
pub fn evaluate(
    alloc: Global,
    expression: &Expression,
    scratch: &mut Scratch,
    document: Document<'_>,
    variables: &mut Vars,
) -> Result<Evaluated, OutOfMemory>
    ensures value { IfOk result (λ e. e ≡ gives (meaning expression.now) (answer_in (around document.entry variables.old))) }
    ensures reads { IfOk result (λ e. variables.new
        ≡ (left_by answer_in read_in (meaning expression.now) (around document.entry variables.old)).variables) }
    ensures settled { IfOk result (λ e. IsSettled e) }
    ensures room { IfOk result (λ e. (room : ℕ) → HasRoom room scratch.old → HasRoom room scratch.new) }
{
    let held = mem::replace(variables, Vars::none(alloc));
    let (left, answer) = evaluate_with(alloc, expression, scratch, document, held);
    *variables = left;
    answer
}

// The same with variables that are given and come back.
fn evaluate_with(
    alloc: Global,
    expression: &Expression,
    scratch: &mut Scratch,
    document: Document<'_>,
    variables: Vars,
) -> (Vars, Result<Evaluated, OutOfMemory>)
    ensures value { IfOk result.1 (λ e. e ≡ gives (meaning expression.now) (answer_in (around document.entry variables))) }
    ensures reads { IfOk result.1 (λ e. result.0
        ≡ (left_by answer_in read_in (meaning expression.now) (around document.entry variables)).variables) }
    ensures settled { IfOk result.1 (λ e. IsSettled e) }
    ensures room { IfOk result.1 (λ e. (room : ℕ) → HasRoom room scratch.old → HasRoom room scratch.new) }
{
    let mut surroundings = Surroundings {
        document,
        variables,
    };
    let answer = eval(alloc, expression, scratch, &mut surroundings);
    let Surroundings { variables, .. } = surroundings;
    (variables, answer)
}
