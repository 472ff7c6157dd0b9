// The evaluation of an expression.
ghost use Rattle.std.specs.Prelude.{◌≡◌, ℕ, ◌+◌, ◌-◌, ◌<◌, ◌≤◌, ◌++◌, ◌∷◌, [], true, List, Some, take, drop, length, IfOk, IsOk, IfSome, IfNone, vec_capacity};
ghost use Rattle.std.specs.List.{slice_get};
ghost use Rattle.dfdl_value.specs.declared.value.Value.{Value as ValueOf};
ghost use Rattle.dfdl_expression_eval.specs.Asks.{Asks, gives};
ghost use Rattle.dfdl_expression_eval.specs.Machine.{IsStep, comes_to, focus_left, frames_left, gone_on, held_by, left_over, weight_left, weight_of};
ghost use Rattle.dfdl_expression_eval.specs.Meanings.{meaning};
ghost use Rattle.dfdl_expression_eval.specs.Nesting.{AreNested, IsNested, IsServed, StaysNested};
ghost use Rattle.dfdl_expression_eval.specs.Rooms.{HasRoom, IsLean, operands_in};
ghost use Rattle.dfdl_expression_eval.specs.Runs.{left_by, run};
ghost use Rattle.dfdl_expressions.specs.Nodes.{IsExpression};
ghost use Rattle.dfdl_expressions.specs.declared.node.Node.{Node as NodeOf};

use super::acting::act;
use super::env::{Env, Evaluated, OutOfMemory};
use super::scratch::{Focus, Frame, Scratch, Step};
use super::stack::{close, last_of, put_frame, put_value};
use super::turning::{Turn, turn_behind};
use dfdl_expressions::{Expression, Node};
use dfdl_operators::OperatorFault;
use dfdl_value::Value;
use std::alloc::Global;

/// What comes of a node that isn't there, and of a value that is no truth.
fn wrong() -> Focus
    ensures { result ≡ Focus.Came (Evaluated.Fault 6) }
{
    Focus::Came(Evaluated::Fault(OperatorFault::WrongType.number()))
}

/// Begins a node.
fn begin<E: Env>(
    alloc: Global,
    expression: &Expression,
    number: u32,
    scratch: &mut Scratch,
    env: &mut E,
) -> Result<Focus, OutOfMemory>
    requires sound { IsExpression expression.now }
    requires held { held_by scratch.old.frames.items ≡ length scratch.old.values.items }
    ensures held { IfOk result (λ f. held_by scratch.new.frames.items ≡ length scratch.new.values.items) }
    ensures comes { IfOk result (λ f. (go : ValueOf → Asks)
        → comes_to E.answers E.read expression.now f (left_over expression.now scratch.new.frames.items scratch.new.values.items go) env.new
        ≡ comes_to E.answers E.read expression.now (Focus.Begin number)
        (left_over expression.now scratch.old.frames.items scratch.old.values.items go) env.old) }
    ensures less { IfOk result (λ f. focus_left expression.now f + frames_left expression.now scratch.new.frames.items
        < focus_left expression.now (Focus.Begin number) + frames_left expression.now scratch.old.frames.items) }
    ensures nested { IfOk result (λ f. IsNested expression.now scratch.old.frames.items (Focus.Begin number)
        → IsNested expression.now scratch.new.frames.items f) }
    ensures room { IfOk result (λ f. (room : ℕ) → HasRoom room scratch.old → HasRoom room scratch.new) }
    ensures stays { IfOk result (λ f. E.is_lean env.new ≡ E.is_lean env.old) }
    ensures memory { (room : ℕ) → IsServed expression.now room scratch.old (E.is_lean env.old)
        → IsNested expression.now scratch.old.frames.items (Focus.Begin number) → IsOk result }
{
    let Some(node) = expression.node(number) else {
        return Ok(wrong());
    };
    match node.operand(0) {
        Some(first) => {
            let frame = Frame {
                node: number,
                done: 0,
            };
            put_frame(&mut scratch.frames, frame)?;
            Ok(Focus::Begin(first))
        }
        None => Ok(Focus::Came(act(alloc, node, &[], &mut scratch.places, env)?)),
    }
}

/// Goes on with the value of an operand, the last of those that a node has so far.
fn go_on<E: Env>(
    alloc: Global,
    node: &Node,
    frame: Frame,
    value: Value,
    scratch: &mut Scratch,
    env: &mut E,
) -> Result<Focus, OutOfMemory>
    requires held { held_by scratch.old.frames.items + frame.done ≡ length scratch.old.values.items }
    ensures held { IfOk result (λ f. held_by scratch.new.frames.items ≡ length scratch.new.values.items) }
    ensures comes { IfOk result (λ f. (nodes : List NodeOf) (go : ValueOf → Asks) → slice_get nodes frame.node ≡ Some node.now
        → comes_to E.answers E.read nodes f (left_over nodes scratch.new.frames.items scratch.new.values.items go) env.new
        ≡ run E.answers E.read (gone_on nodes node.now (drop (held_by scratch.old.frames.items) scratch.old.values.items) value
        (left_over nodes scratch.old.frames.items (take (held_by scratch.old.frames.items) scratch.old.values.items) go)) env.old) }
    ensures less { IfOk result (λ f. (nodes : List NodeOf) → slice_get nodes frame.node ≡ Some node.now
        → focus_left nodes f + frames_left nodes scratch.new.frames.items
        < frames_left nodes scratch.old.frames.items + weight_left (weight_of nodes) (Some node.now) frame.done) }
    ensures nested { IfOk result (λ f. (nodes : List NodeOf) → slice_get nodes frame.node ≡ Some node.now → IsExpression nodes
        → AreNested nodes (length nodes) (scratch.old.frames.items ++ frame ∷ []) → IsNested nodes scratch.new.frames.items f) }
    ensures room { IfOk result (λ f. (room : ℕ) → HasRoom room scratch.old → HasRoom room scratch.new) }
    ensures stays { IfOk result (λ f. E.is_lean env.new ≡ E.is_lean env.old) }
    ensures memory { (nodes : List NodeOf) (room : ℕ) → slice_get nodes frame.node ≡ Some node.now
        → IsServed nodes room scratch.old (E.is_lean env.old)
        → AreNested nodes (length nodes) (scratch.old.frames.items ++ frame ∷ []) → IsOk result }
{
    let done = frame.done + 1;
    put_value(&mut scratch.values, value)?;
    match node.operand(done) {
        Some(next) => {
            let frame = Frame {
                node: frame.node,
                done,
            };
            put_frame(&mut scratch.frames, frame)?;
            Ok(Focus::Begin(next))
        }
        None => {
            let Scratch { values, places, .. } = scratch;
            let came = act(alloc, node, last_of(values, done), places, env)?;
            close(values, done);
            Ok(Focus::Came(came))
        }
    }
}

/// Goes on with the value of an operand of the innermost node.
fn resume<E: Env>(
    alloc: Global,
    expression: &Expression,
    frame: Frame,
    value: Value,
    scratch: &mut Scratch,
    env: &mut E,
) -> Result<Focus, OutOfMemory>
    requires held { held_by scratch.old.frames.items + frame.done ≡ length scratch.old.values.items }
    ensures held { IfOk result (λ f. held_by scratch.new.frames.items ≡ length scratch.new.values.items) }
    ensures comes { IfOk result (λ f. (go : ValueOf → Asks)
        → comes_to E.answers E.read expression.now f (left_over expression.now scratch.new.frames.items scratch.new.values.items go) env.new
        ≡ run E.answers E.read (left_over expression.now (scratch.old.frames.items ++ frame ∷ [])
        scratch.old.values.items go value) env.old) }
    ensures less { IfOk result (λ f. focus_left expression.now f + frames_left expression.now scratch.new.frames.items
        < frames_left expression.now (scratch.old.frames.items ++ frame ∷ [])) }
    ensures nested { IfOk result (λ f. IsExpression expression.now
        → AreNested expression.now (length expression.now) (scratch.old.frames.items ++ frame ∷ [])
        → IsNested expression.now scratch.new.frames.items f) }
    ensures room { IfOk result (λ f. (room : ℕ) → HasRoom room scratch.old → HasRoom room scratch.new) }
    ensures stays { IfOk result (λ f. E.is_lean env.new ≡ E.is_lean env.old) }
    ensures memory { (room : ℕ) → IsServed expression.now room scratch.old (E.is_lean env.old)
        → AreNested expression.now (length expression.now) (scratch.old.frames.items ++ frame ∷ []) → IsOk result }
{
    let node = match expression.node(frame.node) {
        Some(node) => node,
        None => {
            close(&mut scratch.values, frame.done);
            return Ok(wrong());
        }
    };
    match turn_behind(node, frame.done, &value) {
        Turn::On => go_on(alloc, node, frame, value, scratch, env),
        Turn::Settled(truth) => {
            close(&mut scratch.values, frame.done);
            Ok(Focus::Came(Evaluated::Known(Value::Truth(truth))))
        }
        Turn::To(operand) => {
            close(&mut scratch.values, frame.done);
            Ok(Focus::Begin(operand))
        }
        Turn::Wrong => {
            close(&mut scratch.values, frame.done);
            Ok(wrong())
        }
    }
}

/// The innermost frame, which is taken off.
fn innermost(frames: &mut Vec<Frame>) -> Option<Frame>
    ensures some { IfSome result (λ f. frames.old.items ≡ frames.new.items ++ f ∷ []) }
    ensures none { IfNone result (frames.old.items ≡ []) }
    ensures same { IfNone result (frames.new.items ≡ []) }
    ensures capacity { vec_capacity frames.old ≤ vec_capacity frames.new }
{
    frames.pop()
}

/// A value came out of a node.
fn came<E: Env>(
    alloc: Global,
    expression: &Expression,
    value: Value,
    scratch: &mut Scratch,
    env: &mut E,
) -> Result<Step, OutOfMemory>
    requires held { held_by scratch.old.frames.items ≡ length scratch.old.values.items }
    ensures held { IfOk result (λ s. held_by scratch.new.frames.items ≡ length scratch.new.values.items) }
    ensures steps { IfOk result (IsStep E.answers E.read expression.now (Focus.Came (Evaluated.Known value))
        scratch.old.frames.items scratch.old.values.items scratch.new.frames.items scratch.new.values.items env.old env.new) }
    ensures nested { IfOk result (λ s. IsExpression expression.now → AreNested expression.now (length expression.now) scratch.old.frames.items
        → StaysNested expression.now scratch.new.frames.items s) }
    ensures room { IfOk result (λ s. (room : ℕ) → HasRoom room scratch.old → HasRoom room scratch.new) }
    ensures stays { IfOk result (λ s. E.is_lean env.new ≡ E.is_lean env.old) }
    ensures memory { (room : ℕ) → IsServed expression.now room scratch.old (E.is_lean env.old)
        → AreNested expression.now (length expression.now) scratch.old.frames.items → IsOk result }
{
    match innermost(&mut scratch.frames) {
        Some(frame) => Ok(Step::Next(resume(alloc, expression, frame, value, scratch, env)?)),
        None => Ok(Step::Ends(Evaluated::Known(value))),
    }
}

/// One step.
fn step<E: Env>(
    alloc: Global,
    expression: &Expression,
    focus: Focus,
    scratch: &mut Scratch,
    env: &mut E,
) -> Result<Step, OutOfMemory>
    requires sound { IsExpression expression.now }
    requires held { held_by scratch.old.frames.items ≡ length scratch.old.values.items }
    ensures held { IfOk result (λ s. held_by scratch.new.frames.items ≡ length scratch.new.values.items) }
    ensures steps { IfOk result (IsStep E.answers E.read expression.now focus
        scratch.old.frames.items scratch.old.values.items scratch.new.frames.items scratch.new.values.items env.old env.new) }
    ensures nested { IfOk result (λ s. IsNested expression.now scratch.old.frames.items focus
        → StaysNested expression.now scratch.new.frames.items s) }
    ensures room { IfOk result (λ s. (room : ℕ) → HasRoom room scratch.old → HasRoom room scratch.new) }
    ensures stays { IfOk result (λ s. E.is_lean env.new ≡ E.is_lean env.old) }
    ensures memory { (room : ℕ) → IsServed expression.now room scratch.old (E.is_lean env.old)
        → IsNested expression.now scratch.old.frames.items focus → IsOk result }
{
    match focus {
        Focus::Begin(number) => Ok(Step::Next(begin(alloc, expression, number, scratch, env)?)),
        Focus::Came(Evaluated::Known(value)) => came(alloc, expression, value, scratch, env),
        Focus::Came(ended) => Ok(Step::Ends(ended)),
    }
}

/// The value of an expression in an environment, or the unknown that it needs next and that has no
/// value, or the number of its fault. Memory is taken for results that are texts or bytes, and where
/// the scratch has less than the expression needs.
pub fn eval<E: Env>(
    alloc: Global,
    expression: &Expression,
    scratch: &mut Scratch,
    env: &mut E,
) -> Result<Evaluated, OutOfMemory>
    ensures value { IfOk result (λ e. e ≡ gives (meaning expression.now) (E.answers env.old)) }
    ensures reads { IfOk result (λ e. env.new ≡ left_by E.answers E.read (meaning expression.now) env.old) }
    // An expression that makes no text and no bytes takes no memory, where the scratch has room for it and the environment takes none.
    ensures lean { (room : ℕ) → HasRoom room scratch.old → length expression.now ≤ room → operands_in expression.now ≤ room
        → IsLean expression.now → E.is_lean env.old ≡ true → IsOk result }
    ensures room { IfOk result (λ e. (room : ℕ) → HasRoom room scratch.old → HasRoom room scratch.new) }
{
    scratch.clear();
    let mut focus = Focus::Begin(expression.root());
    loop {
        match step(alloc, expression, focus, scratch, env)? {
            Step::Next(next) => focus = next,
            Step::Ends(ended) => return Ok(ended),
        }
    }
}
