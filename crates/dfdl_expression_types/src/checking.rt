// Checks the types of an expression, by one pass over its nodes.
ghost use Rattle.std.specs.Prelude.{◌≡◌, ◌∷◌, [], IfOk, OnOk};
ghost use Rattle.std.specs.VecDeque.{deque_items};
ghost use Rattle.dfdl_expression_tree.specs.Trees.{Formula, listed};
ghost use Rattle.dfdl_expression_types.specs.Running as running;
ghost use Rattle.dfdl_expression_types.specs.Verdicts as verdicts;

use crate::fault::TypeFault;
use crate::note::Note;
use crate::noting::{binary_note, choice_note, leaf_note, unary_note};
use crate::statics::Statics;
use crate::types::Types;
use dfdl_expression_tree::{Node, Tree};
use std::alloc::{AllocError, Global};
use std::collections::VecDeque;

/// Takes off what came last.
fn pop(notes: &mut VecDeque<Note>) -> Note
    ensures first { result ≡ running.first (deque_items notes.old) }
    ensures rest { deque_items notes.new ≡ running.rest (deque_items notes.old) }
{
    match notes.pop_front() {
        Some(note) => note,
        None => Note::nothing(),
    }
}

/// What a node is, whose operands are taken off.
fn note_of(
    alloc: Global,
    statics: &Statics<'_>,
    text: &[u8],
    node: Node,
    notes: &mut VecDeque<Note>,
) -> Result<Note, AllocError>
    ensures { IfOk result (λ n. n ∷ deque_items notes.new ≡ running.step statics.now text.now node (deque_items notes.old)) }
{
    match node {
        Node::Leaf(leaf) => leaf_note(alloc, statics, text, leaf),
        Node::Unary(unary, _) => {
            let operand = pop(notes);
            unary_note(alloc, statics, text, unary, operand)
        }
        Node::Binary(binary, _, _) => {
            let right = pop(notes);
            let left = pop(notes);
            binary_note(alloc, statics, binary, left, right)
        }
        Node::Choice(_, _, _) => {
            let second = pop(notes);
            let first = pop(notes);
            let test = pop(notes);
            Ok(choice_note(statics, &test, &first, &second))
        }
    }
}

/// What the last of a tree's nodes is.
fn last_note(
    alloc: Global,
    statics: &Statics<'_>,
    text: &[u8],
    nodes: &[Node],
) -> Result<Note, AllocError>
    ensures { IfOk result (λ n. n ≡ running.first (running.run statics.now text.now nodes.now [])) }
{
    let mut notes = VecDeque::new(alloc);
    for node in nodes {
        let note = note_of(alloc, statics, text, *node, &mut notes)?;
        notes.push_front(note)?;
    }
    Ok(pop(&mut notes))
}

/// The types of a part, or what is wrong in it.
fn verdict(statics: &Statics<'_>, note: &Note) -> Result<Types, TypeFault>
    ensures { result ≡ verdicts.verdict statics.now note.now }
{
    if note.faults.types {
        Err(TypeFault::Types)
    } else if note.faults.path {
        Err(TypeFault::NoPath)
    } else if note.faults.variable {
        Err(TypeFault::NoVariable)
    } else {
        Ok(note.shape.types(statics))
    }
}

/// The types that the value of an expression may have, by the tree of its text and what it may name.
///
/// What has no declaration fits every type, so the faults are told apart. Memory is taken for what stands in the tree, and no more.
pub fn check_types(
    alloc: Global,
    text: &str,
    tree: &Tree,
    statics: &Statics<'_>,
) -> Result<Types, TypeFault>
    ensures answer { (f : Formula) → tree.now.nodes.items ≡ listed f 0
        → verdicts.Answers (verdicts.types_or_fault statics.now text.now f) result }
{
    let note = last_note(alloc, statics, text.as_bytes(), &tree.nodes)?;
    verdict(statics, &note)
}
