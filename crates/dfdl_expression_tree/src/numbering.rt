// Numbers the nodes of an expression's tree.
ghost use Rattle.std.specs.Prelude.{◌≡◌, [], IfOk, MatchOption, Some, None};
ghost use Rattle.std.specs.VecDeque.{deque_items};
ghost use Rattle.dfdl_expression_tree.specs.Numbering.{node_of, taken, numbered};

use crate::node::{Cell, Node};
use std::alloc::{AllocError, Global};
use std::collections::VecDeque;

/// The node of a cell, whose operands are taken off the numbers of the trees so far, the last first.
fn node_of(numbers: &mut VecDeque<usize>, cell: Cell) -> Option<Node>
    ensures { let next = node_of cell (deque_items numbers.old) in
        MatchOption result (next ≡ None) (λ n. next ≡ taken n (deque_items numbers.new)) }
{
    match cell {
        Cell::Leaf(leaf) => Some(Node::Leaf(leaf)),
        Cell::Unary(unary) => {
            let operand = numbers.pop_front()?;
            Some(Node::Unary(unary, operand))
        }
        Cell::Binary(binary) => {
            let right = numbers.pop_front()?;
            let left = numbers.pop_front()?;
            Some(Node::Binary(binary, left, right))
        }
        Cell::Choice => {
            let third = numbers.pop_front()?;
            let second = numbers.pop_front()?;
            let first = numbers.pop_front()?;
            Some(Node::Choice(first, second, third))
        }
    }
}

/// The nodes of a tree's cells, if these are the cells of trees.
pub(crate) fn nodes_of(alloc: Global, cells: &[Cell]) -> Result<Option<Vec<Node>>, AllocError>
    ensures { let all = numbered cells.now 0 [] [] in
        IfOk result (λ nodes. MatchOption nodes (all ≡ None) (λ found. all ≡ Some found.items)) }
{
    let mut nodes = Vec::new(alloc);
    let mut numbers = VecDeque::new(alloc);
    for (at, cell) in cells.iter().enumerate() {
        match node_of(&mut numbers, *cell) {
            Some(node) => nodes.push(node)?,
            None => return Ok(None),
        }
        numbers.push_front(at)?;
    }
    Ok(Some(nodes))
}
