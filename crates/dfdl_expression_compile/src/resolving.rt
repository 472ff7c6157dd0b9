// The types and the compiled form of an expression.
ghost use Rattle.std.specs.Prelude.{◌≡◌, ◌≤◌, length, IfOk};
ghost use Rattle.dfdl_expression_eval.specs.Rooms.{operands_in};
ghost use Rattle.dfdl_expressions.specs.Nodes.{IsExpression};
ghost use Rattle.dfdl_expression_tree.specs.Readings.{HasTree};
ghost use Rattle.dfdl_expression_tree.specs.Trees.{Formula, listed};
ghost use Rattle.dfdl_expression_types.specs.Verdicts.{types_or_fault};
ghost use Rattle.dfdl_expression_compile.specs.Compiling.{nodes_of};
ghost use Rattle.dfdl_expression_compile.specs.Resolving.{Resolves};
ghost use Rattle.dfdl_expression_compile.specs.Running as running;

use crate::compiling::nodes_of;
use crate::memory::OutOfMemory;
use dfdl_expression_tree::{Node as TreeNode, Tree};
use dfdl_expression_types::{Statics, TypeFault, Types, check_types};
use dfdl_expressions::{Expression, build};
use std::alloc::Global;

/// An expression that is sound.
#[derive(Debug, Drop)]
pub struct Resolved {
    /// Its compiled form.
    pub expression: Expression,
    /// The types that its value may have.
    pub types: Types,
}

/// The compiled form of a tree.
fn compile(
    alloc: Global,
    statics: &Statics<'_>,
    text: &[u8],
    tree: &[TreeNode],
) -> Result<Expression, OutOfMemory>
    requires sound { IsExpression (running.all_nodes statics.now text.now tree.now) }
    ensures nodes { IfOk result (λ e. e ≡ running.all_nodes statics.now text.now tree.now) }
{
    match build(nodes_of(alloc, statics, text, tree)?) {
        Some(expression) => Ok(expression),
        None => unreachable!(),
    }
}

/// The types and the compiled form of an expression, by the tree of its text and what it may name.
///
/// The faults are those of `check_types`. A name of an element is told by its number in `names`, and a variable by its own.
/// The tree is that of the text, which `parse` gives, so no sound expression is refused: `OutOfMemory` tells of memory alone.
pub fn resolve(
    alloc: Global,
    text: &str,
    tree: &Tree,
    statics: &Statics<'_>,
) -> Result<Resolved, TypeFault>
    requires tree { HasTree text.now tree.now.nodes.items }
    ensures answer { (f : Formula) → tree.now.nodes.items ≡ listed f 0
        → Resolves (types_or_fault statics.now text.now f) (nodes_of statics.now text.now f) result }
    // Each node is the operand of one other at most.
    ensures single { IfOk result (λ r. operands_in r.expression ≤ length r.expression) }
{
    let types = check_types(alloc, text, tree, statics)?;
    match compile(alloc, statics, text.as_bytes(), &tree.nodes) {
        Ok(expression) => Ok(Resolved { expression, types }),
        Err(OutOfMemory) => Err(TypeFault::OutOfMemory),
    }
}
