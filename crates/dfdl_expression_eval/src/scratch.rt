// The memory of an evaluation.
ghost use Rattle.std.specs.Prelude.{◌≡◌, [], ℕ, IfOk};
ghost use Rattle.dfdl_expression_eval.specs.Rooms.{HasRoom};

use super::env::{Evaluated, OutOfMemory};
use dfdl_value::Value;
use std::alloc::Global;

/// A node of which so many operands have values, and that waits for the value of the next one.
#[derive(Clone, Copy, Debug, PartialEq, Eq)]
pub(crate) struct Frame {
    pub(crate) node: u32,
    pub(crate) done: usize,
}

/// What comes next: a node begins, or something came out of one.
#[derive(Debug, Drop)]
pub(crate) enum Focus {
    Begin(u32),
    Came(Evaluated),
}

/// What a step leads to.
#[derive(Debug, Drop)]
pub(crate) enum Step {
    Next(Focus),
    Ends(Evaluated),
}

/// The memory that evaluations take in turn. What one leaves in it tells the next one nothing.
#[derive(Debug, Drop)]
pub struct Scratch {
    /// the open nodes, the innermost last
    pub(crate) frames: Vec<Frame>,
    /// the values that the open nodes hold, in the order of the nodes
    pub(crate) values: Vec<Value>,
    /// the places of the path that is asked
    pub(crate) places: Vec<u64>,
}

impl Scratch {
    /// Takes the memory for expressions of so many nodes, which have no more operands together. A larger one takes what is missing
    /// while it is evaluated.
    pub fn open(alloc: Global, nodes: usize) -> Result<Scratch, OutOfMemory>
        ensures { IfOk result (HasRoom nodes) }
    {
        Ok(Scratch {
            frames: Vec::with_capacity(alloc, nodes).map_err(|_| OutOfMemory)?,
            values: Vec::with_capacity(alloc, nodes).map_err(|_| OutOfMemory)?,
            places: Vec::with_capacity(alloc, nodes).map_err(|_| OutOfMemory)?,
        })
    }

    pub(crate) fn clear(&mut self)
        ensures frames { self.new.frames.items ≡ [] }
        ensures values { self.new.values.items ≡ [] }
        ensures room { (room : ℕ) → HasRoom room self.old → HasRoom room self.new }
    {
        self.frames.clear();
        self.values.clear();
    }
}
