// Lists of operands.
ghost use Rattle.std.specs.Prelude.{◌≡◌};
ghost use Rattle.std.specs.List.{slice_get};
ghost use Rattle.dfdl_expressions.specs.Nodes.{are_below};

use std::marker::Model;

/// Operands by the numbers of their nodes, in their order. A contract sees them as their list.
#[derive(Debug, Drop)]
pub struct Operands {
    numbers: Vec<u32>,
}

impl Model for Operands {
    ghost use Rattle.std.specs.Prelude.{List, ℕ};

    ghost Value = { List ℕ };

    ghost view = { λ o. o.numbers.items };
}

impl Operands {
    /// Takes the numbers as they are, and no memory.
    pub fn from_vec(numbers: Vec<u32>) -> Operands
        ensures { result ≡ numbers.items }
    {
        Operands { numbers }
    }

    pub fn as_slice(&self) -> &[u32]
        ensures { result.now ≡ self.now }
    {
        self.numbers.as_slice()
    }
}

pub(crate) fn number_at(numbers: &[u32], place: usize) -> Option<u32>
    ensures { result ≡ slice_get numbers.now place }
{
    numbers.get(place).copied()
}

pub(crate) fn are_below(numbers: &[u32], bound: u32) -> bool
    ensures { result ≡ are_below bound numbers.now }
{
    numbers.iter().all(|number| *number < bound)
}
