// The local names of elements by numbers.
ghost use Rattle.std.specs.Prelude.{◌≡◌, None, slice_index_or};

use super::row::RowId;
use std::marker::Model;

/// The number of the local name of each row's element, so that a step of a path compares numbers ('DFDL Expression Language').
#[derive(Debug, Drop)]
pub struct NameNumbers {
    numbers: Vec<Option<usize>>,
}

impl Model for NameNumbers {
    ghost use Rattle.std.specs.Prelude.{List, Option, ℕ};

    ghost Value = { List (Option ℕ) };

    ghost view = { λ n. n.numbers.items };
}

impl NameNumbers {
    /// Takes the numbers as they are, and no memory.
    pub fn from_vec(numbers: Vec<Option<usize>>) -> NameNumbers
        ensures { result ≡ numbers.items }
    {
        NameNumbers { numbers }
    }

    /// The number of the name of a row's element, if it has one.
    pub fn number(&self, row: RowId) -> Option<usize>
        ensures { result ≡ slice_index_or self.now row None }
    {
        match self.numbers.get(row.number() as usize) {
            Some(number) => *number,
            None => None,
        }
    }
}
