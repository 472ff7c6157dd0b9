// The numbers of the unknowns of an unparse.
ghost use Rattle.std.specs.Prelude.{◌≡◌};

use std::marker::Model;

/// The number of an unknown, from 0 in the order of making.
#[derive(Clone, Copy, Debug, PartialEq, Eq)]
pub struct CellId {
    number: u32,
}

impl Model for CellId {
    ghost use Rattle.std.specs.Prelude.{ℕ};

    ghost Value = { ℕ };

    ghost view = { λ c. c.number };

    ghost inverse = { λ n. record { number = n } };
}

impl CellId {
    pub fn new(number: u32) -> CellId
        ensures { result ≡ number }
    {
        CellId { number }
    }

    pub fn number(self) -> u32
        ensures { result ≡ self }
    {
        self.number
    }
}
