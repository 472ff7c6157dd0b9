// Equations of unknowns, as a trait.
ghost use Rattle.std.specs.Prelude.{◌≡◌, ℕ, ◌+◌, ◌<◌, ◌≤◌, Bool, Option, None, IfOk, OnErr, length};
ghost use Rattle.dfdl_suspend.specs.Answers.{Meets, NamesBelow};
ghost use Rattle.dfdl_suspend.specs.Asks.{Asks, at, waiting};
ghost use Rattle.dfdl_suspend.specs.Outcomes.{IsOrder};
ghost use Rattle.dfdl_suspend.specs.Rounds.{Reached};
ghost use Rattle.dfdl_suspend.specs.declared.known.Held.{Held};

use crate::known::Known;
use dfdl_bits::Steps;
use dfdl_value::CellId;
use std::alloc::{AllocError, Global};
use std::sync::ledger::Ledger;

/// What the evaluation of an equation answers.
#[derive(Clone, Copy, Debug, PartialEq, Eq, Drop)]
pub enum Answer {
    /// a value, which was put
    Value,
    /// the equation waits for an unknown that has no value
    Wait(CellId),
    /// the number of a cause
    Fault(u8),
}

/// Equations, one for each of some unknowns, which contracts see as trees that ask for unknowns one after another.
pub trait Equations {
    // how many unknowns there are
    ghost unknowns: { Self → ℕ };
    // which of two unknowns is earlier
    ghost precedes: { Self → ℕ → ℕ → Bool };
    // the equation of each unknown
    ghost equation: { Self → ℕ → Asks Held };

    /// How many unknowns there are.
    fn count(&self) -> u32
        ensures { result ≡ unknowns self.now };

    /// Whether an unknown is earlier than another one.
    fn earlier(&self, a: CellId, b: CellId) -> bool
        requires first { a < unknowns self.now }
        requires second { b < unknowns self.now }
        ensures { result ≡ precedes self.now a b };

    /// Evaluates the equation of an unknown that has no value. It is one step.
    fn answer<L: Ledger>(
        &mut self,
        alloc: Global,
        cell: CellId,
        known: &mut Known,
        steps: &mut Steps<L>,
    ) -> Result<Answer, AllocError>
        requires cell { cell < unknowns self.old }
        requires room { unknowns self.old ≤ length known.old }
        requires fits { Reached (length known.old) (equation self.old) known.old }
        requires unassigned { at known.old cell ≡ None }
        ensures same { self.new ≡ self.old }
        ensures meets { IfOk result (Meets (equation self.old cell) cell known.old known.new) }
        ensures names { IfOk result (NamesBelow (unknowns self.old)) }
        ensures memory { OnErr result (known.new ≡ known.old) }
        ensures cost { steps.new ≡ steps.old + 1 };

    // the order is strict and total
    ghost order: { (s : Self) → IsOrder (unknowns s) (precedes s) };
    // an unknown that isn't there yet waits for itself
    ghost beyond: { (s : Self) (cell : ℕ) → unknowns s ≤ cell → equation s cell ≡ waiting cell };
}
