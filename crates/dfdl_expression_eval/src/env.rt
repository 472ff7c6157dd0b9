// What stands around an expression, as a trait.
ghost use Rattle.std.specs.Prelude.{ℕ, Bool, true, ◌≡◌, IfOk, IsOk};
ghost use Rattle.dfdl_expression_eval.specs.Asks.{Query, Item, Count, Length, Variable, OccursIndex};
ghost use Rattle.dfdl_expression_eval.specs.Runs.{after_query};

use dfdl_expressions::{Extent, Path};
use dfdl_value::{CellId, Value};
use std::alloc::Global;
use thiserror::Error;

/// What an expression, or a question that it asks, comes to.
#[derive(Debug, PartialEq, Eq, Drop)]
pub enum Evaluated {
    /// a value
    Known(Value),
    /// the unknown that is needed next and has no value
    Wait(CellId),
    /// the number of a fault, from 1 to 7
    Fault(u8),
}

/// Memory was wanting.
#[derive(Clone, Copy, Debug, PartialEq, Eq, Error)]
#[error("out of memory")]
pub struct OutOfMemory;

/// An environment: the items, the lengths and the variables that an expression asks for.
///
/// A path comes with the places that its indexes name, in the order of its indexed steps. They count
/// from 1; 0 stands for an index that isn't whole or is below 1, and no item stands there.
pub trait Env {
    ghost use Rattle.dfdl_expression_eval.specs.declared.env.Evaluated.{Evaluated};

    // what each question is answered
    ghost answers: { Self → Query → Evaluated };
    // what the environment is after a variable was read
    ghost read: { Self → ℕ → Self };
    // whether its calls take no memory
    ghost is_lean: { Self → Bool };

    /// The value of the item that a path leads to.
    fn item(&mut self, alloc: Global, path: &Path, places: &[u64]) -> Result<Evaluated, OutOfMemory>
        ensures answer { IfOk result (λ e. e ≡ answers self.old (Item path.now places.now)) }
        ensures same { IfOk result (λ e. self.new ≡ self.old) }
        ensures lean { is_lean self.old ≡ true → IsOk result };

    /// The number of the items that a path leads to.
    fn count(
        &mut self,
        alloc: Global,
        path: &Path,
        places: &[u64],
    ) -> Result<Evaluated, OutOfMemory>
        ensures answer { IfOk result (λ e. e ≡ answers self.old (Count path.now places.now)) }
        ensures same { IfOk result (λ e. self.new ≡ self.old) }
        ensures lean { is_lean self.old ≡ true → IsOk result };

    /// The length in bits of the item that a path leads to.
    fn length(
        &mut self,
        alloc: Global,
        path: &Path,
        places: &[u64],
        extent: Extent,
    ) -> Result<Evaluated, OutOfMemory>
        ensures answer { IfOk result (λ e. e ≡ answers self.old (Length path.now places.now extent)) }
        ensures same { IfOk result (λ e. self.new ≡ self.old) }
        ensures lean { is_lean self.old ≡ true → IsOk result };

    /// The value of the variable of a number.
    fn variable(&mut self, alloc: Global, number: u32) -> Result<Evaluated, OutOfMemory>
        ensures answer { IfOk result (λ e. e ≡ answers self.old (Variable number)) }
        ensures reads { IfOk result (λ e. self.new ≡ read self.old number) }
        ensures lean { is_lean self.old ≡ true → IsOk result };

    /// The number of the innermost occurrence.
    fn occurs_index(&mut self, alloc: Global) -> Result<Evaluated, OutOfMemory>
        ensures answer { IfOk result (λ e. e ≡ answers self.old OccursIndex) }
        ensures same { IfOk result (λ e. self.new ≡ self.old) }
        ensures lean { is_lean self.old ≡ true → IsOk result };

    // reading a variable changes no answer
    ghost steady: { (s : Self) (number : ℕ) → answers (read s number) ≡ answers s };
    // nor does it make the calls take memory
    ghost lean_stays: { (s : Self) (number : ℕ) → is_lean (read s number) ≡ is_lean s };
}
