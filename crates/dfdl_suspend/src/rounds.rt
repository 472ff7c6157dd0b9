// The plain slow way: rounds over all unknowns until none gets a value.
ghost use Rattle.std.specs.Prelude.{◌≡◌, ℕ, ◌+◌, ◌<◌, ◌≤◌, Bool, true, false, List, Option, None, IfOk, length};
ghost use Rattle.dfdl_suspend.specs.Asks.{Asks, at, filled};
ghost use Rattle.dfdl_suspend.specs.Outcomes.{IsBest, IsFirstFault, IsOpen, IsOutcome};
ghost use Rattle.dfdl_suspend.specs.Rounds.{Reached, Closed, solution};
ghost use Rattle.dfdl_suspend.specs.Tries.{Tried};
ghost use Rattle.dfdl_suspend.specs.declared.known.Held.{Held};

use crate::equations::{Answer, Equations};
use crate::firsts::{fault_with, first_open};
use crate::known::Known;
use crate::solved::Solved;
use dfdl_bits::Steps;
use dfdl_value::CellId;
use std::alloc::{AllocError, Global};
use std::sync::ledger::Ledger;

// Evaluates an unknown that has no value, and says whether it got one.
fn try_cell<E: Equations, L: Ledger>(
    alloc: Global,
    equations: &mut E,
    cell: CellId,
    known: &mut Known,
    steps: &mut Steps<L>,
) -> Result<bool, AllocError>
    requires cell { cell < E.unknowns equations.old }
    requires room { E.unknowns equations.old ≡ length known.old }
    requires fits { Reached (length known.old) (E.equation equations.old) known.old }
    ensures same { equations.new ≡ equations.old }
    ensures tried { IfOk result (Tried (E.equation equations.old) cell known.old known.new) }
{
    if known.get(cell).is_some() {
        return Ok(false);
    }
    match equations.answer(alloc, cell, known, steps)? {
        Answer::Value => Ok(true),
        Answer::Wait(_) | Answer::Fault(_) => Ok(false),
    }
}

// Evaluates each unknown that has no value, and says whether one got a value.
fn one_round<E: Equations, L: Ledger>(
    alloc: Global,
    equations: &mut E,
    known: &mut Known,
    steps: &mut Steps<L>,
) -> Result<bool, AllocError>
    requires room { E.unknowns equations.old ≡ length known.old }
    requires fits { Reached (length known.old) (E.equation equations.old) known.old }
    ensures same { equations.new ≡ equations.old }
    ensures room { IfOk result (λ moved. length known.new ≡ length known.old) }
    ensures fits { IfOk result (λ moved. Reached (length known.old) (E.equation equations.old) known.new) }
    ensures moved { IfOk result (λ moved. moved ≡ true → filled known.old < filled known.new) }
    ensures still { IfOk result (λ moved. moved ≡ false → Closed (length known.old) (E.equation equations.old) known.new) }
{
    let mut moved = false;
    for cell in 0..equations.count() {
        let tried = try_cell(alloc, equations, CellId::new(cell), known, steps)?;
        moved |= tried;
    }
    Ok(moved)
}

// The values of all unknowns that get one, by rounds.
fn known_by_rounds<E: Equations, L: Ledger>(
    alloc: Global,
    equations: &mut E,
    steps: &mut Steps<L>,
) -> Result<Known, AllocError>
    ensures same { equations.new ≡ equations.old }
    ensures room { IfOk result (λ known. E.unknowns equations.old ≡ length known) }
    ensures fits { IfOk result (λ known. Reached (length known) (E.equation equations.old) known) }
    ensures still { IfOk result (λ known. Closed (length known) (E.equation equations.old) known) }
{
    let mut known = Known::open(alloc, equations.count())?;
    'rounds: while one_round(alloc, equations, &mut known, steps)? {}
    Ok(known)
}

// The first fault of the unknowns up to this one, where no unknown gets a value any more.
fn fault_up_to<E: Equations, L: Ledger>(
    alloc: Global,
    equations: &mut E,
    best: Option<(CellId, u8)>,
    cell: CellId,
    known: &mut Known,
    steps: &mut Steps<L>,
) -> Result<Option<(CellId, u8)>, AllocError>
    requires cell { cell < E.unknowns equations.old }
    requires room { E.unknowns equations.old ≡ length known.old }
    requires fits { Reached (length known.old) (E.equation equations.old) known.old }
    requires still { Closed (length known.old) (E.equation equations.old) known.old }
    requires best { IsFirstFault (E.precedes equations.old) cell (E.equation equations.old) known.old best }
    ensures same { equations.new ≡ equations.old }
    ensures kept { known.new ≡ known.old }
    ensures fault { IfOk result (IsFirstFault (E.precedes equations.old) (cell + 1) (E.equation equations.old) known.old) }
{
    if known.get(cell).is_some() {
        return Ok(best);
    }
    match equations.answer(alloc, cell, known, steps)? {
        Answer::Fault(cause) => Ok(fault_with(equations, best, cell, cause)),
        Answer::Wait(_) => Ok(best),
        Answer::Value => unreachable!(),
    }
}

// The first fault, where no unknown gets a value any more.
fn first_fault_by_rounds<E: Equations, L: Ledger>(
    alloc: Global,
    equations: &mut E,
    known: &mut Known,
    steps: &mut Steps<L>,
) -> Result<Option<(CellId, u8)>, AllocError>
    requires room { E.unknowns equations.old ≡ length known.old }
    requires fits { Reached (length known.old) (E.equation equations.old) known.old }
    requires still { Closed (length known.old) (E.equation equations.old) known.old }
    ensures same { equations.new ≡ equations.old }
    ensures kept { known.new ≡ known.old }
    ensures fault { IfOk result (IsFirstFault (E.precedes equations.old) (E.unknowns equations.old) (E.equation equations.old) known.old) }
{
    let mut best = None;
    for cell in 0..equations.count() {
        best = fault_up_to(alloc, equations, best, CellId::new(cell), known, steps)?;
    }
    Ok(best)
}

// What unknowns come to, by the first fault and the first unknown without a value.
fn outcome_of(fault: Option<(CellId, u8)>, unassigned: Option<CellId>) -> Solved
    ensures { (earlier : ℕ → ℕ → Bool) (count : ℕ) (equation : ℕ → Asks Held) (known : List (Option Held)) → IsFirstFault earlier count equation known fault
        → IsBest earlier count (IsOpen known) unassigned → IsOutcome earlier count equation known result }
{
    match fault {
        Some((cell, cause)) => Solved::Fault(cell, cause),
        None => match unassigned {
            Some(cell) => Solved::Cycle(cell),
            None => Solved::All,
        },
    }
}

/// The least solution of equations and what it comes to.
#[derive(Drop)]
pub struct Solution {
    pub known: Known,
    pub outcome: Solved,
}

/// Solves equations by rounds: the plain slow way.
pub fn solve_by_rounds<E: Equations, L: Ledger>(
    alloc: Global,
    equations: &mut E,
    steps: &mut Steps<L>,
) -> Result<Solution, AllocError>
    ensures same { equations.new ≡ equations.old }
    ensures solution { IfOk result (λ found. found.known ≡ solution (E.unknowns equations.old) (E.equation equations.old)) }
    ensures outcome { IfOk result (λ found. IsOutcome (E.precedes equations.old) (E.unknowns equations.old) (E.equation equations.old) found.known found.outcome) }
{
    let mut known = known_by_rounds(alloc, equations, steps)?;
    let fault = first_fault_by_rounds(alloc, equations, &mut known, steps)?;
    let outcome = outcome_of(fault, first_open(equations, &known));
    Ok(Solution { known, outcome })
}
