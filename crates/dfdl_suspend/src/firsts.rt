// The first unknown without a value, and the earlier one of two faults.
ghost use Rattle.std.specs.Prelude.{◌≡◌, ℕ, ◌+◌, ◌<◌, ◌≤◌, List, Option, None, IfSome};
ghost use Rattle.dfdl_suspend.specs.Asks.{Faults, gives};
ghost use Rattle.dfdl_suspend.specs.Outcomes.{IsBest, IsOpen, IsFirstFault};
ghost use Rattle.dfdl_suspend.specs.declared.known.Held.{Held};

use crate::equations::Equations;
use crate::known::Known;
use dfdl_value::CellId;

// The first unknown without a value, of those up to this one.
fn open_with<E: Equations>(
    equations: &E,
    known: &Known,
    best: Option<CellId>,
    cell: CellId,
) -> Option<CellId>
    requires cell { cell < E.unknowns equations.now }
    requires best { IsBest (E.precedes equations.now) cell (IsOpen known.now) best }
    ensures { IsBest (E.precedes equations.now) (cell + 1) (IsOpen known.now) result }
{
    if known.get(cell).is_some() {
        return best;
    }
    let Some(other) = best else {
        return Some(cell);
    };
    if equations.earlier(cell, other) {
        Some(cell)
    } else {
        Some(other)
    }
}

// The first unknown without a value.
pub(crate) fn first_open<E: Equations>(equations: &E, known: &Known) -> Option<CellId>
    ensures { IsBest (E.precedes equations.now) (E.unknowns equations.now) (IsOpen known.now) result }
{
    let mut best = None;
    for cell in 0..equations.count() {
        best = open_with(equations, known, best, CellId::new(cell));
    }
    best
}

// The first fault of those up to a faulty unknown.
pub(crate) fn fault_with<E: Equations>(
    equations: &E,
    best: Option<(CellId, u8)>,
    cell: CellId,
    cause: u8,
) -> Option<(CellId, u8)>
    requires cell { cell < E.unknowns equations.now }
    requires best { IfSome best (λ found. found.0 < E.unknowns equations.now) }
    ensures { (known : List (Option Held)) → gives (E.equation equations.now cell) known ≡ Faults cause
        → IsFirstFault (E.precedes equations.now) cell (E.equation equations.now) known best
        → IsFirstFault (E.precedes equations.now) (cell + 1) (E.equation equations.now) known result }
{
    match best {
        None => Some((cell, cause)),
        Some(found) => {
            if equations.earlier(cell, found.0) {
                Some((cell, cause))
            } else {
                Some(found)
            }
        }
    }
}
