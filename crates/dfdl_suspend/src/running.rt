// The board run until no unknown is ready, in the order that a chooser picks.
ghost use Rattle.std.specs.Prelude.{◌≡◌, ℕ, ◌-◌, OnOk, List, length};
ghost use Rattle.dfdl_suspend.specs.Boards.{Fits, Runs, WentOn, failed};
ghost use Rattle.dfdl_suspend.specs.Rises.{RoseBy};
ghost use Rattle.dfdl_suspend.specs.Rounds.{solution};

use crate::board::Board;
use crate::chooser::Chooser;
use crate::equations::Equations;
use dfdl_bits::Steps;
use std::alloc::{AllocError, Global};
use std::sync::ledger::Ledger;

/// Runs unknowns, as the chooser picks them, until none is ready. Then what is known is the least solution.
pub fn run_all<E: Equations, C: Chooser, L: Ledger>(
    alloc: Global,
    board: &mut Board,
    equations: &mut E,
    chooser: &mut C,
    steps: &mut Steps<L>,
) -> Result<(), AllocError>
    requires fits { Fits (E.unknowns equations.old) (E.equation equations.old) board.old }
    ensures same { equations.new ≡ equations.old }
    ensures fits { Fits (E.unknowns equations.old) (E.equation equations.old) board.new }
    ensures none_ready { OnOk result (length board.new.ready ≡ 0) }
    ensures least { OnOk result (board.new.known ≡ solution (length board.old.known) (E.equation equations.old)) }
    ensures room { length board.new.known ≡ length board.old.known }
    ensures picks { RoseBy (steps.new - steps.old) (C.picks chooser.old) (C.picks chooser.new) }
    ensures runs { (ran were_set : List ℕ) → Runs (E.equation equations.old) board.old ran were_set → WentOn (E.equation equations.old) board.new ran were_set (steps.new - steps.old - failed result) }
{
    'running: while board.ready() > 0 {
        let choice = chooser.pick(board.ready());
        board.run_one(alloc, equations, choice, steps)?;
    }
    Ok(())
}
