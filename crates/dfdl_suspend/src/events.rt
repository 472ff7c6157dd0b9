// What an event brings to a board.
ghost use Rattle.std.specs.Prelude.{◌≡◌, ◌↔◌, ℕ, ◌<◌, ◌≤◌, ◌++◌, [], IsErr, OnOk, OnErr, List, length};
ghost use Rattle.dfdl_suspend.specs.Asks.{Asks};
ghost use Rattle.dfdl_suspend.specs.Boards.{Fits, Runs};
ghost use Rattle.dfdl_suspend.specs.Events.{Brings, IsSettable, Taking};
ghost use Rattle.dfdl_suspend.specs.declared.known.Held.{Held};

use crate::board::{Board, Full};
use crate::equations::Equations;
use dfdl_value::CellId;

/// Takes up an event: adds the unknowns that are new and makes those ready that are given. It takes no memory, and is Full,
/// with nothing changed, exactly where there are more unknowns than the board was opened for.
pub fn take_up<E: Equations>(board: &mut Board, equations: &E, given: &[CellId]) -> Result<(), Full>
    requires brought { (before : ℕ → Asks Held) × Brings before (E.equation equations.now) given.now board.old }
    requires more { length board.old.marks ≤ E.unknowns equations.now }
    ensures full { IsErr result ↔ (length board.old.known < E.unknowns equations.now) }
    ensures unchanged { OnErr result (board.new ≡ board.old) }
    ensures known { board.new.known ≡ board.old.known }
    ensures fits { OnOk result (Fits (E.unknowns equations.now) (E.equation equations.now) board.new) }
    ensures runs { OnOk result ((before : ℕ → Asks Held) (ran were_set : List ℕ) → Brings before (E.equation equations.now) given.now board.old
        → Runs before board.old ran were_set → Runs (E.equation equations.now) board.new ran (were_set ++ given.now)) }
{
    let _ = board.ready();
    if equations.count() > board.known().cells() {
        return Err(Full);
    }
    add_new(board, equations.count());
    set_given(board, given);
    Ok(())
}

// Adds unknowns until there are so many.
fn add_new(board: &mut Board, count: u32)
    requires room { count ≤ length board.old.known }
    requires more { length board.old.marks ≤ count }
    ensures known { board.new.known ≡ board.old.known }
    ensures added { length board.new.marks ≡ count }
    ensures taking { (equation : ℕ → Asks Held) (left : List ℕ) → Taking equation left board.old → Taking equation left board.new }
    ensures runs { (equation : ℕ → Asks Held) (ran were_set : List ℕ) → Runs equation board.old ran were_set → Runs equation board.new ran were_set }
{
    'adding: for cell in board.added()..count {
        match board.add(CellId::new(cell)) {
            Ok(()) => {}
            Err(Full) => unreachable!(),
        }
    }
}

// Makes unknowns ready that wait for themselves.
fn set_given(board: &mut Board, given: &[CellId])
    requires { IsSettable given.now board.old.marks }
    ensures known { board.new.known ≡ board.old.known }
    ensures added { length board.new.marks ≡ length board.old.marks }
    ensures taking { (equation : ℕ → Asks Held) → Taking equation given.now board.old → Taking equation [] board.new }
    ensures runs { (equation : ℕ → Asks Held) (ran were_set : List ℕ) → Runs equation board.old ran were_set → Runs equation board.new ran (were_set ++ given.now) }
{
    for cell in given {
        board.set(*cell);
    }
}
