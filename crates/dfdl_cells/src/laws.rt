// Laws of the definitions. The calls do nothing.
ghost use Rattle.std.specs.Prelude.{ℕ, ◌≡◌, ◌≢◌, Some, slice_get};
ghost use Rattle.dfdl_cells.specs.Books.{Book as BookOf};
ghost use Rattle.dfdl_cells.specs.Equations.{equation_in};
ghost use Rattle.dfdl_cells.specs.Growth.{Grows, HaveSlots, IsSettled};
ghost use Rattle.dfdl_cells.specs.Plans.{Plan};
ghost use Rattle.dfdl_cells.specs.declared.cell.Cell.{Cell as CellOf};
ghost use Rattle.dfdl_cells.specs.declared.cell.Cell.TheVariants.{Waiting};

/// The equation of an unknown stays as more is laid, unless the unknown waits for an event.
pub fn equations_stay()
    ensures { (plan : Plan) (old new : BookOf) → Grows old new → IsSettled old → HaveSlots old → (cell : ℕ) (one : CellOf)
        → slice_get old.cells cell ≡ Some one → one ≢ Waiting → equation_in plan new cell ≡ equation_in plan old cell }
{}
