// Laws of the definitions that the contracts cite. The calls do nothing.
ghost use Rattle.std.specs.Prelude.{◌≡◌, ℕ, List, Option, slice_get};
ghost use Rattle.dfdl_cells.specs.Books.{Book};
ghost use Rattle.dfdl_cells.specs.Equations.{bits_of};
ghost use Rattle.dfdl_cells.specs.Plans.{Plan};
ghost use Rattle.dfdl_evaluation.specs.Written.{bits_at};
ghost use Rattle.dfdl_forms.specs.declared.order.BitOrder.{BitOrder};
ghost use Rattle.dfdl_suspend.specs.Asks.{Below, Gets, gives};
ghost use Rattle.dfdl_suspend.specs.declared.known.Held.{Held as HeldOf};

use dfdl_suspend::{Held, laws};

/// The bits of a piece that are known stay as they are while more is known.
pub fn bits_stay()
    ensures { (plan : Plan) (book : Book) (order : BitOrder) (cell : ℕ) (old new : List (Option HeldOf)) (value : HeldOf) → Below old new → (number : ℕ)
        → gives (bits_of plan book cell (slice_get book.pieces number)) old ≡ Gets value
        → bits_at plan book new order number ≡ bits_at plan book old order number }
{
    laws::value_stays::<Held>();
}
