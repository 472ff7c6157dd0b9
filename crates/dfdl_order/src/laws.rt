// Laws of the definitions. The calls do nothing.
ghost use Rattle.std.specs.Prelude.{◌≡◌, ◌+◌, ℕ, ◌<◌, List, map, length, get_or, slice_set, false};
ghost use Rattle.dfdl_order.specs.Parts.{uses_of, IsOrder, Places};
ghost use Rattle.dfdl_order.specs.Cycles.{reaches_itself};
ghost use Rattle.dfdl_order.specs.Folds.{value_by, HasBefore};

/// A component's value by recursion on parts is the step from the values of its parts.
pub fn value_is_the_step_from_those_of_parts<T>()
    ensures { (uses : List (List ℕ)) (order : Places) (step : ℕ → List T → T) (none : T) → IsOrder uses order
        → (c : ℕ) → c < length uses → value_by uses step none c ≡ step c (map (value_by uses step none) (uses_of uses c)) }
{}

/// A table that has the values of the components before a place of an order, and then the step's at the place, has
/// those before the next place.
pub fn table_has_one_more<T>()
    ensures { (uses : List (List ℕ)) (order : Places) (step : ℕ → List T → T) (none : T) → IsOrder uses order
        → (i : ℕ) (table : List T) (v : T) → i < length uses → length table ≡ length uses → HasBefore uses order step none i table
        → v ≡ step (get_or order.list i 0) (map (λ p. get_or table p none) (uses_of uses (get_or order.list i 0)))
        → HasBefore uses order step none (i + 1) (slice_set table (get_or order.list i 0) v) }
{}

/// Components that have an order don't reach themselves.
pub fn nothing_in_an_order_reaches_itself()
    ensures { (uses : List (List ℕ)) (order : Places) → IsOrder uses order → (c : ℕ) → c < length uses → reaches_itself uses c ≡ false }
{}
