// Laws of the definitions. The calls do nothing.
ghost use Rattle.std.specs.Prelude.{◌≡◌, ℕ, ◌<◌, List, Option, None, Some};
ghost use Rattle.dfdl_suspend.specs.Asks.{Asks, Gets, Faults, WaitsFor, at, gives, waiting, Below};
ghost use Rattle.dfdl_suspend.specs.Rounds.{solution, Reached, Closed, Grows};

/// A value that an equation gives stays the same while more is known.
pub fn value_stays<V>()
    ensures { (equation : Asks V) (a b : List (Option V)) (value : V) → Below a b → gives equation a ≡ Gets value → gives equation b ≡ Gets value }
{}

/// A fault that an equation gives stays the same while more is known.
pub fn fault_stays<V>()
    ensures { (equation : Asks V) (a b : List (Option V)) (cause : ℕ) → Below a b → gives equation a ≡ Faults cause → gives equation b ≡ Faults cause }
{}

/// An equation waits for an unknown as long as that one has no value.
pub fn wait_stays<V>()
    ensures { (equation : Asks V) (a b : List (Option V)) (cell : ℕ) → Below a b → gives equation a ≡ WaitsFor cell → at b cell ≡ None → gives equation b ≡ WaitsFor cell }
{}

/// An equation waits for an unknown without a value.
pub fn wait_open<V>()
    ensures { (equation : Asks V) (known : List (Option V)) (cell : ℕ) → gives equation known ≡ WaitsFor cell → at known cell ≡ None }
{}

/// What answers lead to, and no equation adds to, is the least solution.
pub fn solution_is<V>()
    ensures { (cells : ℕ) (equation : ℕ → Asks V) (known : List (Option V)) → Reached cells equation known → Closed cells equation known → known ≡ solution cells equation }
{}

/// What answers lead to is part of the least solution.
pub fn reached_least<V>()
    ensures { (cells : ℕ) (equation : ℕ → Asks V) (known : List (Option V)) → Reached cells equation known → Below known (solution cells equation) }
{}

/// What answers led to is what the equations after an event lead to.
pub fn reached_grows<V>()
    ensures { (cells : ℕ) (old new : ℕ → Asks V) (known : List (Option V)) → Grows old new → Reached cells old known → Reached cells new known }
{}

/// An unknown that waits for an event has no value.
pub fn reached_waiting<V>()
    ensures { (cells : ℕ) (equation : ℕ → Asks V) (known : List (Option V)) (cell : ℕ) → equation cell ≡ waiting cell → Reached cells equation known → at known cell ≡ None }
{}
