// Laws of the definitions. The calls do nothing.
ghost use Rattle.std.specs.Prelude.{ℕ, ◌≡◌};
ghost use Rattle.dfdl_expression_eval.specs.Asks.{Asks, IsLarger, IsSettled, Query, gives};
ghost use Rattle.dfdl_expression_eval.specs.declared.env.Evaluated.{Evaluated as EvaluatedOf};
ghost use Rattle.dfdl_expression_eval.specs.declared.env.Evaluated.TheVariants.{Wait};

/// A value or a fault that an expression gives stays the same while more is known.
pub fn settled_stays()
    ensures { (asks : Asks) (less more : Query → EvaluatedOf) → IsLarger less more
        → IsSettled (gives asks less) → gives asks more ≡ gives asks less }
{}

/// Where an expression waits, one of its questions waits for that unknown.
pub fn wait_is_asked()
    ensures { (asks : Asks) (answers : Query → EvaluatedOf) (unknown : ℕ)
        → gives asks answers ≡ Wait unknown → (query : Query) × (answers query ≡ Wait unknown) }
{}

/// An expression waits for an unknown as long as the questions that wait for that one do so.
pub fn wait_stays()
    ensures { (asks : Asks) (less more : Query → EvaluatedOf) (unknown : ℕ) → IsLarger less more
        → ((query : Query) → less query ≡ Wait unknown → more query ≡ Wait unknown)
        → gives asks less ≡ Wait unknown → gives asks more ≡ Wait unknown }
{}
