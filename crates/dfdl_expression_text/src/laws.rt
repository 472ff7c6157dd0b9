// What the definitions say of expressions, as laws. The calls do nothing.
ghost use Rattle.std.specs.Prelude.{◌≡◌, ◌⊎◌, ℕ, List};
ghost use Rattle.dfdl_expression_text.specs.Expressions.{IsExpression, ReadsBytes};

/// However a text is read by the grammar of 'DFDL Expression Language', it has one number of tokens.
pub fn tokens_are_counted()
    ensures { (first second : ℕ) (bytes : List ℕ) → ReadsBytes first bytes → ReadsBytes second bytes → first ≡ second }
{}

/// Each text is an expression, or it isn't one.
pub fn texts_are_decided()
    ensures { (bytes : List ℕ) → IsExpression bytes ⊎ (IsExpression bytes → ⊥) }
{}
