// Values that are expressions.
ghost use Rattle.std.specs.Prelude.{◌≡◌};
ghost use Rattle.dfdl_scope.specs.Expressions as values;

/// Whether the value of a property is an expression.
pub fn is_expression(value: &str) -> bool
    ensures { result ≡ values.is_expression value.now }
{
    match value.as_bytes() {
        [b'{', b'{', ..] => false,
        [b'{', ..] => true,
        _ => false,
    }
}

/// The text of a value that is no expression.
pub fn literal(value: &str) -> &str
    ensures { result.now ≡ values.literal value.now }
{
    if value.starts_with("{{") {
        &value[1..]
    } else {
        value
    }
}
