// The text of an expression inside of its braces.
ghost use Rattle.std.specs.Prelude.{◌≡◌, option_copied};
ghost use Rattle.dfdl_statements.specs.Braces as braces;

// What is behind the brace with which a text begins.
fn opened(text: &str) -> Option<&str>
    ensures { option_copied result ≡ braces.opened text.now }
{
    text.strip_prefix('{')
}

// What is before the brace with which a text ends.
fn closed(text: &str) -> Option<&str>
    ensures { option_copied result ≡ braces.closed text.now }
{
    text.strip_suffix('}')
}

/// What is between the braces with which a text begins and ends.
pub(crate) fn unbraced(text: &str) -> Option<&str>
    ensures { option_copied result ≡ braces.unbraced text.now }
{
    match opened(text) {
        Some(rest) => closed(rest),
        None => None,
    }
}
