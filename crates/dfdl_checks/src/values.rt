// Whether a text is a value of a property.
ghost use Rattle.std.specs.Prelude.{◌≡◌, map};
ghost use Rattle.std.specs.Str.{all_ascii_digits};
ghost use Rattle.dfdl_checks.specs.Values as values;
ghost use Rattle.dfdl_scope.specs.TableShown.{values_shown};

use crate::encodings::encoding_named;
use dfdl_scope::{Form, Values, is_expression, literal};

/// Whether what is written is a value.
pub(crate) fn is_value(allowed: Values, written: &str) -> bool
    ensures { result ≡ values.is_value (values_shown allowed) written.now }
{
    if is_expression(written) {
        takes_expressions(allowed)
    } else {
        is_plain_value(allowed, literal(written))
    }
}

/// Whether expressions are among the values.
pub(crate) fn takes_expressions(allowed: Values) -> bool
    ensures { result ≡ values.takes_expressions (values_shown allowed) }
{
    match allowed {
        Values::Words(_) => false,
        Values::Range { .. } => false,
        Values::Form(form) => is_expression_form(form),
    }
}

/// Whether values of a form may be expressions.
fn is_expression_form(form: Form) -> bool
    ensures { result ≡ values.is_expression_form form }
{
    match form {
        Form::Expression | Form::NumberOrExpression => true,
        _ => false,
    }
}

/// Whether a text that is no expression is one of the values.
fn is_plain_value(allowed: Values, text: &str) -> bool
    ensures { result ≡ values.is_plain_value (values_shown allowed) text.now }
{
    match allowed {
        Values::Words(words) => is_among(words, text),
        Values::Range { least, most } => is_within(least, most, text),
        Values::Form(form) => has_form(form, text),
    }
}

/// Whether a text has a form.
fn has_form(form: Form, text: &str) -> bool
    ensures { result ≡ values.has_form form text.now }
{
    match form {
        Form::Encoding => encoding_named(text).is_some(),
        Form::Number => is_number(text),
        Form::NumberOrEmpty => text.is_empty() || is_number(text),
        Form::NumberOrExpression => is_number(text),
        Form::Alignment => text == "implicit" || is_within(1, 65536, text),
        Form::Expression => false,
        _ => true,
    }
}

/// Whether a text is one of some words.
pub(crate) fn is_among(words: &[&str], text: &str) -> bool
    ensures { result ≡ values.is_among (map (λ word. word.now) words.now) text.now }
{
    for word in words {
        if text == *word {
            return true;
        }
    }
    false
}

/// Whether a text is a number in decimal digits.
pub(crate) fn is_number(text: &str) -> bool
    ensures { result ≡ values.is_number text.now }
{
    !text.is_empty() && are_digits(text.as_bytes())
}

/// Whether each byte is a decimal digit.
fn are_digits(bytes: &[u8]) -> bool
    ensures { result ≡ all_ascii_digits bytes.now }
{
    for byte in bytes {
        if !byte.is_ascii_digit() {
            return false;
        }
    }
    true
}

/// Whether a text is a number from the first to the second.
pub(crate) fn is_within(least: u64, most: u64, text: &str) -> bool
    ensures { result ≡ values.is_within least most text.now }
{
    if !is_number(text) {
        return false;
    }
    match text.parse::<u64>() {
        Ok(number) => least <= number && number <= most,
        Err(_) => false,
    }
}

/// The number that digits stand for, if it is one from the first to the second.
pub(crate) fn number_within(least: u32, most: u32, text: &str) -> Option<u32>
    ensures { result ≡ values.number_within least most text.now }
{
    if !is_within(u64::from(least), u64::from(most), text) {
        return None;
    }
    match text.parse::<u32>() {
        Ok(number) => Some(number),
        Err(_) => None,
    }
}
