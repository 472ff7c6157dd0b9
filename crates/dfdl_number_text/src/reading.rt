// The reading of a text number.
ghost use Rattle.std.specs.Prelude.{◌≡◌};
ghost use Rattle.dfdl_forms.specs.NumberForms.{IsNumberForm};
ghost use Rattle.dfdl_number_text.specs.NumberReading.{pattern_number as pattern_number_of, reading, signed_number as signed_number_of};
ghost use Rattle.dfdl_number_text.specs.ReadShown.{Shows};

use crate::body::body_number;
use crate::fault::NumberFault;
use crate::read_affix::between;
use crate::read_base::read_in_base;
use crate::read_number::{Number, value_of};
use dfdl_forms::{NumberForm, NumberPattern};
use dfdl_value::{Simple, Value};

fn signed_number(
    form: &NumberForm,
    pattern: &NumberPattern,
    negative: bool,
    prefix: &[char],
    suffix: &[char],
    text: &[char],
) -> Option<Number>
    ensures { Shows result (signed_number_of form.now pattern.now negative prefix.now suffix.now text.now) }
{
    match between(text, prefix, suffix) {
        Some(body) => body_number(form, pattern, negative, body),
        None => None,
    }
}

/// The number that a text writes by a pattern, if it writes one.
fn pattern_number(form: &NumberForm, pattern: &NumberPattern, text: &[char]) -> Option<Number>
    ensures { Shows result (pattern_number_of form.now pattern.now text.now) }
{
    match signed_number(
        form,
        pattern,
        false,
        pattern.prefix.as_slice(),
        pattern.suffix.as_slice(),
        text,
    ) {
        Some(number) => Some(number),
        None => signed_number(
            form,
            pattern,
            true,
            pattern.negative_prefix.as_slice(),
            pattern.negative_suffix.as_slice(),
            text,
        ),
    }
}

/// The value of a type that a text number is. No memory is taken.
pub fn read(form: &NumberForm, kind: Simple, chars: &[char]) -> Result<Value, NumberFault>
    requires form { IsNumberForm form.now }
    ensures { result ≡ reading form.now kind chars.now }
{
    match &form.pattern {
        Some(pattern) => value_of(kind, pattern_number(form, pattern, chars)),
        None => read_in_base(form.base, kind, chars),
    }
}
