// The writing of a value as text.
ghost use Rattle.std.specs.Prelude.{◌≡◌, ◌<◌, ◌≤◌, ◌^◌, ◌++◌, length, IfOk, OnOk, string_bytes};
ghost use Rattle.std.specs.Str.{IsAscii};
ghost use Rattle.dfdl_value.specs.Writing.{minus_of, padded_decimal, pointed as pointed_of, decimal_text as decimal_text_of};

use super::held::TextValue;
use super::value::Value;
use dfdl_decimal::Fixed;
use std::alloc::{AllocError, Global};

/// The digits of a number, with zeros before them where they are fewer than `least`.
fn padded_digits(alloc: Global, number: u128, least: usize) -> Result<String, AllocError>
    ensures digits { IfOk result (λ t. string_bytes t ≡ padded_decimal least number) }
    ensures ascii { IfOk result (λ t. IsAscii (string_bytes t)) }
    ensures some { IfOk result (λ t. least ≤ length (string_bytes t)) }
{
    format!(in alloc; "{number:0>least$}")
}

/// Writes digits with a point before the last `scale` of them.
fn push_pointed(text: &mut String, digits: &str, scale: usize) -> Result<(), AllocError>
    requires ascii { IsAscii digits.now }
    requires some { scale < length digits.now }
    ensures { OnOk result (string_bytes text.new
        ≡ string_bytes text.old ++ pointed_of scale digits.now) }
{
    let (whole, fraction) = digits.split_at(digits.len() - scale);
    text.push_str(whole)?;
    if scale > 0 {
        text.push('.')?;
        text.push_str(fraction)?;
    }
    Ok(())
}

/// The number with a digit or more before the point.
fn decimal_text(alloc: Global, number: Fixed) -> Result<String, AllocError>
    ensures { IfOk result (λ t. string_bytes t ≡ decimal_text_of number) }
{
    let scale = usize::from(number.scale());
    let mantissa = number.mantissa();
    let digits = padded_digits(alloc, mantissa.unsigned_abs(), scale + 1)?;
    let mut text = String::new(alloc);
    if mantissa < 0 {
        text.push('-')?;
    }
    push_pointed(&mut text, digits.as_str(), scale)?;
    Ok(text)
}

impl Value {
    ghost use Rattle.std.specs.Prelude.{◌≡◌, IfOk};
    ghost use Rattle.dfdl_value.specs.Writing.{text_of};

    /// The text that the value is written as.
    pub fn text(&self, alloc: Global) -> Result<TextValue, AllocError>
        ensures { IfOk result (λ t. t ≡ text_of self.now) }
    {
        match self {
            Value::Int(number) => Ok(TextValue::from_string(format!(in alloc; "{number}")?)),
            Value::Uns(number) => Ok(TextValue::from_string(format!(in alloc; "{number}")?)),
            Value::Truth(truth) => Ok(TextValue::from_string(format!(in alloc; "{truth}")?)),
            Value::Bytes(bytes) => Ok(TextValue::from_string(hex::encode_upper(
                alloc,
                bytes.as_slice(),
            )?)),
            Value::Text(text) => text.copy(alloc),
            Value::Dec(number) => Ok(TextValue::from_string(decimal_text(alloc, *number)?)),
        }
    }
}
