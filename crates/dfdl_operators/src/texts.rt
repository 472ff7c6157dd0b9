// The functions on texts. A contract sees a text as the list of its UTF-8 bytes.
ghost use Rattle.std.specs.Prelude.{◌≡◌, ◌↔◌, ◌==◌, length, true, IfOk, IfErr, Some, None};
ghost use Rattle.std.specs.List.{starts_with, ends_with};
ghost use Rattle.std.specs.Str.{chars};
ghost use Rattle.std.specs.Str.Iter.{HasSubslice};
ghost use Rattle.dfdl_operators.specs.Constructors.{IsAnswer};
ghost use Rattle.dfdl_operators.specs.TextFunctions.{concatenation, text_of_value};
ghost use Rattle.dfdl_operators.specs.declared.fault.OperatorFault.TheVariants.{WrongType};

use super::fault::{FunctionFault, OperatorFault};
use dfdl_value::{TextValue, Value};
use std::alloc::Global;

/// The text that a value is.
pub fn text_in(value: &Value) -> Result<&str, OperatorFault>
    ensures ok { IfOk result (λ t. text_of_value value.now ≡ Some t.now) }
    ensures none { IfErr result (λ e. text_of_value value.now ≡ None) }
    ensures fault { IfErr result (λ e. e ≡ WrongType) }
{
    match value {
        Value::Text(text) => Ok(text.as_str()),
        Value::Int(_) | Value::Uns(_) | Value::Dec(_) | Value::Truth(_) | Value::Bytes(_) => {
            Err(OperatorFault::WrongType)
        }
    }
}

/// The function `string-length`: the number of characters.
pub fn string_length(text: &str) -> usize
    ensures { result ≡ length (chars text.now) }
{
    text.chars().count()
}

/// The function `contains`: whether the part stands anywhere in the text.
pub fn contains(text: &str, part: &str) -> bool
    ensures { (result ≡ true) ↔ HasSubslice text.now part.now }
{
    text.contains(part)
}

/// The function `starts-with`.
pub fn starts_with(text: &str, part: &str) -> bool
    ensures { result ≡ starts_with ◌==◌ text.now part.now }
{
    text.starts_with(part)
}

/// The function `ends-with`.
pub fn ends_with(text: &str, part: &str) -> bool
    ensures { result ≡ ends_with ◌==◌ text.now part.now }
{
    text.ends_with(part)
}

/// The function `concat`: the texts one behind the other.
pub fn concat(alloc: Global, parts: &[Value]) -> Result<Value, FunctionFault>
    ensures { IsAnswer (concatenation parts.now) result }
{
    let mut text = String::new(alloc);
    for part in parts {
        match text_in(part) {
            Ok(piece) => {
                if text.push_str(piece).is_err() {
                    return Err(FunctionFault::OutOfMemory);
                }
            }
            Err(fault) => return Err(FunctionFault::Fault(fault)),
        }
    }
    Ok(Value::Text(TextValue::from_string(text)))
}
