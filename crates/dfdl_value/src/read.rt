// The reading of a value from its text.
ghost use Rattle.std.specs.Prelude.{◌≡◌, ◌↔◌, Ok, Err, IfOk, IfErr, IsErrOf};
ghost use Rattle.dfdl_value.specs.declared.read.ReadFault.TheVariants.{OutOfMemory};
ghost use Rattle.dfdl_value.specs.declared.value.Value.TheVariants.{Text};

use super::decimal::read_decimal;
use super::held::TextValue;
use super::integer::{read_signed, read_unsigned};
use super::octets::{read_bytes, read_truth};
use super::text::trimmed;
use super::value::Value;
use dfdl_forms::{Form, Simple};
use std::alloc::Global;
use thiserror::Error;

/// Why a text or a number is no value of a type.
#[derive(Clone, Copy, Debug, PartialEq, Eq, Error)]
pub enum NoValue {
    /// It is none of the type's.
    #[error("no value of the type")]
    NotAValue,
    /// It is a number outside of the type.
    #[error("a number outside of the type")]
    PastType,
}

/// Why a text gives no value of a type.
#[derive(Clone, Copy, Debug, PartialEq, Eq, Error)]
pub enum ReadFault {
    /// It is none of the type's texts.
    #[error("no value of the type")]
    NotAValue,
    /// It writes a number that is outside of the type.
    #[error("a number outside of the type")]
    PastType,
    #[error("out of memory")]
    OutOfMemory,
}

fn read_text(alloc: Global, text: &str) -> Result<Value, ReadFault>
    ensures value { IfOk result (λ v. v ≡ Text text.now) }
    ensures fault { IfErr result (λ e. e ≡ OutOfMemory) }
{
    match TextValue::from_str(alloc, text) {
        Ok(held) => Ok(Value::Text(held)),
        Err(_) => Err(ReadFault::OutOfMemory),
    }
}

// What is read without memory.
fn told(read: Result<Value, NoValue>) -> Result<Value, ReadFault>
    ensures value { IfOk result (λ v. read ≡ Ok v) }
    ensures not_a_value { IsErrOf result ReadFault.NotAValue ↔ (read ≡ Err NoValue.NotAValue) }
    ensures past_type { IsErrOf result ReadFault.PastType ↔ (read ≡ Err NoValue.PastType) }
    ensures memory { ¬ IsErrOf result ReadFault.OutOfMemory }
{
    match read {
        Ok(value) => Ok(value),
        Err(NoValue::NotAValue) => Err(ReadFault::NotAValue),
        Err(NoValue::PastType) => Err(ReadFault::PastType),
    }
}

impl Value {
    ghost use Rattle.std.specs.Prelude.{◌≡◌, ◌↔◌, Ok, Err, IfOk, IsErrOf};
    ghost use Rattle.dfdl_value.specs.ReadValues.{reading_of};
    ghost use Rattle.dfdl_forms.specs.Types.{form_of};
    ghost use Rattle.dfdl_value.specs.Types.{IsOfType, HoldsMemory};

    /// The value that a text writes. Memory is taken for a string and for hexBinary alone.
    pub fn read(alloc: Global, kind: Simple, text: &str) -> Result<Value, ReadFault>
        ensures value { IfOk result (λ v. reading_of kind text.now ≡ Ok v) }
        ensures typed { IfOk result (IsOfType kind) }
        ensures not_a_value { IsErrOf result ReadFault.NotAValue
            ↔ (reading_of kind text.now ≡ Err NoValue.NotAValue) }
        ensures past_type { IsErrOf result ReadFault.PastType
            ↔ (reading_of kind text.now ≡ Err NoValue.PastType) }
        ensures memory { IsErrOf result ReadFault.OutOfMemory → HoldsMemory (form_of kind) }
    {
        let inner = trimmed(text.as_bytes());
        match kind.form() {
            Form::Signed { bits } => told(read_signed(bits, inner)),
            Form::Unsigned { bits } => told(read_unsigned(bits, inner)),
            Form::Fixed => told(read_decimal(inner)),
            Form::Truths => told(read_truth(inner)),
            Form::Octets => read_bytes(alloc, inner),
            Form::Characters => read_text(alloc, text),
        }
    }
}
