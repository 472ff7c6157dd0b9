// The constructors of the simple types.
ghost use Rattle.std.specs.Prelude.{◌≡◌, ◌<◌, IfOk, IfErr, IsErrOf, Err, pos, if◌then◌else◌};
ghost use Rattle.dfdl_forms.specs.Types.{form_of};
ghost use Rattle.dfdl_operators.specs.Constructors.{IsAnswer, as_read, constructed, from_number, from_truth, within_type};
ghost use Rattle.dfdl_operators.specs.Numbers.{Answer};
ghost use Rattle.dfdl_operators.specs.NumberShown.{shown};
ghost use Rattle.dfdl_value.specs.Numbers.{number_reading};
ghost use Rattle.dfdl_value.specs.ReadValues.{reading_of};
ghost use Rattle.dfdl_value.specs.Types.{HoldsMemory};
ghost use Rattle.dfdl_value.specs.Writing.{text_of};
ghost use Rattle.dfdl_value.specs.declared.value.Value.TheVariants.{Text};

use super::fault::{FunctionFault, OperatorFault};
use super::number::{Number, decimal, signed_whole, whole};
use dfdl_forms::{Form, Simple};
use dfdl_value::{NoValue, ReadFault, Value, value_of_number};
use std::alloc::Global;

fn read(alloc: Global, kind: Simple, text: &str) -> Result<Value, FunctionFault>
    ensures answer { IsAnswer (as_read (reading_of kind text.now)) result }
    ensures memory { IsErrOf result FunctionFault.OutOfMemory → HoldsMemory (form_of kind) }
{
    match Value::read(alloc, kind, text) {
        Ok(value) => Ok(value),
        Err(ReadFault::NotAValue) => Err(FunctionFault::Fault(OperatorFault::WrongType)),
        Err(ReadFault::PastType) => Err(FunctionFault::Fault(OperatorFault::PastRange)),
        Err(ReadFault::OutOfMemory) => Err(FunctionFault::OutOfMemory),
    }
}

fn written(alloc: Global, value: &Value) -> Result<Value, FunctionFault>
    ensures { IsAnswer (Ok (Text (text_of value.now))) result }
{
    match value.text(alloc) {
        Ok(text) => Ok(Value::Text(text)),
        Err(_) => Err(FunctionFault::OutOfMemory),
    }
}

/// The value of a type of numbers that a number is.
fn number_of_type(kind: Simple, number: Number) -> Result<Value, FunctionFault>
    ensures answer { IsAnswer (within_type (number_reading (form_of kind) (shown number))) result }
    ensures memory { ¬ IsErrOf result FunctionFault.OutOfMemory }
{
    match value_of_number(
        kind,
        number.negative,
        Some(number.magnitude),
        number.scale as usize,
    ) {
        Ok(value) => Ok(value),
        Err(_) => Err(FunctionFault::Fault(OperatorFault::PastRange)),
    }
}

fn of_number(
    alloc: Global,
    kind: Simple,
    value: &Value,
    number: Number,
) -> Result<Value, FunctionFault>
    ensures answer { IsAnswer (from_number (form_of kind) value.now (shown number)) result }
    ensures memory { IsErrOf result FunctionFault.OutOfMemory → HoldsMemory (form_of kind) }
{
    match kind.form() {
        Form::Characters => written(alloc, value),
        Form::Octets => Err(FunctionFault::Fault(OperatorFault::WrongType)),
        Form::Truths => Ok(Value::Truth(number.magnitude != 0)),
        Form::Signed { .. } | Form::Unsigned { .. } | Form::Fixed => number_of_type(kind, number),
    }
}

/// 1 for true, 0 for false.
fn truth_number(truth: bool) -> Number
    ensures { shown result ≡ record { mantissa = pos (if truth then 1 else 0); scale = 0 } }
{
    Number {
        negative: false,
        magnitude: u128::from(truth),
        scale: 0,
    }
}

fn of_truth(alloc: Global, kind: Simple, truth: bool) -> Result<Value, FunctionFault>
    ensures answer { IsAnswer (from_truth (form_of kind) truth) result }
    ensures memory { IsErrOf result FunctionFault.OutOfMemory → HoldsMemory (form_of kind) }
{
    match kind.form() {
        Form::Characters => written(alloc, &Value::Truth(truth)),
        Form::Octets => Err(FunctionFault::Fault(OperatorFault::WrongType)),
        Form::Truths => Ok(Value::Truth(truth)),
        Form::Signed { .. } | Form::Unsigned { .. } | Form::Fixed => {
            number_of_type(kind, truth_number(truth))
        }
    }
}

/// The value of a type that is made from a text, a number or a truth. Memory is taken for a string
/// and for hexBinary alone.
pub fn construct(alloc: Global, kind: Simple, value: &Value) -> Result<Value, FunctionFault>
    ensures answer { IsAnswer (constructed kind value.now) result }
    ensures memory { IsErrOf result FunctionFault.OutOfMemory → HoldsMemory (form_of kind) }
{
    match value {
        Value::Int(number) => of_number(alloc, kind, value, signed_whole(*number)),
        Value::Uns(number) => of_number(alloc, kind, value, whole(*number)),
        Value::Dec(number) => of_number(alloc, kind, value, decimal(*number)),
        Value::Truth(truth) => of_truth(alloc, kind, *truth),
        Value::Text(text) => read(alloc, kind, text.as_str()),
        Value::Bytes(_) => Err(FunctionFault::Fault(OperatorFault::WrongType)),
    }
}
