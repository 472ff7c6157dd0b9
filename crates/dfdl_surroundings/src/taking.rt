// Which value a type takes of what an expression gives.
ghost use Rattle.std.specs.Prelude.{◌≡◌, IfOk};
ghost use Rattle.dfdl_forms.specs.Types.{form_of};
ghost use Rattle.dfdl_operators.specs.Constructors.{constructed};
ghost use Rattle.dfdl_value.specs.Types.{HoldsMemory};
ghost use Rattle.dfdl_surroundings.specs.Fits.{fit_if, fit_of};
ghost use Rattle.dfdl_surroundings.specs.Taking.{answered, count_of, count_taken, count_value, is_bytes_form, is_number_form, is_text_form, is_truth_form, taken, taken_value, text_taken, truth_taken, truth_value, whole_of};

use dfdl_expression_eval::Evaluated;
use dfdl_forms::{Form, Simple};
use dfdl_operators::{FunctionFault, construct};
use dfdl_value::{TextValue, Value};
use std::alloc::{AllocError, Global};

/// In which way a type takes a value.
#[derive(Debug, Clone, Copy, PartialEq, Eq)]
pub(crate) enum Fit {
    /// a number, of which the type makes its own
    Number,
    /// as it is
    Same,
    /// not at all
    Other,
}

/// The value of a type that what an expression gives is, or the number of the fault. It takes no memory.
pub fn take(alloc: Global, kind: Simple, evaluated: Evaluated) -> Result<Value, u8>
    ensures { result ≡ taken kind evaluated }
{
    match evaluated {
        Evaluated::Known(value) => take_value(alloc, kind, value),
        Evaluated::Wait(_) => Err(1),
        Evaluated::Fault(cause) => Err(cause),
    }
}

/// The truth that what an expression gives is, or the number of the fault.
pub fn take_truth(evaluated: Evaluated) -> Result<bool, u8>
    ensures { result ≡ truth_taken evaluated }
{
    match evaluated {
        Evaluated::Known(value) => truth_of(&value),
        Evaluated::Wait(_) => Err(1),
        Evaluated::Fault(cause) => Err(cause),
    }
}

/// How many there are by what an expression gives, none where that is less than 0, or the number of the fault. It takes no memory.
pub fn take_count(alloc: Global, evaluated: Evaluated) -> Result<Option<u128>, u8>
    ensures { result ≡ count_taken evaluated }
{
    match evaluated {
        Evaluated::Known(value) => count_value(alloc, value),
        Evaluated::Wait(_) => Err(1),
        Evaluated::Fault(cause) => Err(cause),
    }
}

/// The text of what an expression gives, of whatever type that is, or the number of the fault.
pub fn take_text(alloc: Global, evaluated: Evaluated) -> Result<Result<TextValue, u8>, AllocError>
    ensures { IfOk result (λ text. text ≡ text_taken evaluated) }
{
    match evaluated {
        Evaluated::Known(value) => Ok(Ok(value.text(alloc)?)),
        Evaluated::Wait(_) => Ok(Err(1)),
        Evaluated::Fault(cause) => Ok(Err(cause)),
    }
}

fn count_value(alloc: Global, value: Value) -> Result<Option<u128>, u8>
    ensures { result ≡ count_value value }
{
    match value {
        Value::Int(number) => Ok(count_of(number)),
        Value::Uns(number) => Ok(Some(number)),
        Value::Dec(_) => whole_of(take_value(alloc, Simple::Integer, value)),
        Value::Text(_) => Err(6),
        Value::Truth(_) => Err(6),
        Value::Bytes(_) => Err(6),
    }
}

// How many a value of an integer type is.
fn whole_of(value: Result<Value, u8>) -> Result<Option<u128>, u8>
    ensures { result ≡ whole_of value }
{
    match value? {
        Value::Int(number) => Ok(count_of(number)),
        Value::Uns(number) => Ok(Some(number)),
        Value::Dec(_) => Err(6),
        Value::Text(_) => Err(6),
        Value::Truth(_) => Err(6),
        Value::Bytes(_) => Err(6),
    }
}

// A whole number as how many there are.
fn count_of(number: i128) -> Option<u128>
    ensures { result ≡ count_of number }
{
    if number < 0 {
        return None;
    }
    Some(number.unsigned_abs())
}

fn truth_of(value: &Value) -> Result<bool, u8>
    ensures { result ≡ truth_value value.now }
{
    match value {
        Value::Truth(truth) => Ok(*truth),
        Value::Int(_) => Err(6),
        Value::Uns(_) => Err(6),
        Value::Dec(_) => Err(6),
        Value::Text(_) => Err(6),
        Value::Bytes(_) => Err(6),
    }
}

fn take_value(alloc: Global, kind: Simple, value: Value) -> Result<Value, u8>
    ensures { result ≡ taken_value kind value }
{
    match fit_of(kind.form(), &value) {
        Fit::Number => number_of(alloc, kind, &value),
        Fit::Same => Ok(value),
        Fit::Other => Err(6),
    }
}

// The value that a type of numbers makes of a number.
fn number_of(alloc: Global, kind: Simple, value: &Value) -> Result<Value, u8>
    requires { ¬ HoldsMemory (form_of kind) }
    ensures { result ≡ answered (constructed kind value.now) }
{
    match construct(alloc, kind, value) {
        Ok(made) => Ok(made),
        Err(FunctionFault::Fault(fault)) => Err(fault.number()),
        Err(FunctionFault::OutOfMemory) => unreachable!(),
    }
}

// In which way a type of a form takes a value.
fn fit_of(form: Form, value: &Value) -> Fit
    ensures { result ≡ fit_of form value.now }
{
    match value {
        Value::Int(_) => number_fit(form),
        Value::Uns(_) => number_fit(form),
        Value::Dec(_) => number_fit(form),
        Value::Text(_) => text_fit(form),
        Value::Truth(_) => truth_fit(form),
        Value::Bytes(_) => bytes_fit(form),
    }
}

fn number_fit(form: Form) -> Fit
    ensures { result ≡ fit_if (is_number_form form) Fit.Number }
{
    match form {
        Form::Signed { .. } => Fit::Number,
        Form::Unsigned { .. } => Fit::Number,
        Form::Fixed => Fit::Number,
        Form::Characters => Fit::Other,
        Form::Truths => Fit::Other,
        Form::Octets => Fit::Other,
    }
}

fn text_fit(form: Form) -> Fit
    ensures { result ≡ fit_if (is_text_form form) Fit.Same }
{
    match form {
        Form::Signed { .. } => Fit::Other,
        Form::Unsigned { .. } => Fit::Other,
        Form::Fixed => Fit::Other,
        Form::Characters => Fit::Same,
        Form::Truths => Fit::Other,
        Form::Octets => Fit::Other,
    }
}

fn truth_fit(form: Form) -> Fit
    ensures { result ≡ fit_if (is_truth_form form) Fit.Same }
{
    match form {
        Form::Signed { .. } => Fit::Other,
        Form::Unsigned { .. } => Fit::Other,
        Form::Fixed => Fit::Other,
        Form::Characters => Fit::Other,
        Form::Truths => Fit::Same,
        Form::Octets => Fit::Other,
    }
}

fn bytes_fit(form: Form) -> Fit
    ensures { result ≡ fit_if (is_bytes_form form) Fit.Same }
{
    match form {
        Form::Signed { .. } => Fit::Other,
        Form::Unsigned { .. } => Fit::Other,
        Form::Fixed => Fit::Other,
        Form::Characters => Fit::Other,
        Form::Truths => Fit::Other,
        Form::Octets => Fit::Same,
    }
}
