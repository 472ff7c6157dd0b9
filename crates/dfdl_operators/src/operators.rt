// The operators on numbers.
ghost use Rattle.std.specs.Prelude.{◌≡◌};
ghost use Rattle.dfdl_operators.specs.Numbers.{number_of, on_number, on_numbers};
ghost use Rattle.dfdl_operators.specs.Operators.{ceiling_answer, difference_answer, floor_answer, magnitude_answer, negated_answer, product_answer, quotient_answer, remainder_answer, sum_answer, whole_quotient_answer};

use super::fault::OperatorFault;
use super::number::{operand_in, operands_in};
use super::product::product;
use super::quotient::quotient;
use super::remainder::{remainder, whole_quotient};
use super::rounding::{lower, magnitude, opposite, upper};
use super::sum::{difference, sum};
use dfdl_value::Value;

/// The operator `+`.
pub fn add(left: &Value, right: &Value) -> Result<Value, OperatorFault>
    ensures { result ≡ on_numbers sum_answer (number_of left.now) (number_of right.now) }
{
    match operands_in(left, right) {
        Ok(of) => sum(of).ok_or(OperatorFault::PastRange),
        Err(fault) => Err(fault),
    }
}

/// The operator `-` between two numbers.
pub fn subtract(left: &Value, right: &Value) -> Result<Value, OperatorFault>
    ensures { result ≡ on_numbers difference_answer (number_of left.now) (number_of right.now) }
{
    match operands_in(left, right) {
        Ok(of) => difference(of).ok_or(OperatorFault::PastRange),
        Err(fault) => Err(fault),
    }
}

/// The operator `*`.
pub fn multiply(left: &Value, right: &Value) -> Result<Value, OperatorFault>
    ensures { result ≡ on_numbers product_answer (number_of left.now) (number_of right.now) }
{
    match operands_in(left, right) {
        Ok(of) => product(of).ok_or(OperatorFault::PastRange),
        Err(fault) => Err(fault),
    }
}

/// The operator `div`: exact, or no quotient.
pub fn divide(left: &Value, right: &Value) -> Result<Value, OperatorFault>
    ensures { result ≡ on_numbers quotient_answer (number_of left.now) (number_of right.now) }
{
    match operands_in(left, right) {
        Ok(of) => quotient(of),
        Err(fault) => Err(fault),
    }
}

/// The operator `idiv`: cut toward zero.
pub fn integer_divide(left: &Value, right: &Value) -> Result<Value, OperatorFault>
    ensures { result ≡ on_numbers whole_quotient_answer (number_of left.now) (number_of right.now) }
{
    match operands_in(left, right) {
        Ok(of) => whole_quotient(of),
        Err(fault) => Err(fault),
    }
}

/// The operator `mod`: with the sign of the dividend.
pub fn modulo(left: &Value, right: &Value) -> Result<Value, OperatorFault>
    ensures { result ≡ on_numbers remainder_answer (number_of left.now) (number_of right.now) }
{
    match operands_in(left, right) {
        Ok(of) => remainder(of),
        Err(fault) => Err(fault),
    }
}

/// The operator `-` before a number.
pub fn negate(value: &Value) -> Result<Value, OperatorFault>
    ensures { result ≡ on_number negated_answer (number_of value.now) }
{
    match operand_in(value) {
        Ok(number) => opposite(number).ok_or(OperatorFault::PastRange),
        Err(fault) => Err(fault),
    }
}

/// The function `abs`.
pub fn absolute(value: &Value) -> Result<Value, OperatorFault>
    ensures { result ≡ on_number magnitude_answer (number_of value.now) }
{
    match operand_in(value) {
        Ok(number) => magnitude(number).ok_or(OperatorFault::PastRange),
        Err(fault) => Err(fault),
    }
}

/// The function `floor`.
pub fn floor(value: &Value) -> Result<Value, OperatorFault>
    ensures { result ≡ on_number floor_answer (number_of value.now) }
{
    match operand_in(value) {
        Ok(number) => lower(number).ok_or(OperatorFault::PastRange),
        Err(fault) => Err(fault),
    }
}

/// The function `ceiling`.
pub fn ceiling(value: &Value) -> Result<Value, OperatorFault>
    ensures { result ≡ on_number ceiling_answer (number_of value.now) }
{
    match operand_in(value) {
        Ok(number) => upper(number).ok_or(OperatorFault::PastRange),
        Err(fault) => Err(fault),
    }
}
