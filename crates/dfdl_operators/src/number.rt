// The numbers of values, taken apart.
ghost use Rattle.std.specs.Prelude.{◌≡◌, IfSome, IfOk, IfErr, Result, Ok, Err, Some, None, option_map, pos};
ghost use Rattle.dfdl_decimal.specs.Arithmetic.{comparison_of};
ghost use Rattle.dfdl_decimal.specs.Decimal.{DecimalNumber, IsFixed, with_sign};
ghost use Rattle.dfdl_operators.specs.Comparisons.{number_comparison};
ghost use Rattle.dfdl_operators.specs.Numbers.{Answer, number_of, on_number, on_numbers};
ghost use Rattle.dfdl_operators.specs.declared.fault.OperatorFault.TheVariants.{WrongType};
ghost use Rattle.dfdl_operators.specs.NumberShown.{IsShort, IsSigned, shown};

use super::fault::OperatorFault;
use dfdl_decimal::Fixed;
use dfdl_value::Value;

/// A number by its sign, its digits, and how many of them stand behind the point.
#[derive(Clone, Copy, Debug, PartialEq, Eq)]
pub(crate) struct Number {
    pub(crate) negative: bool,
    pub(crate) magnitude: u128,
    pub(crate) scale: u32,
}

/// The operands of an operator.
#[derive(Clone, Copy, Debug, PartialEq, Eq)]
pub(crate) struct Operands {
    pub(crate) left: Number,
    pub(crate) right: Number,
}

pub(crate) fn signed_whole(number: i128) -> Number
    ensures number { with_sign result.negative result.magnitude ≡ number }
    ensures scale { result.scale ≡ 0 }
    ensures sign { IsSigned result }
{
    Number {
        negative: number < 0,
        magnitude: number.unsigned_abs(),
        scale: 0,
    }
}

pub(crate) fn whole(magnitude: u128) -> Number
    ensures number { with_sign result.negative result.magnitude ≡ pos magnitude }
    ensures scale { result.scale ≡ 0 }
    ensures sign { IsSigned result }
{
    Number {
        negative: false,
        magnitude,
        scale: 0,
    }
}

pub(crate) fn decimal(number: Fixed) -> Number
    ensures number { with_sign result.negative result.magnitude ≡ number.mantissa }
    ensures scale { result.scale ≡ number.scale }
    ensures short { IsShort result }
    ensures sign { IsSigned result }
{
    let _mantissa = number.mantissa();
    Number {
        negative: number.is_negative(),
        magnitude: number.magnitude(),
        scale: u32::from(number.scale()),
    }
}

/// The number that a value is, if it is one.
fn number_in(value: &Value) -> Option<Number>
    ensures number { option_map shown result ≡ number_of value.now }
    ensures short { IfSome result IsShort }
    ensures sign { IfSome result IsSigned }
{
    match value {
        Value::Int(number) => Some(signed_whole(*number)),
        Value::Uns(number) => Some(whole(*number)),
        Value::Dec(number) => Some(decimal(*number)),
        Value::Text(_) | Value::Truth(_) | Value::Bytes(_) => None,
    }
}

/// The operand of an operator on one number.
pub(crate) fn operand_in(value: &Value) -> Result<Number, OperatorFault>
    ensures ok { IfOk result (λ n. (f : DecimalNumber → Answer)
        → on_number f (number_of value.now) ≡ f (shown n)) }
    ensures short { IfOk result IsShort }
    ensures err { IfErr result (λ e. (f : DecimalNumber → Answer)
        → on_number f (number_of value.now) ≡ Err e) }
    ensures number { IfOk result (λ n. number_of value.now ≡ Some (shown n)) }
    ensures none { IfErr result (λ e. (e ≡ WrongType) × (number_of value.now ≡ None)) }
{
    match number_in(value) {
        Some(number) => Ok(number),
        None => Err(OperatorFault::WrongType),
    }
}

/// The operands of an operator on two numbers.
pub(crate) fn operands_in(left: &Value, right: &Value) -> Result<Operands, OperatorFault>
    ensures ok { IfOk result (λ n. (f : DecimalNumber → DecimalNumber → Answer)
        → on_numbers f (number_of left.now) (number_of right.now)
        ≡ f (shown n.left) (shown n.right)) }
    ensures left { IfOk result (λ n. IsShort n.left) }
    ensures right { IfOk result (λ n. IsShort n.right) }
    ensures left_sign { IfOk result (λ n. IsSigned n.left) }
    ensures right_sign { IfOk result (λ n. IsSigned n.right) }
    ensures err { IfErr result (λ e. (f : DecimalNumber → DecimalNumber → Answer)
        → on_numbers f (number_of left.now) (number_of right.now) ≡ Err e) }
    ensures left_number { IfOk result (λ n. number_of left.now ≡ Some (shown n.left)) }
    ensures right_number { IfOk result (λ n. number_of right.now ≡ Some (shown n.right)) }
    ensures order { IfOk result (λ n. number_comparison (number_of left.now) (number_of right.now)
        ≡ Ok (comparison_of (shown n.left) (shown n.right))) }
    ensures no_order { IfErr result (λ e.
        number_comparison (number_of left.now) (number_of right.now) ≡ Err e) }
{
    match number_in(left) {
        Some(left) => match number_in(right) {
            Some(right) => Ok(Operands { left, right }),
            None => Err(OperatorFault::WrongType),
        },
        None => Err(OperatorFault::WrongType),
    }
}
