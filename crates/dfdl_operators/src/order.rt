// How values compare.
ghost use Rattle.std.specs.Prelude.{◌≡◌, ◌*◌, ◌^◌};
ghost use Rattle.std.specs.Ordering.{nat_cmp};
ghost use Rattle.dfdl_decimal.specs.Arithmetic.{comparison_of};
ghost use Rattle.dfdl_operators.specs.Comparisons.{bytes_comparison, comparison, holds, number_comparison, text_comparison, truth_comparison};
ghost use Rattle.dfdl_operators.specs.Numbers.{number_of};
ghost use Rattle.dfdl_operators.specs.NumberShown.{IsSigned, shown};

use super::fault::OperatorFault;
use super::number::{Number, Operands, operands_in};
use super::zeros::shifted;
use dfdl_value::{ByteValue, TextValue, Value};
use std::cmp::Ordering;

/// The comparison operators.
#[derive(Clone, Copy, Debug, PartialEq, Eq)]
pub enum Relation {
    /// `eq` and `=`
    Same,
    /// `ne` and `!=`
    Other,
    /// `lt` and `<`
    Below,
    /// `le` and `<=`
    NotAbove,
    /// `gt` and `>`
    Above,
    /// `ge` and `>=`
    NotBelow,
}

impl Relation {
    /// Whether the operator holds of values that compare so.
    pub fn holds(self, order: Ordering) -> bool
        ensures { result ≡ holds self order }
    {
        match self {
            Relation::Same => order == Ordering::Equal,
            Relation::Other => order != Ordering::Equal,
            Relation::Below => order == Ordering::Less,
            Relation::NotAbove => order != Ordering::Greater,
            Relation::Above => order == Ordering::Greater,
            Relation::NotBelow => order != Ordering::Less,
        }
    }
}

/// How the numbers without their signs compare.
fn magnitude_order(left: Number, right: Number) -> Ordering
    ensures { result
        ≡ nat_cmp (left.magnitude * 10 ^ right.scale) (right.magnitude * 10 ^ left.scale) }
{
    if left.scale <= right.scale {
        match shifted(left.magnitude, right.scale - left.scale) {
            Some(longer) => longer.cmp(&right.magnitude),
            None => Ordering::Greater,
        }
    } else {
        match shifted(right.magnitude, left.scale - right.scale) {
            Some(longer) => left.magnitude.cmp(&longer),
            None => Ordering::Less,
        }
    }
}

fn number_order(of: Operands) -> Ordering
    requires left { IsSigned of.left }
    requires right { IsSigned of.right }
    ensures { result ≡ comparison_of (shown of.left) (shown of.right) }
{
    match (of.left.negative, of.right.negative) {
        (false, false) => magnitude_order(of.left, of.right),
        (false, true) => Ordering::Greater,
        (true, false) => Ordering::Less,
        (true, true) => magnitude_order(of.right, of.left),
    }
}

fn compare_numbers(left: &Value, right: &Value) -> Result<Ordering, OperatorFault>
    ensures { result ≡ number_comparison (number_of left.now) (number_of right.now) }
{
    match operands_in(left, right) {
        Ok(of) => Ok(number_order(of)),
        Err(fault) => Err(fault),
    }
}

fn compare_text(left: &TextValue, right: &Value) -> Result<Ordering, OperatorFault>
    ensures { result ≡ text_comparison left.now right.now }
{
    match right {
        Value::Text(right) => Ok(left.as_str().cmp(right.as_str())),
        Value::Int(_) | Value::Uns(_) | Value::Dec(_) | Value::Truth(_) | Value::Bytes(_) => {
            Err(OperatorFault::WrongType)
        }
    }
}

fn compare_truth(left: bool, right: &Value) -> Result<Ordering, OperatorFault>
    ensures { result ≡ truth_comparison left right.now }
{
    match right {
        Value::Truth(right) => Ok(left.cmp(right)),
        Value::Int(_) | Value::Uns(_) | Value::Dec(_) | Value::Text(_) | Value::Bytes(_) => {
            Err(OperatorFault::WrongType)
        }
    }
}

fn compare_bytes(left: &ByteValue, right: &Value) -> Result<Ordering, OperatorFault>
    ensures { result ≡ bytes_comparison left.now right.now }
{
    match right {
        Value::Bytes(right) => Ok(left.as_slice().cmp(right.as_slice())),
        Value::Int(_) | Value::Uns(_) | Value::Dec(_) | Value::Text(_) | Value::Truth(_) => {
            Err(OperatorFault::WrongType)
        }
    }
}

/// How two values compare: numbers as such, false before true, bytes one by one, texts by the codes
/// of their characters.
pub fn compare(left: &Value, right: &Value) -> Result<Ordering, OperatorFault>
    ensures { result ≡ comparison left.now right.now }
{
    match left {
        Value::Int(_) | Value::Uns(_) | Value::Dec(_) => compare_numbers(left, right),
        Value::Text(text) => compare_text(text, right),
        Value::Truth(truth) => compare_truth(*truth, right),
        Value::Bytes(bytes) => compare_bytes(bytes, right),
    }
}
