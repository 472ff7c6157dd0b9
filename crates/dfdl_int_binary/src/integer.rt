// Binary integers and binary decimals.
ghost use Rattle.std.specs.Prelude.{◌≡◌, ◌+◌, ◌*◌, ◌^◌, ◌<◌, ◌≤◌, ◌↔◌, Some, None, length, IfOk, IfSome, IsErr, OnOk, OnErr};
ghost use Rattle.std.specs.Option.{SomeIff};
ghost use Rattle.std.specs.Result.{result_ok};
ghost use Rattle.dfdl_forms.specs.BinaryNumbers.{IsIntForm};
ghost use Rattle.dfdl_bits.specs.Bits.{KeepsOutside};
ghost use Rattle.dfdl_value.specs.Types.{IsOfType};
ghost use Rattle.dfdl_int_binary.specs.Integers.{field_of, integer_reading, integer_writing};

use crate::decimal::{divided, scaled_pattern};
use crate::fault::NotInType;
use crate::signed::{pattern, signed};
use dfdl_bits::{number_at, put_number};
use dfdl_forms::{IntForm, NoFit};
use dfdl_value::{Form, Value};

/// Reads the field that begins at bit `bit`. It is not in its type exactly where it is a decimal with more than
/// 38 digits.
pub fn read(bytes: &[u8], bit: u64, form: &IntForm) -> Result<Value, NotInType>
    requires form { IsIntForm form.now }
    requires inside { bit + form.now.bits ≤ 8 * length bytes.now }
    ensures value { result_ok result ≡ integer_reading form.now (field_of form.now bytes.now bit) }
    ensures in_type { IfOk result (IsOfType form.now.kind) }
{
    let number = number_at(bytes, bit, form.bits, form.bytes_by, form.bits_by);
    match value_of(form, number) {
        Some(value) => Ok(value),
        None => Err(NotInType),
    }
}

/// Writes a value into the field that begins at bit `bit`. A value that is not of the field's type doesn't fit.
pub fn write(value: &Value, form: &IntForm, bytes: &mut [u8], bit: u64) -> Result<(), NoFit>
    requires form { IsIntForm form.now }
    requires inside { bit + form.now.bits ≤ 8 * length bytes.old }
    ensures no_fit { IsErr result ↔ (integer_writing form.now value.now ≡ None) }
    ensures number { OnOk result (integer_writing form.now value.now ≡ Some (field_of form.now bytes.new bit)) }
    ensures kept { OnOk result (KeepsOutside form.now.bits_by bytes.old bytes.new bit form.now.bits) }
    ensures err { OnErr result (bytes.new ≡ bytes.old) }
{
    match number_for(value, form) {
        Some(number) => {
            put_number(bytes, bit, form.bits, number, form.bytes_by, form.bits_by);
            Ok(())
        }
        None => Err(NoFit),
    }
}

// The value that a field's number is read as.
fn value_of(form: &IntForm, number: u128) -> Option<Value>
    requires form { IsIntForm form.now }
    requires fits { number < 2 ^ form.now.bits }
    ensures value { result ≡ integer_reading form.now number }
    ensures in_type { IfSome result (IsOfType form.now.kind) }
{
    match form.kind.form() {
        Form::Signed { .. } => Some(Value::Int(signed(number, form.bits))),
        Form::Unsigned { .. } => Some(Value::Uns(number)),
        Form::Fixed => match divided(signed(number, form.bits), form.point) {
            Some(decimal) => Some(Value::Dec(decimal)),
            None => None,
        },
        _ => None,
    }
}

// The number that a value is written as.
fn number_for(value: &Value, form: &IntForm) -> Option<u128>
    requires form { IsIntForm form.now }
    ensures number { result ≡ integer_writing form.now value.now }
    ensures fits { IfSome result (λ number. number < 2 ^ form.now.bits) }
{
    match (form.kind.form(), value) {
        (Form::Signed { .. }, Value::Int(integer)) => pattern(*integer, form.bits),
        (Form::Unsigned { .. }, Value::Uns(number)) => held(*number, form.bits),
        (Form::Fixed, Value::Dec(decimal)) => scaled_pattern(decimal, form.point, form.bits),
        _ => None,
    }
}

// The number, if it has at most `bits` bits.
fn held(number: u128, bits: u32) -> Option<u128>
    requires { bits ≤ 128 }
    ensures { SomeIff result (number < 2 ^ bits) number }
{
    (bits == 128 || number < 1 << bits).then_some(number)
}
