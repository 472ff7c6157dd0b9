// The reading of booleans, and of bytes from hexadecimal digits.
ghost use Rattle.std.specs.Prelude.{◌≡◌, ◌↔◌, Ok, Err, IfOk, IsErrOf};
ghost use Rattle.std.specs.List.{list_all};
ghost use Rattle.hex.specs.Hex.{is_hex_digit, decode_of};
ghost use Rattle.dfdl_value.specs.ReadValues.{truth_reading, bytes_reading};
ghost use Rattle.dfdl_value.specs.Texts.{truth_of};

use super::held::ByteValue;
use super::read::{NoValue, ReadFault};
use super::value::Value;
use std::alloc::Global;

/// What a text without white space at its ends says of a boolean.
pub(crate) fn read_truth(text: &[u8]) -> Result<Value, NoValue>
    ensures { result ≡ truth_reading (truth_of text.now) }
{
    if text == b"true".as_slice() || text == b"1".as_slice() {
        Ok(Value::Truth(true))
    } else if text == b"false".as_slice() || text == b"0".as_slice() {
        Ok(Value::Truth(false))
    } else {
        Err(NoValue::NotAValue)
    }
}

fn is_hex(byte: u8) -> bool
    ensures { result ≡ is_hex_digit byte }
{
    byte.is_ascii_hexdigit()
}

fn are_hex_digits(text: &[u8]) -> bool
    ensures { result ≡ list_all is_hex_digit text.now }
{
    text.iter().all(|byte| is_hex(*byte))
}

/// What a text without white space at its ends says of hexBinary.
pub(crate) fn read_bytes(alloc: Global, text: &[u8]) -> Result<Value, ReadFault>
    ensures value { IfOk result (λ v. bytes_reading (decode_of text.now) ≡ Ok v) }
    ensures not_a_value { IsErrOf result ReadFault.NotAValue
        ↔ (bytes_reading (decode_of text.now) ≡ Err NoValue.NotAValue) }
    ensures past_type { ¬ IsErrOf result ReadFault.PastType }
{
    if text.len() % 2 != 0 {
        return Err(ReadFault::NotAValue);
    }
    if !are_hex_digits(text) {
        return Err(ReadFault::NotAValue);
    }
    match hex::decode(alloc, text) {
        Ok(bytes) => Ok(Value::Bytes(ByteValue::from_vec(bytes))),
        Err(_) => Err(ReadFault::OutOfMemory),
    }
}
