// Laws of the definitions that the contracts cite. The calls do nothing.
ghost use Rattle.std.specs.Prelude.{◌≡◌, Ok};
ghost use Rattle.hex.specs.Hex.{IsBytes, decode_of, encode_upper};
ghost use Rattle.dfdl_value.specs.ReadValues.{bytes_reading, reading_of};
ghost use Rattle.dfdl_value.specs.Texts.{trimmed};
ghost use Rattle.dfdl_value.specs.Types.{IsOfType, IsPlain};
ghost use Rattle.dfdl_value.specs.Writing.{text_of};
ghost use Rattle.dfdl_forms.specs.declared.simple.Simple.{Simple as AnySimple};
ghost use Rattle.dfdl_value.specs.declared.value.Value.{Value as AnyValue};
ghost use Rattle.dfdl_value.specs.declared.value.Value.TheVariants.{Bytes};

use super::held::ByteValue;
use super::value::Value;
use dfdl_forms::Simple;

fn are_bytes(bytes: &[u8])
    ensures { IsBytes bytes.now }
{}

fn bytes_are_read_back(held: &ByteValue)
    ensures { bytes_reading (decode_of (trimmed (encode_upper held.now))) ≡ Ok (Bytes held.now) }
{
    are_bytes(held.as_slice());
}

/// The text of a value of a type is read as that value again.
pub fn text_is_read_back(kind: Simple, value: &Value)
    requires { IsOfType kind value.now }
    ensures { reading_of kind (text_of value.now) ≡ Ok value.now }
{
    if let Value::Bytes(held) = value {
        bytes_are_read_back(held);
    }
}

/// The same of every value that holds no memory.
pub fn plain_text_is_read_back()
    ensures { (kind : AnySimple) (value : AnyValue) → IsPlain value → IsOfType kind value
        → reading_of kind (text_of value) ≡ Ok value }
{}
