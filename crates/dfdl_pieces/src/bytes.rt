// The bytes of a value.
ghost use Rattle.std.specs.Prelude.{◌≡◌, ◌≤◌, take};
ghost use Rattle.dfdl_value.specs.Types.{IsOfType};
ghost use Rattle.dfdl_pieces.specs.Pieces.{IsWholeField, bytes_of, in_order, piece_of};

use crate::piece::{MOST_BYTES, Piece};
use dfdl_forms::{ByteOrder, IntForm};
use dfdl_value::Value;

// The bytes of a field's value.
pub(crate) fn piece(value: &Value, form: &IntForm) -> Piece
    requires whole { IsWholeField form.now }
    requires typed { IsOfType form.now.kind value.now }
    ensures { result ≡ piece_of form.now value.now }
{
    let Value::Uns(number) = value else {
        unreachable!()
    };
    let count = (form.bits / 8) as usize;
    Piece::new(number_bytes(*number, count, form.bytes_by), count)
}

// The last `count` bytes of a number in this order.
fn number_bytes(number: u128, count: usize, by: ByteOrder) -> [u8; MOST_BYTES]
    requires { count ≤ 8 }
    ensures { take count result ≡ in_order by (bytes_of count number) }
{
    let mut bytes = [0u8; MOST_BYTES];
    for place in 0..count {
        let power = match by {
            ByteOrder::Big => count - 1 - place,
            ByteOrder::Little => place,
        };
        bytes[place] = (number >> (8 * power) & 0xFF) as u8;
    }
    bytes
}
