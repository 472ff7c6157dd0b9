// The bytes of a character.
ghost use Rattle.std.specs.Prelude.{◌≡◌, ◌↔◌, ◌≤◌, [], ◌∷◌, take, Some, None, IfOk, IsErr, OnErr, encode_utf8};
ghost use Rattle.std.specs.Char.Escape.{encode_utf16};
ghost use Rattle.std.specs.List.{flat_map};
ghost use Rattle.dfdl_chars.specs.Encodings.{encoded_of, unit_bytes_of, width_in};

use dfdl_bits::ByteOrder;
use dfdl_forms::Encoding;
use thiserror::Error;

/// The encoding lacks the character.
#[derive(Clone, Copy, Debug, PartialEq, Eq, Error)]
#[error("the encoding lacks the character")]
pub struct NoSuchChar;

/// Writes the bytes of a character to the front of `into`, and answers how many they are. What stands behind them then is open.
pub fn encode(enc: Encoding, c: char, into: &mut [u8; 4]) -> Result<usize, NoSuchChar>
    ensures written { IfOk result (λ n. encoded_of enc c ≡ Some (take n into.new)) }
    ensures count { IfOk result (λ n. (1 ≤ n) × (n ≤ 4)) }
    ensures refused { IsErr result ↔ (encoded_of enc c ≡ None) }
    ensures err { OnErr result (into.new ≡ into.old) }
{
    match enc {
        Encoding::Utf8 => Ok(put_utf8(c, into)),
        Encoding::UsAscii => put_narrow(c, 128, into),
        Encoding::Iso88591 => put_narrow(c, 256, into),
        Encoding::Utf16Be => Ok(put_utf16(c, ByteOrder::Big, into)),
        Encoding::Utf16Le => Ok(put_utf16(c, ByteOrder::Little, into)),
    }
}

/// How many bytes a character has: none where the encoding lacks it.
pub fn width_in(enc: Encoding, c: char) -> usize
    ensures width { result ≡ width_in enc c }
    ensures few { result ≤ 4 }
{
    let mut bytes = [0; 4];
    encode(enc, c, &mut bytes).unwrap_or(0)
}

fn put_utf8(c: char, into: &mut [u8; 4]) -> usize
    ensures written { take result into.new ≡ encode_utf8 c }
    ensures count { (1 ≤ result) × (result ≤ 4) }
{
    let mut room = [0; 4];
    let bytes = c.encode_utf8(&mut room).as_bytes();
    let count = bytes.len();
    into[..count].copy_from_slice(bytes);
    count
}

/// Puts a character that is one byte, where its code point is below `limit`.
fn put_narrow(c: char, limit: u32, into: &mut [u8; 4]) -> Result<usize, NoSuchChar>
    requires { limit ≤ 256 }
    ensures written { IfOk result (λ n. take n into.new ≡ c ∷ []) }
    ensures count { IfOk result (λ n. n ≡ 1) }
    ensures refused { IsErr result ↔ (limit ≤ c) }
    ensures err { OnErr result (into.new ≡ into.old) }
{
    let code = u32::from(c);
    if code >= limit {
        return Err(NoSuchChar);
    }
    *into = [code as u8, 0, 0, 0];
    Ok(1)
}

fn unit_bytes(unit: u16, order: ByteOrder) -> [u8; 2]
    ensures { result ≡ unit_bytes_of order unit }
{
    match order {
        ByteOrder::Big => unit.to_be_bytes(),
        ByteOrder::Little => unit.to_le_bytes(),
    }
}

fn put_utf16(c: char, order: ByteOrder, into: &mut [u8; 4]) -> usize
    ensures written { take result into.new ≡ flat_map (unit_bytes_of order) (encode_utf16 c) }
    ensures count { (1 ≤ result) × (result ≤ 4) }
{
    let mut room = [0; 2];
    match c.encode_utf16(&mut room) {
        [unit] => {
            let [first, second] = unit_bytes(*unit, order);
            *into = [first, second, 0, 0];
            2
        }
        [high, low, ..] => {
            let [first, second] = unit_bytes(*high, order);
            let [third, fourth] = unit_bytes(*low, order);
            *into = [first, second, third, fourth];
            into.len()
        }
        [] => 0,
    }
}
