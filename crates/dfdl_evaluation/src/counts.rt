// How many characters writings have.
ghost use Rattle.std.specs.Prelude.{◌≡◌, ◌≤◌, ◌&&◌, drop, nat_le, nat_lt, not};
ghost use Rattle.std.specs.List.{count_by};
ghost use Rattle.dfdl_cells.specs.Pieces as pieces;
ghost use Rattle.dfdl_cells.specs.Separators.{one_if};

use dfdl_forms::Encoding;
use dfdl_terms::Primitive;
use dfdl_writings::Written;

// Whether a unit of UTF-16 with this as its more significant byte is the first of two for one character.
fn is_high(byte: u8) -> bool
    ensures { result ≡ pieces.is_high byte }
{
    216 <= byte && byte < 220
}

// Whether a byte begins a character in UTF-8.
fn begins(byte: u8) -> bool
    ensures { result ≡ not (nat_le 128 byte && nat_lt byte 192) }
{
    !(128 <= byte && byte < 192)
}

// One, where it is so.
fn one_if(so: bool) -> u64
    ensures value { result ≡ one_if so }
    ensures few { result ≤ 1 }
{
    if so { 1 } else { 0 }
}

// How many characters a text has in bytes of UTF-8.
fn utf8_characters(bytes: &[u8]) -> u64
    ensures { result ≡ pieces.utf8_characters bytes.now }
{
    let mut count = 0;
    for byte in bytes {
        if begins(*byte) {
            count += 1;
        }
    }
    count
}

// How many units of UTF-16 are the first of two for one character, where the first of two bytes is the more significant one.
fn high_units(bytes: &[u8]) -> u64
    ensures { result ≡ pieces.high_units bytes.now }
{
    let mut count = 0;
    let mut at = 0;
    while at < bytes.len() {
        count += one_if(is_high(bytes[at]));
        at += 2;
    }
    count
}

// All bytes but the first.
fn behind_first(bytes: &[u8]) -> &[u8]
    ensures { result.now ≡ drop 1 bytes.now }
{
    match bytes {
        [] => &[],
        [_, rest @ ..] => rest,
    }
}

// How many characters bytes of an encoding are.
fn encoded_characters(encoding: Encoding, bytes: &[u8]) -> u64
    ensures { result ≡ pieces.encoded_characters encoding bytes.now }
{
    let units = bytes.len() as u64 / 2;
    match encoding {
        Encoding::Utf8 => utf8_characters(bytes),
        Encoding::UsAscii => bytes.len() as u64,
        Encoding::Iso88591 => bytes.len() as u64,
        Encoding::Utf16Be => units.saturating_sub(high_units(bytes)),
        Encoding::Utf16Le => units.saturating_sub(high_units(behind_first(bytes))),
    }
}

/// How many characters the text of a primitive has in a writing; other content has none.
pub(crate) fn count_in(prim: &Primitive, written: &Written) -> u64
    ensures { result ≡ pieces.count_in prim.now written.now }
{
    match prim {
        Primitive::Text(form) => encoded_characters(form.encoding, written.bytes.as_slice()),
        Primitive::Integer(_) => 0,
        Primitive::Packed(_) => 0,
        Primitive::Truth(_) => 0,
        Primitive::Octets(_) => 0,
        Primitive::NilOctets(_) => 0,
        Primitive::Default(_) => 0,
        Primitive::NilValues(_) => 0,
        Primitive::Pattern(_) => 0,
    }
}
