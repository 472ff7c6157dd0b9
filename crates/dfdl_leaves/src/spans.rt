// How long the values of leaves are in the data.
ghost use Rattle.std.specs.Prelude.{◌≡◌, ℕ, ◌+◌, ◌*◌, ◌^◌, ◌<◌, ◌≤◌, length};
ghost use Rattle.dfdl_region.specs.Bytes.{utf8_of};
ghost use Rattle.dfdl_grammar.specs.Spans.{bits_in, bytes_in, filled, kept_to, vacant, widths_in};
ghost use Rattle.dfdl_leaves.specs.Readings.{text_span};

use dfdl_chars::width_in;
use dfdl_forms::Encoding;
use dfdl_grammar::Span;

/// A box of so many bits that begins at a bit, all of which are the value's.
pub(crate) fn filled(bit: u64, bits: u64) -> Span
    requires { bit + bits < 2 ^ 64 }
    ensures { result ≡ filled bit bits }
{
    Span {
        end: bit + bits,
        value: bits,
    }
}

/// A box without bits at a bit.
pub fn vacant(bit: u64) -> Span
    ensures { result ≡ vacant bit }
{
    Span { end: bit, value: 0 }
}

/// A box that ends at a bit, whose value has these characters.
pub(crate) fn kept_to(end: u64, encoding: Encoding, characters: &[char]) -> Span
    ensures { result ≡ kept_to end encoding characters.now }
{
    Span {
        end,
        value: bits_in(bytes_in(encoding, characters)),
    }
}

/// How many bits the characters of a string have in its data, where these aren't those of its bytes as UTF-8.
pub(crate) fn text_value(encoding: Encoding, characters: &[char]) -> Option<u64>
    ensures { (end : ℕ) → text_span (length (utf8_of characters.now)) end result ≡ kept_to end encoding characters.now }
{
    match encoding {
        Encoding::Utf8 => None,
        Encoding::UsAscii => Some(bits_in(characters.len() as u128)),
        Encoding::Iso88591 => Some(bits_in(characters.len() as u128)),
        Encoding::Utf16Be => Some(bits_in(widths_in(Encoding::Utf16Be, characters))),
        Encoding::Utf16Le => Some(bits_in(widths_in(Encoding::Utf16Le, characters))),
    }
}

/// The span of a string that has so many bytes as UTF-8, whose box ends at a bit and whose value has so many bits, if that is told.
pub fn text_span(count: u64, end: u64, value: Option<u64>) -> Span
    ensures { result ≡ text_span count end value }
{
    match value {
        Some(value) => Span { end, value },
        None => Span {
            end,
            value: bits_in(u128::from(count)),
        },
    }
}

// How many bytes characters have that were read in an encoding.
fn bytes_in(encoding: Encoding, characters: &[char]) -> u128
    ensures { result ≡ bytes_in encoding characters.now }
{
    match encoding {
        Encoding::Utf8 => widths_in(Encoding::Utf8, characters),
        Encoding::UsAscii => characters.len() as u128,
        Encoding::Iso88591 => characters.len() as u128,
        Encoding::Utf16Be => widths_in(Encoding::Utf16Be, characters),
        Encoding::Utf16Le => widths_in(Encoding::Utf16Le, characters),
    }
}

// How many bytes characters have in an encoding that has each of them.
fn widths_in(encoding: Encoding, characters: &[char]) -> u128
    ensures { result ≡ widths_in encoding characters.now }
{
    let mut width = 0;
    for c in characters {
        width += width_in(encoding, *c) as u128;
    }
    width
}

// So many bytes in bits, where 64 bits count these.
fn bits_in(count: u128) -> u64
    ensures { result ≡ bits_in count }
{
    if count < 1 << 61 {
        8 * count as u64
    } else {
        u64::MAX
    }
}
